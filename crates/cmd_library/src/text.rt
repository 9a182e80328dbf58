// The text of what was found out about a problem with a library behind it.
ghost use Rattle.std.specs.Prelude.{◌≡◌, IfOk};
ghost use Rattle.cmd_library.specs.Text.{HasText, library_answer_text, refused_text};

use crate::LibraryAnswer;
use app_texts::{Judgement, append_counted, judgement_text, solution_text};
use library_check::Refused;
use std::alloc::{AllocError, Global};

// What `check` tells of the certificate, with its number put behind the first word.
fn refused_text(alloc: Global, refused: &Refused) -> Result<Vec<u8>, AllocError>
    ensures { IfOk result (λ text. text.items ≡ refused_text refused.now) }
{
    let judgement = Judgement::Refused {
        entry: refused.entry,
        why: refused.why,
    };
    let told = judgement_text(alloc, &judgement)?;
    let mut text = Vec::new(alloc);
    append_counted(&mut text, b"refused library ", refused.number)?;
    text.extend_from_slice(&told[7..])?;
    Ok(text)
}

/// The whole text of an answer to `solve --library`, whose moves have texts: that of the solution
/// ([`solution_text`]); or the line `refused library I E W`, where I is the certificate's number, E
/// the entry's, and W the reason, as [`judgement_text`] writes it. Errors: want of memory alone.
pub fn library_answer_text(alloc: Global, answer: &LibraryAnswer) -> Result<Vec<u8>, AllocError>
    requires { HasText answer.now }
    ensures { IfOk result (λ text. text.items ≡ library_answer_text answer.now) }
{
    match answer {
        LibraryAnswer::Solved(solution) => solution_text(alloc, solution),
        LibraryAnswer::Refused(refused) => refused_text(alloc, refused),
    }
}
