// The text of what was found out about a bound. Each part is appended to the one text.
ghost use Rattle.std.specs.Prelude.{◌≡◌, ◌++◌, ◌∷◌, OnOk, IfOk, codes};
ghost use Rattle.std.specs.Fmt.{decimal};
ghost use Rattle.cert_text.specs.Entries.{line};
ghost use Rattle.cmd_bound.specs.Text.{bound_text, why_text};

use crate::{BoundJudgement, BoundWhy};
use app_texts::{Judgement, append_counted, append_line, judgement_text};
use std::alloc::{AllocError, Global};
use usi_text::write_move;

fn append_why(out: &mut Vec<u8>, why: BoundWhy) -> Result<(), AllocError>
    ensures { OnOk result (out.new.items ≡ out.old.items ++ why_text why) }
{
    match why {
        BoundWhy::Root => out.extend_from_slice(b"root"),
        BoundWhy::Rank => out.extend_from_slice(b"rank"),
        BoundWhy::Check(check) => out.extend_from_slice(write_move(check).as_bytes()),
    }
}

fn append_refused(out: &mut Vec<u8>, entry: u64, why: BoundWhy) -> Result<(), AllocError>
    ensures { OnOk result (out.new.items ≡ out.old.items
        ++ line (codes "refused bound " ++ decimal entry ++ 32 ∷ why_text why)) }
{
    append_counted(out, b"refused bound ", entry)?;
    out.push(b' ')?;
    append_why(out, why)?;
    out.push(b'\n')?;
    Ok(())
}

fn line_of(alloc: Global, word: &[u8], moves: u32) -> Result<Vec<u8>, AllocError>
    ensures { IfOk result (λ text. text.items ≡ line (word.now ++ decimal moves)) }
{
    let mut text = Vec::new(alloc);
    append_line(&mut text, word, u64::from(moves))?;
    Ok(text)
}

fn refused(alloc: Global, entry: u64, why: BoundWhy) -> Result<Vec<u8>, AllocError>
    ensures { IfOk result (λ text. text.items
        ≡ line (codes "refused bound " ++ decimal entry ++ 32 ∷ why_text why)) }
{
    let mut text = Vec::new(alloc);
    append_refused(&mut text, entry, why)?;
    Ok(text)
}

/// The whole text of an answer to `check --bound`. Errors: want of memory alone.
pub fn bound_text(alloc: Global, judgement: BoundJudgement) -> Result<Vec<u8>, AllocError>
    ensures { IfOk result (λ text. text.items ≡ bound_text judgement) }
{
    match judgement {
        BoundJudgement::Shortest(moves) => line_of(alloc, b"accepted shortest ", moves),
        BoundJudgement::NoneWithin(moves) => line_of(alloc, b"accepted none within ", moves),
        BoundJudgement::MateRefused { entry, why } => {
            judgement_text(alloc, &Judgement::Refused { entry, why })
        }
        BoundJudgement::Refused { entry, why } => refused(alloc, entry, why),
    }
}
