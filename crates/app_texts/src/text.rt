// The text of an answer. Each part is appended to the one text.
ghost use Rattle.std.specs.Prelude.{◌≡◌, ◌++◌, ◌∷◌, OnOk, IfOk, codes};
ghost use Rattle.std.specs.Fmt.{decimal};
ghost use Rattle.usi_text.specs.MoveText.{move_text};
ghost use Rattle.usi_text.specs.Lines.{AllHaveText, timeout_text};
ghost use Rattle.cert_text.specs.Entries.{line};
ghost use Rattle.cert_text.specs.Text.{claim_word};
ghost use Rattle.app_texts.specs.Texts.{HasLine, solution_text, judgement_text, why_text, cause_text};

use crate::{Judgement, Solution};
use board_core::Move;
use cert_check::Why;
use cert_text::{
    Claim, EscapeCertificate, MateCertificate, append_escape_cert, append_mate_cert, append_number,
};
use search_limits::Cause;
use std::alloc::{AllocError, Global};
use usi_text::{append_mate_line, append_nomate_line, append_timeout_line, write_move};

fn append_move(out: &mut Vec<u8>, word: &[u8], named: Move) -> Result<(), AllocError>
    ensures { OnOk result (out.new.items ≡ out.old.items ++ (word.now ++ move_text named)) }
{
    out.extend_from_slice(word)?;
    out.extend_from_slice(write_move(named).as_bytes())?;
    Ok(())
}

fn append_why(out: &mut Vec<u8>, why: Why) -> Result<(), AllocError>
    ensures { OnOk result (out.new.items ≡ out.old.items ++ why_text why) }
{
    match why {
        Why::RootMissing => {
            out.extend_from_slice(b"root")?;
            Ok(())
        }
        Why::NotACheck(named) => append_move(out, b"move ", named),
        Why::EvasionOutside(named) => append_move(out, b"outside ", named),
        Why::RankNotLower(named) => append_move(out, b"rank ", named),
        Why::CheckUnanswered(named) => append_move(out, b"unanswered ", named),
    }
}

fn append_accepted(out: &mut Vec<u8>, claim: Claim, entries: u64) -> Result<(), AllocError>
    ensures { OnOk result (out.new.items
        ≡ out.old.items ++ line (codes "accepted " ++ claim_word claim ++ 32 ∷ decimal entries)) }
{
    out.extend_from_slice(b"accepted ")?;
    out.extend_from_slice(claim.word())?;
    out.push(b' ')?;
    append_number(out, entries)?;
    out.push(b'\n')?;
    Ok(())
}

fn append_refused(out: &mut Vec<u8>, entry: u64, why: Why) -> Result<(), AllocError>
    ensures { OnOk result (out.new.items
        ≡ out.old.items ++ line (codes "refused " ++ decimal entry ++ 32 ∷ why_text why)) }
{
    out.extend_from_slice(b"refused ")?;
    append_number(out, entry)?;
    out.push(b' ')?;
    append_why(out, why)?;
    out.push(b'\n')?;
    Ok(())
}

fn append_judgement(out: &mut Vec<u8>, judgement: &Judgement) -> Result<(), AllocError>
    ensures { OnOk result (out.new.items ≡ out.old.items ++ judgement_text judgement.now) }
{
    match judgement {
        Judgement::Accepted { claim, entries } => append_accepted(out, *claim, *entries),
        Judgement::Refused { entry, why } => append_refused(out, *entry, *why),
    }
}

fn append_mate(
    out: &mut Vec<u8>,
    certificate: &MateCertificate,
    moves: &[Move],
) -> Result<(), AllocError>
    requires { AllHaveText moves.now }
    ensures { OnOk result (out.new.items
        ≡ out.old.items ++ solution_text (Solution.Mate certificate.now moves.now)) }
{
    append_mate_line(out, moves)?;
    out.push(b'\n')?;
    append_mate_cert(out, certificate)
}

fn append_no_mate(out: &mut Vec<u8>, certificate: &EscapeCertificate) -> Result<(), AllocError>
    ensures { OnOk result (out.new.items
        ≡ out.old.items ++ solution_text (Solution.NoMate certificate.now)) }
{
    append_nomate_line(out)?;
    out.push(b'\n')?;
    append_escape_cert(out, certificate)
}

/// Writes a word and a number behind it, behind what stands there already. Errors: want of memory
/// alone.
pub fn append_counted(out: &mut Vec<u8>, word: &[u8], number: u64) -> Result<(), AllocError>
    ensures { OnOk result (out.new.items ≡ out.old.items ++ (word.now ++ decimal number)) }
{
    out.extend_from_slice(word)?;
    append_number(out, number)?;
    Ok(())
}

/// Writes what was used up, that it was stopped, or that the certificate would be too long, behind
/// what stands there already. Errors: want of memory alone.
pub fn append_cause(out: &mut Vec<u8>, cause: Cause) -> Result<(), AllocError>
    ensures { OnOk result (out.new.items ≡ out.old.items ++ cause_text cause) }
{
    match cause {
        Cause::Expansions(visits) => append_counted(out, b"expansions ", visits),
        Cause::Room(notes) => append_counted(out, b"room ", u64::from(notes)),
        Cause::Height(height) => append_counted(out, b"height ", u64::from(height)),
        Cause::Stopped(_) => {
            out.extend_from_slice(b"stopped")?;
            Ok(())
        }
        Cause::Entries(most) => append_counted(out, b"entries ", u64::from(most)),
    }
}

fn append_unknown(out: &mut Vec<u8>, cause: Cause) -> Result<(), AllocError>
    ensures { OnOk result (out.new.items
        ≡ out.old.items ++ (line timeout_text ++ line (codes "unknown " ++ cause_text cause))) }
{
    append_timeout_line(out)?;
    out.extend_from_slice(b"\nunknown ")?;
    append_cause(out, cause)?;
    out.push(b'\n')?;
    Ok(())
}

fn append_solution(out: &mut Vec<u8>, solution: &Solution) -> Result<(), AllocError>
    requires { HasLine solution.now }
    ensures { OnOk result (out.new.items ≡ out.old.items ++ solution_text solution.now) }
{
    match solution {
        Solution::Mate(certificate, moves) => append_mate(out, certificate, moves.moves()),
        Solution::NoMate(certificate) => append_no_mate(out, certificate),
        Solution::Unknown(cause, _) => append_unknown(out, *cause),
    }
}

/// Writes a line of a word and a number behind it, behind what stands there already. Errors: want
/// of memory alone.
pub fn append_line(out: &mut Vec<u8>, word: &[u8], number: u64) -> Result<(), AllocError>
    ensures { OnOk result (out.new.items ≡ out.old.items ++ line (word.now ++ decimal number)) }
{
    append_counted(out, word, number)?;
    out.push(b'\n')?;
    Ok(())
}

/// The whole text of an answer to `solve`, whose moves have texts. Errors: want of memory alone.
/// (USI protocol: `checkmate`.)
pub fn solution_text(alloc: Global, solution: &Solution) -> Result<Vec<u8>, AllocError>
    requires { HasLine solution.now }
    ensures { IfOk result (λ text. text.items ≡ solution_text solution.now) }
{
    let mut text = Vec::new(alloc);
    append_solution(&mut text, solution)?;
    Ok(text)
}

/// The whole text of an answer to `check`. Errors: want of memory alone.
pub fn judgement_text(alloc: Global, judgement: &Judgement) -> Result<Vec<u8>, AllocError>
    ensures { IfOk result (λ text. text.items ≡ judgement_text judgement.now) }
{
    let mut text = Vec::new(alloc);
    append_judgement(&mut text, judgement)?;
    Ok(text)
}
