// Answers to a question for a mate.
ghost use Rattle.std.specs.Prelude.{◌≡◌, ◌++◌, IfOk, OnOk};
ghost use Rattle.usi_text.specs.Lines.{mate_text, nomate_text, timeout_text, AllHaveText};

use crate::write_move;
use board_core::Move;
use std::alloc::{AllocError, Global};

/// Writes the answer that these moves mate behind what stands there already: see [`mate_line`].
/// Where memory is wanted, a part of it may stand there. Errors: want of memory alone.
pub fn append_mate_line(out: &mut Vec<u8>, moves: &[Move]) -> Result<(), AllocError>
    requires { AllHaveText moves.now }
    ensures { OnOk result (out.new.items ≡ out.old.items ++ mate_text moves.now) }
{
    out.extend_from_slice(b"checkmate")?;
    for m in moves {
        out.push(b' ')?;
        out.extend_from_slice(write_move(*m).as_bytes())?;
    }
    Ok(())
}

/// The answer that these moves mate: `checkmate` and the moves, a space before each (USI protocol:
/// `checkmate`). No line feed. Each move has a text in the protocol. Errors: want of memory alone.
pub fn mate_line(alloc: Global, moves: &[Move]) -> Result<Vec<u8>, AllocError>
    requires { AllHaveText moves.now }
    ensures { IfOk result (λ line. line.items ≡ mate_text moves.now) }
{
    let mut line = Vec::new(alloc);
    append_mate_line(&mut line, moves)?;
    Ok(line)
}

/// Writes the answer that there is no mate behind what stands there already: see [`nomate_line`].
/// Errors: want of memory alone.
pub fn append_nomate_line(out: &mut Vec<u8>) -> Result<(), AllocError>
    ensures { OnOk result (out.new.items ≡ out.old.items ++ nomate_text) }
{
    out.extend_from_slice(b"checkmate nomate")?;
    Ok(())
}

/// The answer that there is no mate: `checkmate nomate` (USI protocol: `checkmate`). No line feed.
/// Errors: want of memory alone.
pub fn nomate_line(alloc: Global) -> Result<Vec<u8>, AllocError>
    ensures { IfOk result (λ line. line.items ≡ nomate_text) }
{
    let mut line = Vec::new(alloc);
    append_nomate_line(&mut line)?;
    Ok(line)
}

/// Writes the answer that the time was over first behind what stands there already: see
/// [`timeout_line`]. Errors: want of memory alone.
pub fn append_timeout_line(out: &mut Vec<u8>) -> Result<(), AllocError>
    ensures { OnOk result (out.new.items ≡ out.old.items ++ timeout_text) }
{
    out.extend_from_slice(b"checkmate timeout")?;
    Ok(())
}

/// The answer that the time was over first: `checkmate timeout` (USI protocol: `checkmate`). No
/// line feed. Errors: want of memory alone.
pub fn timeout_line(alloc: Global) -> Result<Vec<u8>, AllocError>
    ensures { IfOk result (λ line. line.items ≡ timeout_text) }
{
    let mut line = Vec::new(alloc);
    append_timeout_line(&mut line)?;
    Ok(line)
}
