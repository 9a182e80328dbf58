// What is answered to a problem that a session was asked to have solved.
ghost use Rattle.std.specs.Prelude.{◌≡◌, IfOk};
ghost use Rattle.app_texts.specs.Texts.{HasLine};
ghost use Rattle.usi_serve.specs.Reply.{reply_line};

use app_texts::Solution;
use std::alloc::{AllocError, Global};
use usi_session::Solve;
use usi_text::{mate_line, nomate_line, timeout_line};

/// The reply to a problem that a session was asked to have solved.
#[derive(Drop)]
pub struct Reply {
    /// What was asked: the problem, the settings of its search, and its time.
    pub asked: Solve,
    /// What was found: that it is a mate or none, with a certificate, or why it was given up.
    pub solution: Solution,
}

/// The line that tells of a solution: the USI answer alone, for a mate with its moves. Errors: want
/// of memory alone. (USI protocol: `checkmate`.)
pub fn reply_text(alloc: Global, solution: &Solution) -> Result<Vec<u8>, AllocError>
    requires { HasLine solution.now }
    ensures { IfOk result (λ text. text.items ≡ reply_line solution.now) }
{
    let mut text = match solution {
        Solution::Mate(_, line) => mate_line(alloc, line.moves())?,
        Solution::NoMate(_) => nomate_line(alloc)?,
        Solution::Unknown(_, _) => timeout_line(alloc)?,
    };
    text.extend_from_slice(b"\n")?;
    Ok(text)
}
