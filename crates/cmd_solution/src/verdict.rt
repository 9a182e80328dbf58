// What is found of a solution, and its line.
ghost use Rattle.std.specs.Prelude.{◌≡◌, ◌++◌, IfOk, OnOk};
ghost use Rattle.cmd_solution.specs.Text.{ending_text, verdict_text};

use cert_text::append_number;
use run_telling::Status;
use std::alloc::{AllocError, Global};

/// What is found of a solution.
#[derive(Clone, Copy, PartialEq, Eq, Debug)]
pub struct SolutionVerdict {
    /// How many moves it has, the attacker's and the defender's.
    pub moves: u64,
    /// Whether they end in mate: the attacker made the last one, and the defender has no evasion to
    /// it.
    pub mate: bool,
}

impl Status for SolutionVerdict {
    ghost use Rattle.cmd_solution.specs.Text.{verdict_status};

    ghost status_of = { verdict_status };

    /// 0, whether they end in mate or not.
    fn status(&self) -> u8 {
        0
    }
}

fn append_ending(out: &mut Vec<u8>, mate: bool) -> Result<(), AllocError>
    ensures { OnOk result (out.new.items ≡ out.old.items ++ ending_text mate) }
{
    if mate {
        out.extend_from_slice(b" mate")?;
    } else {
        out.extend_from_slice(b" open")?;
    }
    Ok(())
}

/// The whole text of an answer to `solution`. Errors: want of memory alone.
pub fn verdict_text(alloc: Global, verdict: &SolutionVerdict) -> Result<Vec<u8>, AllocError>
    ensures { IfOk result (λ text. text.items ≡ verdict_text verdict.now) }
{
    let mut text = Vec::new(alloc);
    text.extend_from_slice(b"solution ")?;
    append_number(&mut text, verdict.moves)?;
    append_ending(&mut text, verdict.mate)?;
    text.push(b'\n')?;
    Ok(text)
}
