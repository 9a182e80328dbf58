// The exit status of a run.
ghost use Rattle.std.specs.Prelude.{◌≡◌};
ghost use Rattle.run_telling.specs.Status.{fault_status};

use app_texts::{Judgement, Solution};
use one_run::{Ended, Fault, Written};

/// What has an exit status: an answer that was written whole, and an ending.
pub trait Status {
    ghost use Rattle.std.specs.Prelude.{◌≡◌, ℕ};

    /// The status.
    ghost status_of: { Self → ℕ };

    /// The exit status.
    fn status(&self) -> u8
        ensures { result ≡ status_of self.now };
}

impl Status for Solution {
    ghost use Rattle.run_telling.specs.Status.{solution_status};

    ghost status_of = { solution_status };

    /// 0 with a verdict, 1 where the search gave up.
    fn status(&self) -> u8 {
        match self {
            Solution::Mate(..) | Solution::NoMate(_) => 0,
            Solution::Unknown(..) => 1,
        }
    }
}

impl Status for Judgement {
    ghost use Rattle.run_telling.specs.Status.{judgement_status};

    ghost status_of = { judgement_status };

    /// 0 where the certificate is accepted, 7 where it is refused.
    fn status(&self) -> u8 {
        match self {
            Judgement::Accepted { .. } => 0,
            Judgement::Refused { .. } => 7,
        }
    }
}

impl Status for String {
    ghost status_of = { λ text. 0 };

    /// Of a text that was asked for, as help is.
    fn status(&self) -> u8 {
        0
    }
}

fn fault_status<F>(fault: &Fault<F>) -> u8
    ensures { result ≡ fault_status fault.now }
{
    match fault {
        Fault::Text(_) | Fault::TooLong => 3,
        Fault::Read => 4,
        Fault::NoMemory => 6,
    }
}

impl<A: Status, F> Status for Ended<A, F> {
    ghost use Rattle.run_telling.specs.Status.{ended_status};

    ghost status_of = { ended_status A.status_of };

    /// That of the answer; 5 where the sink failed, 3 where the text is at fault, 4 where the
    /// source failed, 6 for want of memory.
    fn status(&self) -> u8 {
        match self {
            Ended::Answered(answer) => answer.status(),
            Ended::CutShort(_) => 5,
            Ended::Failed(fault, _) => fault_status(fault),
        }
    }
}

impl<A: Status> Status for Written<A> {
    ghost use Rattle.run_telling.specs.Status.{written_status};

    ghost status_of = { written_status A.status_of };

    /// That of the answer; 5 where the sink failed, 6 for want of memory.
    fn status(&self) -> u8 {
        match self {
            Written::Whole(answer) => answer.status(),
            Written::InPart(_) => 5,
            Written::NoMemory => 6,
        }
    }
}
