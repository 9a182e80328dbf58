// How a session ended.
ghost use Rattle.std.specs.Prelude.{◌≡◌, IfOk};
ghost use Rattle.run_telling.specs.Telling.{BeginsAsTold};
ghost use Rattle.cmd_usi.specs.Text.{talk_status, talk_telling};

use explanations::Trouble;
use run_telling::{Status, told_line};
use std::alloc::{AllocError, Global};
use usi_serve::Reply;

/// Why a session ended.
#[derive(Clone, Copy, Debug, PartialEq, Eq)]
pub enum TalkEnd {
    /// It was over: a line ended it, or the input did.
    Over,
    /// A line or the input was too long.
    TooLong,
    /// The source failed.
    Read,
    /// The sink failed, and kept a part of what was said at a line.
    Write,
    /// Memory was wanted and not there.
    NoMemory,
}

/// A session that has ended.
#[derive(Drop)]
pub struct Talked {
    /// The replies to the problems that it was asked to have solved, in order, as far as they were
    /// written whole.
    pub replies: Vec<Reply>,
    /// Why it ended.
    pub end: TalkEnd,
}

impl Status for Talked {
    ghost use Rattle.cmd_usi.specs.Text.{talk_status};

    ghost status_of = { λ talked. talk_status talked.end };

    /// 0 where it was over, 3 where a line or the input was too long, 4 where the source failed, 5
    /// where the sink failed, 6 for want of memory.
    fn status(&self) -> u8 {
        match self.end {
            TalkEnd::Over => 0,
            TalkEnd::TooLong => 3,
            TalkEnd::Read => 4,
            TalkEnd::Write => 5,
            TalkEnd::NoMemory => 6,
        }
    }
}

impl Talked {
    /// What the user is told of it: nothing where it was over, else a line that says why it ended,
    /// and behind it what to do. Errors: want of memory for the line.
    pub fn told(&self, alloc: Global) -> Result<Vec<u8>, AllocError>
        ensures { IfOk result (λ text. BeginsAsTold (talk_telling self.now.end) text.items) }
    {
        match self.end {
            TalkEnd::Over => Ok(Vec::new(alloc)),
            TalkEnd::TooLong => told_line(alloc, "too long", None, &[]),
            TalkEnd::Read => told_line(alloc, "read fault", None, &[]),
            TalkEnd::Write => told_line(alloc, "write fault", Some(Trouble::Write), &[]),
            TalkEnd::NoMemory => told_line(alloc, "out of memory", Some(Trouble::NoMemory), &[]),
        }
    }
}
