// How reading ahead begins.
ghost use Rattle.std.specs.Prelude.{◌≡◌, ◌≤◌, IfOk};
ghost use Rattle.reading_ahead.specs.Queue.{queue_faults};

use crate::hearing::Hearing;
use crate::passage::Passage;
use crate::queue::Queue;
use crate::reader::Reader;
use search_gate::Clock;
use std::alloc::{AllocError, Global};
use std::io::Read;
use std::sync::{Arc, Wait};
use std::thread::{self, Threads};

/// Why reading ahead couldn't begin.
#[derive(Clone, Copy, Debug, PartialEq, Eq)]
pub enum NotBegun {
    /// There was no memory for the queue.
    NoMemory,
    /// The system started no thread.
    NoThread,
}

impl From<AllocError> for NotBegun {
    fn from(_: AllocError) -> Self {
        NotBegun::NoMemory
    }
}

// A value that several threads hold.
fn shared<T: Drop>(alloc: Global, value: T) -> Result<Arc<T>, AllocError> {
    Ok(Arc::new(alloc, value)?)
}

/// Starts a thread that reads this reader ahead, and answers the queue of what it reads. The queue
/// takes all its memory now and holds `most` bytes at most; where it is full, the thread waits,
/// with those of its last read in hand, 64 KiB at most. The thread ends behind the reader's end or
/// its first failure, and keeps no process from ending while it waits or reads. The moment at which
/// `quit` or the end was read is told by `clock`.
pub fn read_ahead<
    R: Threads + Wait + Copy + Send + 'static,
    I: Read + Send + Drop + 'static,
    C: Clock + Drop + 'static,
>(rt: R, alloc: Global, input: I, clock: C, most: usize) -> Result<Queue<R>, NotBegun>
    requires { 2 ≤ most }
    ensures { IfOk result (λ queue. queue_faults queue ≡ 0) }
{
    // What waits and what was fetched take half each.
    let half = most / 2;
    let passage = shared(alloc, Passage::new(alloc, half)?)?;
    let hearing = shared(alloc, Hearing::new())?;
    let queue = Queue::new(rt, alloc, &passage, &hearing, half)?;
    let mut reader = Reader::new(input, clock, passage, hearing);
    match thread::spawn(&rt, move || reader.run(&rt)) {
        Ok(_) => Ok(queue),
        Err(_) => Err(NotBegun::NoThread),
    }
}
