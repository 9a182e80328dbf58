// What is heard of the input ahead: two words that the reading thread writes, the queue settles
// and each stop looks at.
ghost use Rattle.std.specs.Prelude.{◌≡◌, None, false};
ghost use Rattle.search_gate.specs.Stop.{one_more};
ghost use Rattle.reading_ahead.specs.Hearing.{asks_of, heard_by};

use std::alloc::AllocError;
use std::sync::Arc;
use std::sync::atomic::{AtomicU64, Ordering};

/// What was heard of the input ahead of the queue.
#[derive(Clone, Copy, Debug, PartialEq, Eq)]
pub struct Heard {
    /// A line `stop` was read that wasn't handed on yet.
    pub stop_waits: bool,
    /// What the reading thread's clock showed when it had read `quit`, or the end of the input, or
    /// when its reader failed, whichever came first; none before.
    pub left_at: Option<u64>,
}

// In `news`, beside the lines `stop` that wait, of which there are fewer: the input was left.
const LEFT: u64 = 0x1_0000_0000;

// What was heard. It is trusted, since no clause knows what another thread wrote into an atomic:
// `news` counts the lines `stop` that wait, and has `LEFT` once `left_at` was written. So a look
// that finds no news is one read.
#[derive(Drop)]
pub struct Hearing {
    news: AtomicU64,
    left_at: AtomicU64,
}

impl Hearing {
    // Nothing was heard yet.
    pub fn new() -> Hearing {
        Hearing {
            news: AtomicU64::new(0),
            left_at: AtomicU64::new(0),
        }
    }

    // The reading thread has read a line `stop`.
    pub fn stop_was_read(&self) {
        self.news.fetch_add(1, Ordering::SeqCst);
    }

    // The queue has handed on a line `stop`, which was read before.
    pub fn stop_was_handed_on(&self) {
        self.news.fetch_sub(1, Ordering::SeqCst);
    }

    // The reading thread has read `quit` or the end, when its clock showed this. It says so once.
    pub fn was_left(&self, now: u64) {
        self.left_at.store(now, Ordering::SeqCst);
        self.news.fetch_add(LEFT, Ordering::SeqCst);
    }

    // What was heard by now.
    fn heard(&self) -> Heard {
        let news = self.news.load(Ordering::SeqCst);
        let left_at = if news >= LEFT {
            Some(self.left_at.load(Ordering::SeqCst))
        } else {
            None
        };
        Heard {
            stop_waits: news % LEFT != 0,
            left_at,
        }
    }
}

/// Tells what is heard of the input that is read ahead. It is trusted: clauses say of an answer no
/// more than that it was the last, and how often it was asked.
#[derive(Drop)]
pub struct Listener {
    hearing: Arc<Hearing>,
    heard: Heard,
    // How often it was asked, up to 2^64 - 1.
    asks: u64,
}

impl Listener {
    // A listener that heard nothing yet. Errors: want of memory alone.
    pub(crate) fn new(hearing: &Arc<Hearing>) -> Result<Listener, AllocError> {
        Ok(Listener {
            hearing: Arc::try_clone(hearing)?,
            heard: Heard {
                stop_waits: false,
                left_at: None,
            },
            asks: 0,
        })
    }

    /// What was heard by now. It reads one atomic, and a second one where `quit` or the end was
    /// read. It takes no memory and waits for nobody.
    pub fn listen(&mut self) -> Heard
        ensures heard { result ≡ heard_by self.new }
        ensures asked { asks_of self.new ≡ one_more (asks_of self.old) }
    {
        self.asks = self.asks.saturating_add(1);
        self.heard = self.hearing.heard();
        self.heard
    }
}
