// A reader and a clock of the tests' own.
ghost use Rattle.edge_tests.specs.Given.{shown_last, times_asked};

use search_gate::Clock;
use std::alloc::{AllocError, Global};
use std::io;
use std::sync::Arc;
use std::sync::atomic::{AtomicU64, Ordering};

// A reader of these bytes, so many a call, that fails where it would give the end, if it is to.
#[derive(Drop)]
pub struct Given {
    bytes: Vec<u8>,
    at: usize,
    piece: usize,
    fails: bool,
}

impl Given {
    pub fn new(bytes: Vec<u8>, piece: usize, fails: bool) -> Given {
        Given {
            bytes,
            at: 0,
            piece,
            fails,
        }
    }
}

impl io::Read for Given {
    fn read(&mut self, buf: &mut [u8]) -> io::Result<usize> {
        let left = self.bytes.get(self.at..).unwrap_or(&[]);
        if left.is_empty() && self.fails {
            return Err(io::Error::from(io::ErrorKind::ConnectionReset));
        }
        let count = left.len().min(self.piece).min(buf.len());
        buf[..count].copy_from_slice(&left[..count]);
        self.at = self.at.saturating_add(count);
        Ok(count)
    }
}

// A clock that shows what the test has set, and so much more at each look behind the first.
#[derive(Drop)]
pub struct Set {
    time: Arc<AtomicU64>,
    step: u64,
    shown: u64,
    asks: u64,
}

impl Set {
    pub fn new(time: &Arc<AtomicU64>, step: u64) -> Result<Set, AllocError> {
        Ok(Set {
            time: Arc::try_clone(time)?,
            step,
            shown: 0,
            asks: 0,
        })
    }
}

impl Clock for Set {
    ghost use Rattle.edge_tests.specs.Given.{shown_last, times_asked};

    ghost answered = { λ clock. shown_last clock };

    ghost asked = { λ clock. times_asked clock };

    fn now(&mut self) -> u64 {
        self.asks = self.asks.saturating_add(1);
        self.shown = self.time.fetch_add(self.step, Ordering::SeqCst);
        self.shown
    }
}

// A time that the test sets.
pub fn time(alloc: Global, milliseconds: u64) -> Result<Arc<AtomicU64>, AllocError> {
    Ok(Arc::new(alloc, AtomicU64::new(milliseconds))?)
}
