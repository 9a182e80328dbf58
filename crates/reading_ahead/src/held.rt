// The bytes that were read and not yet fetched by the queue.
ghost use Rattle.std.specs.Prelude.{◌≡◌, ◌↔◌, ◌-◌, ◌≤◌, ◌++◌, [], length, take, min, Some, None, IsTrue, IfOk, OnErr, vec_len};

use std::alloc::{AllocError, Global};
use std::{io, mem};

/// Why no more is read.
#[derive(Clone, Copy, Debug)]
pub enum End {
    /// The reader has given all.
    Over,
    /// The reader failed for this reason.
    Failed(io::Error),
}

/// What the reading thread has put and the queue hasn't fetched, so many bytes at most, and why
/// reading ended, if it did.
#[derive(Drop)]
pub struct Held {
    bytes: Vec<u8>,
    most: usize,
    end: Option<End>,
    ghost within: { vec_len bytes ≤ most },
}

impl Held {
    ghost use Rattle.reading_ahead.specs.Waiting.{end_of, most_of, waiting};

    /// It holds nothing yet, and at most so much. Errors: want of memory alone.
    pub fn new(alloc: Global, most: usize) -> Result<Held, AllocError>
        ensures waiting { IfOk result (λ held. waiting held ≡ []) }
        ensures most { IfOk result (λ held. most_of held ≡ most) }
        ensures end { IfOk result (λ held. end_of held ≡ None) }
    {
        Ok(Held {
            bytes: Vec::with_capacity(alloc, most)?,
            most,
            end: None,
        })
    }

    /// Whether there is no room for a byte.
    pub fn is_full(&self) -> bool
        ensures { IsTrue result ↔ (length (waiting self.now) ≡ most_of self.now) }
    {
        self.bytes.len() == self.most
    }

    /// Whether there is nothing to fetch, neither bytes nor an end.
    pub fn is_idle(&self) -> bool
        ensures { IsTrue result ↔ ((waiting self.now ≡ []) × (end_of self.now ≡ None)) }
    {
        self.bytes.is_empty() && self.end.is_none()
    }

    /// Why reading ended, if it did.
    pub fn end(&self) -> Option<End>
        ensures { result ≡ end_of self.now }
    {
        self.end
    }

    /// Reading ended.
    pub fn finish(&mut self, end: End)
        ensures waiting { waiting self.new ≡ waiting self.old }
        ensures most { most_of self.new ≡ most_of self.old }
        ensures end { end_of self.new ≡ Some end }
    {
        self.end = Some(end);
    }

    /// Puts the first of these bytes behind those that wait, as many as there is room for, and
    /// answers how many. Errors: want of memory alone; then nothing changed.
    pub fn put(&mut self, piece: &[u8]) -> Result<usize, AllocError>
        ensures count { IfOk result
            (λ n. n ≡ min (most_of self.old - length (waiting self.old)) (length piece.now)) }
        ensures put { IfOk result (λ n. waiting self.new ≡ waiting self.old ++ take n piece.now) }
        ensures unchanged { OnErr result (waiting self.new ≡ waiting self.old) }
        ensures most { most_of self.new ≡ most_of self.old }
        ensures end { end_of self.new ≡ end_of self.old }
    {
        let count = (self.most - self.bytes.len()).min(piece.len());
        self.bytes.extend_from_slice(&piece[..count])?;
        Ok(count)
    }

    /// Fetches all that waits: it stands in `front` then, in place of what stood there.
    pub fn fetch(&mut self, front: &mut Vec<u8>)
        ensures fetched { front.new.items ≡ waiting self.old }
        ensures waiting { waiting self.new ≡ [] }
        ensures most { most_of self.new ≡ most_of self.old }
        ensures end { end_of self.new ≡ end_of self.old }
    {
        front.clear();
        mem::swap(&mut self.bytes, front);
    }
}
