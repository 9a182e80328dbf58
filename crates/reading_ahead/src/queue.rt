// The queue of what a thread reads ahead, as a source.
ghost use Rattle.std.specs.Prelude.{◌≡◌, ◌-◌, ◌^◌, ◌<◌, ◌≤◌, ◌++◌, [], None, true, false, is_some, length, take, drop, IfOk, IsOkAnd, OnOk, OnErr, vec_len};
ghost use Rattle.tsume_io.specs.Faults.{Rose, one_more};
ghost use Rattle.reading_ahead.specs.Handing.{IsOfOneLine};

use crate::handing::handed_on;
use crate::hearing::{Hearing, Listener};
use crate::held::End;
use crate::line::{Line, Said};
use crate::passage::Passage;
use std::alloc::{AllocError, Global};
use std::io;
use std::sync::{Arc, Wait};
use tsume_io::{Failed, Source};

/// What a thread reads ahead, as a source. A read hands on the next of the bytes that the queue has
/// fetched from the thread: at most one line, up to and with its line feed, or a part of one. It
/// waits while there is nothing, and gives 0 at the end. Where the thread's reader failed, each
/// read behind the bytes that came before fails. That all that the thread read is fetched, and in
/// order, is trusted. It tells nothing of its bytes.
#[derive(Drop)]
pub struct Queue<W: Wait> {
    rt: W,
    passage: Arc<Passage>,
    hearing: Arc<Hearing>,
    front: Vec<u8>,
    at: usize,
    line: Line,
    faults: u64,
    reason: Option<io::Error>,
    ghost in_front: { at ≤ vec_len front },
    ghost of_64_bits: { faults ≤ 2 ^ 64 - 1 },
}

impl<W: Wait + Drop> Queue<W> {
    ghost use Rattle.reading_ahead.specs.Queue.{fetched, has_reason, queue_faults};

    // Nothing was handed on yet. What is fetched at a time is of so many bytes at most. Errors:
    // want of memory alone.
    pub(crate) fn new(
        rt: W,
        alloc: Global,
        passage: &Arc<Passage>,
        hearing: &Arc<Hearing>,
        most: usize,
    ) -> Result<Queue<W>, AllocError>
        ensures faults { IfOk result (λ queue. queue_faults queue ≡ 0) }
        ensures fetched { IfOk result (λ queue. fetched queue ≡ []) }
        ensures reason { IfOk result (λ queue. has_reason queue ≡ false) }
    {
        Ok(Queue {
            rt,
            passage: Arc::try_clone(passage)?,
            hearing: Arc::try_clone(hearing)?,
            front: Vec::with_capacity(alloc, most)?,
            at: 0,
            line: Line::new(),
            faults: 0,
            reason: None,
        })
    }

    /// A listener to what is read ahead of this queue. Errors: want of memory alone.
    pub fn listener(&self) -> Result<Listener, AllocError> {
        Listener::new(&self.hearing)
    }

    /// Why the thread's reader failed; none where no read of the queue failed yet.
    pub fn reason(&self) -> Option<io::Error>
        ensures { is_some result ≡ has_reason self.now }
    {
        self.reason
    }
}

// What stands behind so many bytes.
fn behind(bytes: &[u8], at: usize) -> &[u8]
    requires { at ≤ length bytes.now }
    ensures { result.now ≡ drop at bytes.now }
{
    &bytes[at..]
}

// Settles what was heard of these bytes, which are handed on next.
fn settle(bytes: &[u8], line: &mut Line, hearing: &Hearing) {
    for byte in bytes {
        if line.see(*byte) == Said::Stop {
            hearing.stop_was_handed_on();
        }
    }
}

impl<W: Wait + Drop> Queue<W> {
    ghost use Rattle.reading_ahead.specs.Queue.{fetched, has_reason, queue_faults};

    // Hands on what there is of the front's first line, and notes what that says.
    fn hand_on(&mut self, into: &mut [u8]) -> usize
        ensures within { result ≤ length into.new }
        ensures some { 0 < length (fetched self.old) → 0 < length into.new → 0 < result }
        ensures line { IsOfOneLine (take result into.new) }
        ensures in_order { fetched self.old ≡ take result into.new ++ fetched self.new }
        ensures reason { has_reason self.new ≡ has_reason self.old }
        ensures faults { queue_faults self.new ≡ queue_faults self.old }
    {
        let from = behind(&self.front, self.at);
        let count = handed_on(from, into.len());
        into[..count].copy_from_slice(&from[..count]);
        settle(&from[..count], &mut self.line, &self.hearing);
        self.at += count;
        count
    }

    // All was handed on: a line that lacks its line feed has ended too.
    fn end_line(&mut self)
        ensures reason { has_reason self.new ≡ has_reason self.old }
        ensures faults { queue_faults self.new ≡ queue_faults self.old }
    {
        if self.line.said() == Said::Stop {
            self.hearing.stop_was_handed_on();
        }
        self.line = Line::new();
    }

    // What a read answers where no more comes.
    fn ended(&mut self, end: End) -> Result<usize, Failed>
        ensures none { IfOk result (λ n. n ≡ 0) }
        ensures told { OnErr result (has_reason self.new ≡ true) }
        ensures untold { OnOk result (has_reason self.new ≡ has_reason self.old) }
        ensures counted { OnOk result (queue_faults self.new ≡ queue_faults self.old) }
        ensures raised { OnErr result (queue_faults self.new ≡ one_more (queue_faults self.old)) }
    {
        self.end_line();
        match end {
            End::Over => Ok(0),
            End::Failed(reason) => {
                self.reason = Some(reason);
                self.faults = self.faults.saturating_add(1);
                Err(Failed)
            }
        }
    }
}

impl<W: Wait + Drop> Source for Queue<W> {
    ghost use Rattle.reading_ahead.specs.Queue.{fetched, has_reason, queue_faults};

    ghost left = { λ _. None };

    ghost faults = { λ queue. queue_faults queue };

    ghost of_64_bits = { λ queue. queue.of_64_bits };

    fn read(&mut self, into: &mut [u8]) -> Result<usize, Failed>
        // As each source that doesn't tell its bytes.
        ensures within { IfOk result (λ n. n ≤ length into.new) }
        ensures failed { OnErr result (Rose (queue_faults self.old) (queue_faults self.new)) }
        ensures counted { OnOk result (queue_faults self.new ≡ queue_faults self.old) }
        ensures never_falls { queue_faults self.old ≤ queue_faults self.new }

        // By one each time, and the reason is told from then on.
        ensures told { OnErr result (has_reason self.new ≡ true) }
        ensures untold { OnOk result (has_reason self.new ≡ has_reason self.old) }
        ensures raised { OnErr result (queue_faults self.new ≡ one_more (queue_faults self.old)) }

        // No bytes of two lines, and of what was fetched the next ones. Where nothing was left of
        // that, what comes is trusted.
        ensures line { IfOk result (λ n. IsOfOneLine (take n into.new)) }
        ensures in_order { 0 < length (fetched self.old)
            → IfOk result (λ n. fetched self.old ≡ take n into.new ++ fetched self.new) }

        // Where something is left of what was fetched, a read doesn't fail, and gives a byte.
        ensures some { 0 < length (fetched self.old) → 0 < length into.new
            → IsOkAnd result (λ n. 0 < n) }
    {
        if into.is_empty() {
            return Ok(0);
        }
        if self.at == self.front.len() {
            self.at = 0;
            if let Some(end) = self.passage.fetch(&self.rt, &mut self.front) {
                return self.ended(end);
            }
        }
        Ok(self.hand_on(into))
    }
}
