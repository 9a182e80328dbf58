// A source and a sink in memory, whose calls go as a script says. Tests stand on them.
ghost use Rattle.std.specs.Prelude.{◌≡◌, ◌↔◌, ◌⊎◌, ◌<◌, ◌≤◌, ◌++◌, [], length, take, Some, IfOk, OnOk, OnErr, IsErr, vec_len, vec_capacity};
ghost use Rattle.tsume_io.specs.Faults.{Rose};

use crate::copy::copy_front;
use crate::fault::Failed;
use crate::script::Script;
use crate::{Sink, Source};
use std::alloc::{AllocError, Global};

/// A source in memory. It gives at most `piece` bytes a call, which is at least one, and fails at
/// the calls whose numbers, from 1 on, are listed.
#[derive(Drop)]
pub struct MemSource {
    bytes: Vec<u8>,
    at: usize,
    script: Script,
    ghost in_bytes: { at ≤ vec_len bytes },
}

impl MemSource {
    ghost use Rattle.tsume_io.specs.Memory.{IsFresh, source_script, bytes_left};

    /// A source of these bytes.
    pub fn make(bytes: Vec<u8>, piece: usize, failing: Vec<u64>) -> MemSource
        requires { 1 ≤ piece }
        ensures left { bytes_left result ≡ bytes.items }
        ensures script { IsFresh (source_script result) piece failing.items }
    {
        MemSource {
            bytes,
            at: 0,
            script: Script::new(piece, failing),
        }
    }

    /// The bytes that it still has to give.
    pub fn left(&self) -> &[u8]
        ensures { result.now ≡ bytes_left self.now }
    {
        &self.bytes[self.at..]
    }

    /// How many calls were made, up to 2^64 - 1.
    pub fn calls(&self) -> u64
        ensures { result ≡ (source_script self.now).calls }
    {
        self.script.calls
    }

    /// How many of them failed, up to 2^64 - 1.
    pub fn faults(&self) -> u64
        ensures { result ≡ (source_script self.now).faults }
    {
        self.script.faults
    }
}

impl Source for MemSource {
    ghost use Rattle.tsume_io.specs.Memory.{Passes, Fails, IsFailingNext, source_script, bytes_left, bytes_given};

    ghost left = { λ s. Some (bytes_left s) };

    ghost faults = { λ s. (source_script s).faults };

    ghost of_64_bits = { λ s. s.script.of_64_bits };

    fn read(&mut self, into: &mut [u8]) -> Result<usize, Failed>
        // As each source.
        ensures within { IfOk result (λ n. n ≤ length into.new) }
        ensures took { IfOk result
            (λ n. bytes_left self.old ≡ take n into.new ++ bytes_left self.new) }
        ensures end { IfOk result (λ n. n ≡ 0 → 0 < length into.new → bytes_left self.new ≡ []) }
        ensures failed { OnErr result
            (Rose (source_script self.old).faults (source_script self.new).faults) }
        ensures unchanged { OnErr result (bytes_left self.new ≡ bytes_left self.old) }
        ensures never_falls { (source_script self.old).faults ≤ (source_script self.new).faults }

        // As this one alone.
        ensures fails { IsErr result ↔ IsFailingNext (source_script self.old) }
        ensures given { IfOk result (λ n. n ≡ bytes_given self.old (length into.old)) }
        ensures ok { OnOk result (Passes (source_script self.old) (source_script self.new)) }
        ensures err { OnErr result (Fails (source_script self.old) (source_script self.new)) }
    {
        self.script.call(false)?;
        let most = self.script.piece.min(into.len());
        let count = copy_front(self.left(), &mut into[..most]);
        self.at += count;
        Ok(count)
    }
}

/// A sink in memory. It takes at most `piece` bytes a call, which is at least one, fails at the
/// calls whose numbers, from 1 on, are listed, and fails where a call would pass its room.
#[derive(Drop)]
pub struct MemSink {
    kept: Vec<u8>,
    room: usize,
    script: Script,
    ghost in_room: { vec_len kept ≤ room },
    ghost has_room: { room ≤ vec_capacity kept },
}

impl MemSink {
    ghost use Rattle.tsume_io.specs.Memory.{IsFresh, sink_script, bytes_kept, room_of};

    /// A sink with room for so many bytes, which it takes at once.
    pub fn make(
        alloc: Global,
        room: usize,
        piece: usize,
        failing: Vec<u64>,
    ) -> Result<MemSink, AllocError>
        requires { 1 ≤ piece }
        ensures kept { IfOk result (λ sink. bytes_kept sink ≡ []) }
        ensures room { IfOk result (λ sink. room_of sink ≡ room) }
        ensures script { IfOk result (λ sink. IsFresh (sink_script sink) piece failing.items) }
    {
        Ok(MemSink {
            kept: Vec::with_capacity(alloc, room)?,
            room,
            script: Script::new(piece, failing),
        })
    }

    /// The bytes that it has kept.
    pub fn kept(&self) -> &[u8]
        ensures { result.now ≡ bytes_kept self.now }
    {
        &self.kept
    }

    /// How many calls were made, up to 2^64 - 1.
    pub fn calls(&self) -> u64
        ensures { result ≡ (sink_script self.now).calls }
    {
        self.script.calls
    }

    /// How many of them failed, up to 2^64 - 1.
    pub fn faults(&self) -> u64
        ensures { result ≡ (sink_script self.now).faults }
    {
        self.script.faults
    }
}

impl Sink for MemSink {
    ghost use Rattle.tsume_io.specs.Memory.{Passes, Fails, IsFailingNext, sink_script};
    ghost use Rattle.tsume_io.specs.Memory.{bytes_kept, bytes_taken, room_of, IsFull};
    ghost use Rattle.tsume_io.specs.Sink.{IsWriteOf};

    ghost kept = { λ s. Some (bytes_kept s) };

    ghost faults = { λ s. (sink_script s).faults };

    ghost of_64_bits = { λ s. s.script.of_64_bits };

    fn write(&mut self, piece: &[u8]) -> Result<usize, Failed>
        // As each sink.
        ensures count { IfOk result (λ n. IsWriteOf n piece.now) }
        ensures grew { IfOk result
            (λ n. bytes_kept self.new ≡ bytes_kept self.old ++ take n piece.now) }
        ensures failed { OnErr result
            (Rose (sink_script self.old).faults (sink_script self.new).faults) }
        ensures unchanged { OnErr result (bytes_kept self.new ≡ bytes_kept self.old) }
        ensures never_falls { (sink_script self.old).faults ≤ (sink_script self.new).faults }

        // As this one alone.
        ensures fails { IsErr result
            ↔ (IsFailingNext (sink_script self.old) ⊎ IsFull self.old (length piece.now)) }
        ensures taken { IfOk result (λ n. n ≡ bytes_taken self.old (length piece.now)) }
        ensures room { room_of self.new ≡ room_of self.old }
        ensures ok { OnOk result (Passes (sink_script self.old) (sink_script self.new)) }
        ensures err { OnErr result (Fails (sink_script self.old) (sink_script self.new)) }
    {
        let count = self.script.piece.min(piece.len());
        self.script.call(self.room - self.kept.len() < count)?;
        // The room was taken at the start.
        self.kept.extend_from_slice(&piece[..count]).unwrap();
        Ok(count)
    }
}
