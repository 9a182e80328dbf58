// Where bytes come from, and a read of all of them.
ghost use Rattle.std.specs.Prelude.{◌≡◌, ℕ, ◌-◌, ◌^◌, ◌<◌, ◌≤◌, List, Option, length, take, IfOk, OnOk, OnErr, IsErrOf, vec_len};
ghost use Rattle.tsume_io.specs.Faults.{Rose};
ghost use Rattle.tsume_io.specs.Source.{Took, TookAll, TookAtMost, TookOneMoreThan, HasMoreThan, IsAtEnd};
ghost use Rattle.tsume_io.specs.declared.source.ReadEnd.TheVariants.{Fault as FaultEnd, NoMemory as NoMemoryEnd};

use crate::Failed;
use std::alloc::{AllocError, Global};

/// Where bytes come from: a file, the standard input, or memory.
pub trait Source {
    /// The bytes that reads give from here on, or `None` where the source doesn't tell them.
    ghost left: { Self → Option (List ℕ) };

    /// How often a read has failed, up to 2^64 - 1.
    ghost faults: { Self → ℕ };

    /// Moves bytes to the front of `into` and answers how many: 0 only at the end, or where `into`
    /// is empty. What stands in `into` behind them isn't said. `Failed` comes only where the count
    /// of faults rose in this call, and then no byte was moved. The count never falls, and rises
    /// only so.
    fn read(&mut self, into: &mut [u8]) -> Result<usize, Failed>
        ensures within { IfOk result (λ n. n ≤ length into.new) }
        ensures took { IfOk result (λ n. Took (left self.old) (left self.new) (take n into.new)) }
        ensures end { IfOk result (λ n. n ≡ 0 → 0 < length into.new → IsAtEnd (left self.new)) }
        ensures failed { OnErr result (Rose (faults self.old) (faults self.new)) }
        ensures counted { OnOk result (faults self.new ≡ faults self.old) }
        ensures unchanged { OnErr result (left self.new ≡ left self.old) }
        ensures never_falls { faults self.old ≤ faults self.new };

    // The count is of 64 bits.
    ghost of_64_bits: { (s : Self) → faults s ≤ 2 ^ 64 - 1 };
}

/// Why a read of all bytes gave up.
#[derive(Clone, Copy, Debug, PartialEq, Eq)]
pub enum ReadEnd {
    /// The source failed, after at most `limit` bytes.
    Fault,
    /// More than `limit` bytes came before an end or a fault.
    TooLong,
    /// There was no memory for the bytes.
    NoMemory,
}

impl From<Failed> for ReadEnd {
    ghost from_gives = { λ _ e. e ≡ FaultEnd };

    fn from(_: Failed) -> Self {
        ReadEnd::Fault
    }
}

impl From<AllocError> for ReadEnd {
    ghost from_gives = { λ _ e. e ≡ NoMemoryEnd };

    fn from(_: AllocError) -> Self {
        ReadEnd::NoMemory
    }
}

// How many bytes one read asks for, at most.
const PIECE: usize = 65_536;

/// Reads the bytes of a source to their end, at most `limit` of them. Every turn takes a byte or
/// ends, and a source that never ends is left after `limit` + 1 bytes. It asks for 64 KiB at most
/// at a time, and takes memory for the bytes that came, which grows by doubling. After a refusal,
/// what was taken from the source is lost.
pub fn read_all<S: Source>(alloc: Global, source: &mut S, limit: usize) -> Result<Vec<u8>, ReadEnd>
    ensures whole { IfOk result
        (λ bytes. TookAll (S.left source.old) (S.left source.new) bytes.items) }
    ensures within { IfOk result (λ bytes. length bytes.items ≤ limit) }

    // A fault is answered only where one was counted in this call, and none is counted otherwise.
    ensures fault { IsErrOf result ReadEnd.Fault
        → Rose (S.faults source.old) (S.faults source.new) }
    ensures counted { OnOk result (S.faults source.new ≡ S.faults source.old) }
    ensures too_long_counted { IsErrOf result ReadEnd.TooLong → S.faults source.new
        ≡ S.faults source.old }
    ensures no_memory_counted { IsErrOf result ReadEnd.NoMemory → S.faults source.new
        ≡ S.faults source.old }
    ensures fault_within { IsErrOf result ReadEnd.Fault
        → TookAtMost limit (S.left source.old) (S.left source.new) }
    ensures never_falls { S.faults source.old ≤ S.faults source.new }

    ensures too_long { IsErrOf result ReadEnd.TooLong → HasMoreThan limit (S.left source.old) }
    ensures too_long_taken { IsErrOf result ReadEnd.TooLong
        → TookOneMoreThan limit (S.left source.old) (S.left source.new) }
    ensures no_memory_within { IsErrOf result ReadEnd.NoMemory
        → TookAtMost limit (S.left source.old) (S.left source.new) }
{
    let mut bytes = Vec::new(alloc);
    let mut space = [0; PIECE];
    let piece = &mut space[..];
    loop {
        // One byte more than the limit leaves room for, so that one byte too many is seen.
        let most = (limit - bytes.len()).min(PIECE - 1) + 1;
        let count = source.read(&mut piece[..most])?;
        if count == 0 {
            return Ok(bytes);
        }
        if limit - bytes.len() < count {
            return Err(ReadEnd::TooLong);
        }
        bytes.extend_from_slice(&piece[..count])?;
    }
}
