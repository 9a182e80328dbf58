// Where bytes go, and a write of all of them.
ghost use Rattle.std.specs.Prelude.{◌≡◌, ℕ, ◌-◌, ◌^◌, ◌≤◌, List, Option, length, take, IfOk, OnOk, OnErr};
ghost use Rattle.tsume_io.specs.Faults.{Rose};
ghost use Rattle.tsume_io.specs.Sink.{GrewBy, GrewByPrefix, IsWriteOf};

use crate::Failed;

/// Where bytes go: a file, the standard output, or memory.
pub trait Sink {
    /// The bytes that the sink has kept, or `None` where it doesn't tell them.
    ghost kept: { Self → Option (List ℕ) };

    /// How often a write has failed, up to 2^64 - 1.
    ghost faults: { Self → ℕ };

    /// Keeps the first bytes of `piece` and answers how many: at least one, unless `piece` is
    /// empty. `Failed` comes only where the count of faults rose in this call, and then no byte was
    /// kept. The count never falls, and rises only so.
    fn write(&mut self, piece: &[u8]) -> Result<usize, Failed>
        ensures count { IfOk result (λ n. IsWriteOf n piece.now) }
        ensures grew { IfOk result (λ n. GrewBy (kept self.old) (kept self.new) (take n piece.now)) }
        ensures failed { OnErr result (Rose (faults self.old) (faults self.new)) }
        ensures counted { OnOk result (faults self.new ≡ faults self.old) }
        ensures unchanged { OnErr result (kept self.new ≡ kept self.old) }
        ensures never_falls { faults self.old ≤ faults self.new };

    // The count is of 64 bits.
    ghost of_64_bits: { (s : Self) → faults s ≤ 2 ^ 64 - 1 };
}

/// The sink failed before all bytes were kept.
#[derive(Clone, Copy, Debug, PartialEq, Eq)]
pub struct WriteFault;

impl From<Failed> for WriteFault {
    fn from(_: Failed) -> Self {
        WriteFault
    }
}

/// Writes all of the bytes, in as many calls as the sink needs. After a fault the sink has kept the
/// first of them, and not all. Takes no memory. Every turn writes a byte or ends.
pub fn write_all<K: Sink>(sink: &mut K, bytes: &[u8]) -> Result<(), WriteFault>
    ensures whole { OnOk result (GrewBy (K.kept sink.old) (K.kept sink.new) bytes.now) }

    // A fault is answered only where one was counted in this call, and none is counted otherwise.
    ensures fault { OnErr result (Rose (K.faults sink.old) (K.faults sink.new)) }
    ensures counted { OnOk result (K.faults sink.new ≡ K.faults sink.old) }
    ensures prefix { OnErr result (GrewByPrefix (K.kept sink.old) (K.kept sink.new) bytes.now) }
    ensures never_falls { K.faults sink.old ≤ K.faults sink.new }
{
    let mut done = 0;
    while done < bytes.len() {
        done += sink.write(&bytes[done..])?;
    }
    Ok(())
}
