// Who tells how many workers are below the slots of a row.
ghost use Rattle.std.specs.Prelude.{◌≡◌};
ghost use Rattle.table_shard.specs.Row.{TellsCounts};

/// TellsCounts how many workers are below a slot of a row, each time that it is asked. What it
/// tells may be another number each time: others count, too.
pub trait Pins {
    ghost use Rattle.std.specs.Prelude.{◌<◌, ℕ};

    /// It may be asked.
    ghost ready: { Self → Type 0 };

    /// From one state to the next, by a slot that it is asked for and the count that it tells.
    ghost told: { Self → ℕ → ℕ → Self → Type 0 };

    /// How many workers are below the slot, from 0 to 7.
    fn count(&mut self, slot: usize) -> u64
        requires slot { slot < 8 }
        requires ready { ready self.old }
        ensures ready { ready self.new }
        ensures told { told self.old slot result self.new };
}

/// The counts of a row as they stand, which nobody else changes.
#[derive(Clone, Copy, Debug)]
pub struct RowPins<'a> {
    /// A count for each slot.
    pub counts: &'a [u32; 8],
}

impl<'a> Pins for RowPins<'a> {
    ghost use Rattle.table_shard.specs.Pins.{TellsCount};

    ghost ready = { λ pins. Unit {0} };

    ghost told = { λ before slot count after. TellsCount before.counts.now slot count × (before ≡ after) };

    fn count(&mut self, slot: usize) -> u64 {
        u64::from(self.counts[slot])
    }
}

// The counts of all eight slots, for which it asks in their order.
pub(crate) fn counts_of<P: Pins>(pins: &mut P) -> [u64; 8]
    requires { P.ready pins.old }
    ensures ready { P.ready pins.new }
    ensures told { TellsCounts P.told 0 pins.old result pins.new }
{
    [
        pins.count(0),
        pins.count(1),
        pins.count(2),
        pins.count(3),
        pins.count(4),
        pins.count(5),
        pins.count(6),
        pins.count(7),
    ]
}
