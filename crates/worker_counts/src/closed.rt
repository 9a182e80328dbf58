// The counts that no thread shares any more.
ghost use Rattle.std.specs.Prelude.{◌≡◌, ◌<◌, Some, length, slice_get};

use atomic_table::Closed;
use std::alloc::Global;
use std::marker::Model;

/// Counts that no thread shares any more, and that stay as they are. Contracts see the list of
/// them.
pub struct ClosedCounts {
    pub(crate) closed: Closed<u8, Global>,
}

impl Model for ClosedCounts {
    ghost use Rattle.std.specs.Prelude.{◌≡◌, ℕ, List, length};
    ghost use Rattle.core.specs.Mem.Slots.{slots_items, slots_len, IsFull};

    ghost Value = { List ℕ };

    ghost view = { λ c. slots_items c.closed.words };

    ghost invariant = { λ c.
        IsFull c.closed.words
        × (length (slots_items c.closed.words) ≡ slots_len c.closed.words)
        × (slots_len c.closed.slots ≡ 0) };
}

impl ClosedCounts {
    /// The count of a word below the number of words. Takes no memory.
    pub fn count(&self, word: usize) -> u64
        requires { word < length self.now }
        ensures { slice_get self.now word ≡ Some result }
    {
        self.closed.word(word)
    }
}

impl Drop for ClosedCounts {
    fn drop(self) {
        let ClosedCounts { closed } = self;
        closed.free();
    }
}
