// The rule of the words, and the kinds of step under it.
ghost use Rattle.std.specs.Prelude.{◌≡◌, ◌≤◌};
ghost use Rattle.worker_counts.specs.Counts.{IsKept, times, whole, newcomer, spent, after_load, after_add, after_subtract, after_join, with_part_less};

use crate::view::View;
use atomic_table::{Join, Play, Split, TableRule};

/// Each word is how often it stands among what the seats have added.
pub(crate) struct SumsOfViews;

impl TableRule<u8, View, u64> for SumsOfViews {
    ghost holds = { λ size s. IsKept size s.words s.views };

    ghost first = { λ _. whole };
}

/// A load: the seat learns the count, which is at least its own.
pub(crate) struct LoadStep;

impl Play<u8, View> for LoadStep {
    ghost then = { λ step me count later. (later ≡ (after_load me.0 step.word count, me.1)) × (times step.word me.0.added ≤ count) };
}

/// An add: the word stands among what the seat has added once more.
pub(crate) struct AddStep;

impl Play<u8, View> for AddStep {
    ghost then = { λ step me count later. (later ≡ (after_add me.0 step.word count, me.1)) × (times step.word me.0.added ≤ count) };
}

/// A subtract: the word stands among what the seat has added once less.
pub(crate) struct SubtractStep;

impl Play<u8, View> for SubtractStep {
    ghost then = { λ step me count later. (later ≡ (after_subtract me.0 step.word count, me.1)) × (times step.word me.0.added ≤ count) };
}

/// Seats are made and joined by parts.
pub(crate) struct Parts;

impl Split<View> for Parts {
    ghost left = { with_part_less };

    ghost right = { λ _. newcomer };
}

impl Join<View> for Parts {
    ghost both = { after_join };

    ghost spent = { spent };
}
