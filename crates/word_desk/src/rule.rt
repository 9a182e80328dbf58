// The rule of the two words, and the kinds of step under it.
ghost use Rattle.std.specs.Prelude.{◌≡◌, ◌≤◌, IsTrue};
ghost use Rattle.word_desk.specs.declared.view.TheConstants.{POSTED};
ghost use Rattle.word_desk.specs.Rule.{IsKept, AreFew, whole, newcomer, spent, after_draw, after_claim, after_post, after_join, with_part_less};

use crate::view::View;
use atomic_table::{Join, Play, Split, TableRule};

/// The tickets and the claims are the numbers that the seats have, each once.
pub(crate) struct NumbersOnce;

impl TableRule<u8, View, ()> for NumbersOnce {
    ghost holds = { λ _ s. IsKept s.words s.views };

    ghost first = { λ _. whole };
}

/// A draw: the seat gets the number after the tickets, and has no more numbers up to a limit than
/// the limit. Where it has met a posted note, the word says so.
pub(crate) struct DrawStep;

impl Play<u8, View> for DrawStep {
    ghost then = { λ step me found later.
        (later ≡ (after_draw me.0 found, me.1))
        × AreFew later.0.drawn
        × (IsTrue me.0.met → POSTED ≤ found) };
}

/// A claim: the seat gets the number after the claims, and has no more numbers up to a limit than
/// the limit.
pub(crate) struct ClaimStep;

impl Play<u8, View> for ClaimStep {
    ghost then = { λ step me found later. (later ≡ (after_claim me.0 found, me.1)) × AreFew later.0.claimed };
}

/// A post: the seat has met a posted note, and has won where none was posted before. Where it had
/// met one, the word said so.
pub(crate) struct PostStep;

impl Play<u8, View> for PostStep {
    ghost then = { λ step me found later. (later ≡ (after_post me.0 found, me.1)) × (IsTrue me.0.met → POSTED ≤ found) };
}

/// A look at a word, by which a seat learns that its numbers are few.
pub(crate) struct LookStep;

impl Play<u8, View> for LookStep {
    ghost then = { λ step me found later. (later ≡ me) × AreFew later.0.drawn × AreFew later.0.claimed };
}

/// Seats are made and joined by parts.
pub(crate) struct Parts;

impl Split<View> for Parts {
    ghost left = { with_part_less };

    ghost right = { λ _. newcomer };
}

impl Join<View> for Parts {
    ghost both = { after_join };

    ghost spent = { spent };
}
