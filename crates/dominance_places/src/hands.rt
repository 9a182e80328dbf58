// Comparing hands.
ghost use Rattle.std.specs.Prelude.{◌≡◌, ◌≤◌, ◌↔◌, IsTrue};
ghost use Rattle.hand_dominance.specs.Dominance.{Dominates};
ghost use Rattle.dominance_places.specs.Hands.{IsAtLeast};

use board_core::{Hand, Position, Side};

// Whether a hand has, kind by kind, at least as many as another.
fn is_at_least(hand: Hand, other: Hand) -> bool
    ensures { IsTrue result ↔ IsAtLeast hand other }
{
    let one = hand.counts();
    let two = other.counts();
    for place in 0..7usize {
        if one[place] < two[place] {
            return false;
        }
    }
    true
}

/// Whether, of two positions with the same cells and side to move, the one dominates the other for
/// this attacker: kind by kind he has at least as many in hand there, and the defender at most as
/// many. Takes no memory.
pub fn has_better_hands(attacker: Side, over: &Position, under: &Position) -> bool
    requires cells { over.now.cells ≡ under.now.cells }
    requires turn { over.now.side ≡ under.now.side }
    ensures { IsTrue result ↔ Dominates attacker over.now under.now }
{
    over.laws();
    under.laws();
    let defender = attacker.other();
    is_at_least(over.hand(attacker), under.hand(attacker))
        && is_at_least(under.hand(defender), over.hand(defender))
}
