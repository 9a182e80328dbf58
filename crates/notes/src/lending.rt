// Which notes may be lent to the positions of other keys.
ghost use Rattle.std.specs.Prelude.{◌≡◌, ◌↔◌, IsTrue};
ghost use Rattle.notes.specs.Lending.{CarriesByKey, LendingIsCarrying, MayBeLent};

use crate::{Conclusion, Note};
use board_core::{Key, Side};
use hand_dominance::key_dominates;

// Whether what is concluded of the position of the one key holds of that of the other.
fn carries(conclusion: Conclusion, attacker: Side, from: &Key, to: &Key) -> bool
    ensures { IsTrue result ↔ CarriesByKey conclusion attacker from.now to.now }
{
    match conclusion {
        Conclusion::Mate => key_dominates(attacker, to, from),
        Conclusion::Escape => key_dominates(attacker, from, to),
    }
}

/// Whether the note, which is about the position of the one key, may be carried to that of the
/// other, for the attacker: it is his, depends on no repetition, and is a mate of a position that
/// the other dominates, or an escape of one that dominates it. Takes no memory.
pub fn may_be_lent(note: &Note, attacker: Side, from: &Key, to: &Key) -> bool
    ensures { IsTrue result ↔ MayBeLent attacker from.now to.now note.now }
{
    if note.attacker() != attacker {
        return false;
    }
    note.is_closed() && carries(note.conclusion(), attacker, from, to)
}

/// A law: a note may be lent to a position's key exactly where it may be carried to the position.
/// Does nothing; whoever knows of a position by its key calls it. Takes no memory.
pub fn lending_laws()
    ensures { LendingIsCarrying }
{}
