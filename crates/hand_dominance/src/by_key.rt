// Dominance as keys tell it.
ghost use Rattle.std.specs.Prelude.{◌≡◌, ◌≤◌, ◌↔◌, IsTrue};
ghost use Rattle.hand_dominance.specs.ByKey.{HasAtLeast, KeyDominates, KeysTellDominance, count_in, hand_in, without_hands};

use board_core::{Key, Kind, Side};

// How many of a kind a hand has, by its 21 bits in a key.
fn count_in(kind: Kind, bits: u64) -> u64
    ensures { result ≡ count_in kind bits }
{
    match kind {
        Kind::Pawn => bits % 32,
        Kind::Lance => bits / 32 % 8,
        Kind::Knight => bits / 256 % 8,
        Kind::Silver => bits / 2048 % 8,
        Kind::Gold => bits / 16384 % 8,
        Kind::Bishop => bits / 131072 % 4,
        Kind::Rook => bits / 524288 % 4,
        Kind::King => 0,
    }
}

// Whether a hand has at least as many of a kind as another.
fn has_as_many(kind: Kind, one: u64, two: u64) -> bool
    ensures { IsTrue result ↔ (count_in kind two ≤ count_in kind one) }
{
    count_in(kind, one) >= count_in(kind, two)
}

// Whether a hand has, kind by kind, at least as many as another.
fn is_at_least(one: u64, two: u64) -> bool
    ensures { IsTrue result ↔ HasAtLeast one two }
{
    if !has_as_many(Kind::Pawn, one, two) {
        return false;
    }
    if !has_as_many(Kind::Lance, one, two) {
        return false;
    }
    if !has_as_many(Kind::Knight, one, two) {
        return false;
    }
    if !has_as_many(Kind::Silver, one, two) {
        return false;
    }
    if !has_as_many(Kind::Gold, one, two) {
        return false;
    }
    if !has_as_many(Kind::Bishop, one, two) {
        return false;
    }
    has_as_many(Kind::Rook, one, two)
}

// The bits of a side's hand in a key.
fn hand_in(side: Side, key: &Key) -> u64
    ensures { result ≡ hand_in side key.now }
{
    match side {
        Side::Black => key.0[7] % 2_097_152,
        Side::White => key.0[7] / 2_097_152 % 2_097_152,
    }
}

/// A key without the hands: its words, with the bits of both hands zero. Positions have the same
/// exactly where they have the same board and side to move. Takes no memory.
pub fn board_of(key: &Key) -> Key
    ensures { result ≡ without_hands key.now }
{
    let mut board = *key;
    board.0[7] -= board.0[7] % 4_398_046_511_104;
    board
}

/// Whether the position of the one key dominates that of the other, for this attacker, as far as
/// their words tell: the same board and side to move, and, kind by kind, at least as many in the
/// attacker's hand, at most as many in the defender's. Takes no memory.
pub fn key_dominates(attacker: Side, over: &Key, under: &Key) -> bool
    ensures { IsTrue result ↔ KeyDominates attacker over.now under.now }
{
    let defender = attacker.other();
    board_of(over) == board_of(under)
        && is_at_least(hand_in(attacker, over), hand_in(attacker, under))
        && is_at_least(hand_in(defender, under), hand_in(defender, over))
}

/// A law: the words of two positions' keys tell which dominates which. Does nothing; whoever has
/// keys alone calls it. Takes no memory.
pub fn key_laws()
    ensures { KeysTellDominance }
{}
