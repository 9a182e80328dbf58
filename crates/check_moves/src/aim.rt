// What is aimed at the defender's king.
use attack_lines::Sight;
use bit_boards::Mask;
use legal_moves::Guard;

/// What gives check at a position, made once for it: what the defender's king sees, the squares on
/// which a piece alone keeps an attacker's piece from attacking him, and what the attacker's own
/// king needs.
#[derive(Clone, Copy)]
pub(crate) struct Aim {
    // From the square of the defender's king.
    pub sight: Sight,
    // The squares on which a piece, of either side, alone keeps an attacker's piece from attacking
    // the defender's king.
    pub unveilers: Mask,
    // Of the attacker, who is to move.
    pub guard: Guard,
}
