// Why a position line makes no problem.
use sfen_text::TextFault;

/// Why an SFEN spells no problem.
#[derive(Clone, Copy)]
pub enum SfenFault {
    /// It spells no position, or none with a king of the side that isn't to move.
    BadSfen(TextFault),
    /// The side that isn't to move is in check.
    DefenderInCheck,
}

/// Why moves lead to no problem.
#[derive(Clone, Copy)]
pub enum MovesFault<'a> {
    /// The move of this number, from 1, whose field this is, isn't legal.
    IllegalMove(u64, &'a [u8]),
    /// The side that isn't to move after them has no king.
    NoDefenderKing,
}
