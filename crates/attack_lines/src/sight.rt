// What is seen from a square.
use bit_boards::Mask;
use board_core::Square;

/// What is seen from a square along its lines, each up to and with the first piece: the squares to
/// which a rook and a bishop there would slide, and from which they would slide to it. Takes 48
/// bytes.
#[derive(Clone, Copy)]
pub struct Sight {
    pub(crate) square: Square,
    pub(crate) straight: Mask,
    pub(crate) diagonal: Mask,
}
