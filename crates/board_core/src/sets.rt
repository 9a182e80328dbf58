// Where the pieces of a board stand, as sets of squares.
use bit_boards::Mask;

/// Sets of squares that a position keeps: those on which Black's pieces stand, White's, kings,
/// unpromoted pawns, and pieces that slide.
#[derive(Clone, Copy, PartialEq, Eq, Debug)]
pub(crate) struct Sets {
    pub black: Mask,
    pub white: Mask,
    pub kings: Mask,
    pub pawns: Mask,
    pub sliders: Mask,
}
