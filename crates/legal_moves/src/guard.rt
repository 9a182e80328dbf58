// What the king of the side to move needs.
use bit_boards::Mask;
use board_core::Square;

/// What the king of the side to move needs to be safe: where he stands, where his attackers are
/// stopped, and which squares shield him, with a piece of either side on them. It is made once for
/// a position and asked for each piece. Takes 48 bytes.
#[derive(Clone, Copy)]
pub struct Guard {
    // Where the king stands; none where the side has no king.
    pub(crate) king: Option<Square>,
    // The squares on which another piece stops all that attack him: all where nothing does.
    pub(crate) blocks: Mask,
    // The squares on which a piece, of either side, alone keeps an enemy piece from attacking him.
    pub(crate) shields: Mask,
}
