// A piece that is drawn, and where it is to stand.
use board_core::{Kind, Side};

/// A piece that is drawn for a square, which may not be on the board.
#[derive(Clone, Copy, Debug)]
pub struct Drawn {
    /// What it is.
    pub kind: Kind,
    /// Whose it is.
    pub side: Side,
    /// Two more than its file, from 1 to 13: it is on the board from 3 to 11.
    pub file_and_two: u8,
    /// Its row, from 1 to 9.
    pub row: u8,
}
