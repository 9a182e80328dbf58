// Squares and their numbers.
ghost use Rattle.std.specs.Prelude.{◌≡◌, ◌<◌, ◌≤◌, IfSome, IsSome, ◌↔◌};

use crate::Side;

/// A square of the board by its number, `9 * (file - 1) + (row - 1)`: 0 is 1a, 8 is 1i, 9 is 2a, 80
/// is 9i. Files run from 1 to 9 from right to left as Black sees the board, rows from 1 (a) to 9
/// (i) from top to bottom.
#[derive(Clone, Copy, PartialEq, Eq, PartialOrd, Ord, Hash, Debug)]
pub struct Square {
    /// From 0 to 80.
    pub number: u8,
    pub ghost on_board: { number < 81 },
}

impl Square {
    ghost use Rattle.bit_boards.specs.Square.{file_of, row_of, square_on, height};

    /// The square on a file and a row, each from 1 to 9.
    pub fn on(file: u8, row: u8) -> Square
        requires file_from { 1 ≤ file }
        requires file_to { file ≤ 9 }
        requires row_from { 1 ≤ row }
        requires row_to { row ≤ 9 }
        ensures number { result.number ≡ square_on file row }
        ensures file { file_of result.number ≡ file }
        ensures row { row_of result.number ≡ row }
    {
        Square {
            number: 9 * (file - 1) + (row - 1),
        }
    }

    /// The square of a number; none from 81 on.
    pub fn numbered(number: u8) -> Option<Square>
        ensures found { IsSome result ↔ (number < 81) }
        ensures number { IfSome result (λ square. square.number ≡ number) }
    {
        if number < 81 {
            Some(Square { number })
        } else {
            None
        }
    }

    /// Its file, from 1 to 9.
    pub fn file(self) -> u8
        ensures file { result ≡ file_of self.number }
        ensures from { 1 ≤ result }
        ensures to { result ≤ 9 }
    {
        self.number / 9 + 1
    }

    /// Its row, from 1 (a) to 9 (i).
    pub fn row(self) -> u8
        ensures row { result ≡ row_of self.number }
        ensures from { 1 ≤ result }
        ensures to { result ≤ 9 }
    {
        self.number % 9 + 1
    }

    /// How high it lies for a side, from 0 on that side's own first row (row i for Black, row a for
    /// White) to 8 on its last: forward is up, for both sides.
    pub fn height(self, side: Side) -> u8
        ensures height { result ≡ height side self.number }
        ensures to { result ≤ 8 }
    {
        match side {
            Side::Black => 8 - self.number % 9,
            Side::White => self.number % 9,
        }
    }
}
