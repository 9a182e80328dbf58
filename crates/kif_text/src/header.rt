// The lines of a header.
ghost use Rattle.std.specs.Prelude.{◌≡◌, ◌≤◌, ◌<◌, ◌+◌, List, [], ℕ, length};
ghost use Rattle.std.specs.Str.{chars};
ghost use Rattle.kif_text.specs.Lines.{header_lines};
ghost use Rattle.kif_text.specs.Steps.{IsReadFrom, IsRowPut, IsRowTaken, IsLineRead, AreLinesRead};

use crate::KifFault;
use crate::hand::hand_of;
use crate::lines::{Line, begins, line_of};
use crate::row::cells_of;
use board_core::{Hand, Piece, Side};

// What was read so far: how many rows, their cells by the number of the square, the hands and the
// side to move.
#[derive(Clone, Copy)]
pub struct Diagram {
    pub rows: u8,
    pub cells: [Option<Piece>; 81],
    pub black: Hand,
    pub white: Hand,
    pub side: Side,
}

impl Diagram {
    fn empty() -> Diagram
        ensures { IsReadFrom [] result }
    {
        Diagram {
            rows: 0,
            cells: [None; 81],
            black: Hand::empty(),
            white: Hand::empty(),
            side: Side::Black,
        }
    }

    // Puts the cells of the next row, from file 9 to file 1.
    fn put_row(&mut self, row: &[Option<Piece>; 9])
        requires { self.old.rows < 9 }
        ensures { IsRowPut self.old row.now self.new }
    {
        for place in 0..9usize {
            self.cells[9 * (8 - place) + self.rows as usize] = row[place];
        }
        self.rows += 1;
    }

    fn take_row(&mut self, row: &str) -> Result<(), KifFault>
        requires { self.old.rows ≤ 9 }
        ensures { IsRowTaken self.old (chars row.now) self.new result }
    {
        if self.rows == 9 {
            return Err(KifFault::BadCell(10, 1));
        }
        let cells = cells_of(row, self.rows)?;
        self.put_row(&cells);
        Ok(())
    }

    // Reads one more line, of this number.
    fn take_line(&mut self, line: &str, number: usize) -> Result<(), KifFault>
        requires { self.old.rows ≤ 9 }
        ensures { (list : List (List ℕ)) → IsReadFrom list self.old → number ≡ length list + 1
            → IsLineRead list line.now self.new result }
    {
        match line_of(line) {
            Line::Other => {}
            Line::Handicap => return Err(KifFault::HandicapName(number)),
            Line::InHand(Side::Black, text) => self.black = hand_of(text, number)?,
            Line::InHand(Side::White, text) => self.white = hand_of(text, number)?,
            Line::Row(row) => self.take_row(row)?,
            Line::Turn(side) => self.side = side,
        }
        Ok(())
    }
}

// What the lines of a header say.
pub fn diagram_of(text: &str) -> Result<Diagram, KifFault>
    ensures { AreLinesRead (header_lines text.now) result }
{
    let mut diagram = Diagram::empty();
    let mut number = 0;
    for line in text.lines() {
        if begins(line, "手数----") {
            return Ok(diagram);
        }
        number += 1;
        diagram.take_line(line, number)?;
    }
    Ok(diagram)
}

/// The number of lines before the first that begins with `手数----`; of all lines, where none does.
/// Takes no memory.
pub fn header_length(text: &str) -> usize
    ensures lines { result ≡ length (header_lines text.now) }
    ensures few { result ≤ length text.now + 1 }
{
    let mut number = 0;
    for line in text.lines() {
        if begins(line, "手数----") {
            return number;
        }
        number += 1;
    }
    number
}
