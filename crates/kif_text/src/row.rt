// A row of the diagram.
ghost use Rattle.std.specs.Prelude.{◌≡◌, ◌<◌, IfSome, slice_index};
ghost use Rattle.std.specs.Str.{chars, IsUtf8};
ghost use Rattle.kif_text.specs.Characters.{is};
ghost use Rattle.kif_text.specs.Steps.{IsRowRead, IsCellSplit};

use crate::KifFault;
use crate::characters::{cell_of, split_first};
use board_core::Piece;

// The first cell of a text, and what stands behind it.
fn split_cell(text: &str) -> Option<(Option<Piece>, &str)>
    ensures split { IsCellSplit (chars text.now) result }
    ensures text { IfSome result (λ x. IsUtf8 x.1.now) }
{
    let (mark, rest) = split_first(text)?;
    let (shown, rest) = split_first(rest)?;
    Some((cell_of(mark, shown)?, rest))
}

// Whether a bar stands next.
fn is_closed(text: &str) -> bool
    ensures { result ≡ is (slice_index (chars text.now) 0) "|" }
{
    match split_first(text) {
        Some((character, _)) => character == '|',
        None => false,
    }
}

// The nine cells of a row behind so many rows, from file 9 to file 1.
pub fn cells_of(row: &str, before: u8) -> Result<[Option<Piece>; 9], KifFault>
    requires { before < 9 }
    ensures { IsRowRead before (chars row.now) result }
{
    let mut cells = [None; 9];
    let mut rest = row;
    for place in 0..9u8 {
        let Some((cell, behind)) = split_cell(rest) else {
            return Err(KifFault::BadCell(before + 1, place + 1));
        };
        cells[place as usize] = cell;
        rest = behind;
    }
    if is_closed(rest) {
        Ok(cells)
    } else {
        Err(KifFault::BadCell(before + 1, 10))
    }
}
