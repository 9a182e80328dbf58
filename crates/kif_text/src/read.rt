// Texts as positions.
ghost use Rattle.std.specs.Prelude.{◌≡◌, List, ℕ, Result, Ok, IfOk};
ghost use Rattle.board_core.specs.Board.{Board, HasDefender};
ghost use Rattle.board_core.specs.Kept.{IsKept};
ghost use Rattle.kif_text.specs.declared.fault.KifFault.{KifFault};
ghost use Rattle.kif_text.specs.Reading.{Spells, IsReadingOutcome};

use crate::header::diagram_of;
use crate::lines::without_mark;
use crate::{KifFault, kif_laws};
use board_core::Position;

fn outcome_of(input: &[u8]) -> Result<Position, KifFault>
    ensures defender { IfOk result HasDefender }
    ensures exact { IsReadingOutcome input.now result }
{
    let text = match str::from_utf8(input) {
        Ok(text) => text,
        Err(fault) => return Err(KifFault::NotUtf8(fault.valid_up_to())),
    };
    let diagram = diagram_of(without_mark(text))?;
    if diagram.rows < 9 {
        return Err(KifFault::NoDiagram);
    }
    match Position::build(&diagram.cells, diagram.black, diagram.white, diagram.side) {
        Ok(position) => Ok(position),
        Err(bad) => Err(KifFault::BadPosition(bad)),
    }
}

/// The position that a KIF text with a board diagram stands for; else its first fault
/// ([`KifFault`]): by line, within a line from the left; then that nine rows are missing; then the
/// fault of the position. Takes no memory, and time by the length of the text.
///
/// The input is UTF-8, perhaps behind a byte-order mark. Lines end with a line feed, perhaps behind
/// a carriage return, and those before the first that begins with `手数----` are read, each by the
/// first rule that fits: `#` and `*` begin a comment; `上手` and `下手` name a handicap game, which is
/// a fault; `先手の持駒：` and `後手の持駒：` give Black's and White's hand; `|` begins the next row of the
/// diagram, rank a first; `後手番`, `手番：後手`, `先手番` and `手番：先手` say whose turn it is, Black's where no
/// line says it; any other line isn't read. Of hands and turns the last line counts.
pub fn read_kif(input: &[u8]) -> Result<Position, KifFault>
    // The position that the input spells; else its first fault.
    ensures exact { IsReadingOutcome input.now result }
    // And nothing else is.
    ensures only { (other : Result Board KifFault) → IsReadingOutcome input.now other → result
        ≡ other }
    // The defender, the side that isn't to move, has a king.
    ensures defender { IfOk result HasDefender }
    // The text spells the position that is read.
    ensures spelled { IfOk result (λ p. Spells input.now p) }
    // A position that the text spells is read, where it keeps what every position keeps and the
    // side that isn't to move has a king.
    ensures read { (p : Board) → Spells input.now p → IsKept p → HasDefender p → result ≡ Ok p }
{
    kif_laws();
    outcome_of(input)
}
