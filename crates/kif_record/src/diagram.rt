// The diagram of a position.
ghost use Rattle.std.specs.Prelude.{◌≡◌, ◌≢◌, ◌≤◌, ◌∷◌, [], ◌++◌, IfOk, OnOk};
ghost use Rattle.bit_boards.specs.declared.piece.Kind.TheVariants.{Pawn, Lance, Knight, Silver, Gold, Bishop, Rook, King};
ghost use Rattle.std.specs.List.{flat_map};
ghost use Rattle.sfen_text.specs.Spelling.{cells_of_row};
ghost use Rattle.board_core.specs.Board.{hand_count, hand_of};
ghost use Rattle.kif_record.specs.Characters.{held_text};
ghost use Rattle.kif_record.specs.Diagram.{line, with_blank, joined, with_kinds, hand_text, cell_text, row_text, rows_text, board_text, turn_text, diagram_text};

use crate::characters::{kind_text, mark_of, number_text, put_count, put_text, sign_of};
use board_core::{Hand, Kind, Piece, Position, Side, Square};
use std::alloc::{AllocError, Global};

// Puts a text and a line feed.
pub fn put_line(out: &mut Vec<u8>, text: &str) -> Result<(), AllocError>
    ensures { OnOk result (out.new.items ≡ out.old.items ++ line text.now) }
{
    put_text(out, text)?;
    out.push(b'\n')?;
    Ok(())
}

// Puts a wide blank behind what stands there already, where anything does.
fn put_blank(out: &mut Vec<u8>) -> Result<(), AllocError>
    ensures { OnOk result (out.new.items ≡ with_blank out.old.items) }
{
    if out.is_empty() {
        return Ok(());
    }
    put_text(out, "\u{3000}")
}

// Puts how many of a kind a hand has behind the kinds before it.
fn put_kind(out: &mut Vec<u8>, hand: Hand, kind: Kind) -> Result<(), AllocError>
    requires { kind ≢ King }
    ensures { OnOk result (out.new.items
        ≡ joined out.old.items (held_text kind (hand_count hand kind))) }
{
    let count = hand.count(kind);
    if count == 0 {
        return Ok(());
    }
    put_blank(out)?;
    put_text(out, kind_text(kind))?;
    put_count(out, count)
}

fn put_kinds(out: &mut Vec<u8>, hand: Hand) -> Result<(), AllocError>
    ensures { OnOk result (out.new.items ≡ with_kinds hand out.old.items
        (Rook ∷ Bishop ∷ Gold ∷ Silver ∷ Knight ∷ Lance ∷ Pawn ∷ [])) }
{
    put_kind(out, hand, Kind::Rook)?;
    put_kind(out, hand, Kind::Bishop)?;
    put_kind(out, hand, Kind::Gold)?;
    put_kind(out, hand, Kind::Silver)?;
    put_kind(out, hand, Kind::Knight)?;
    put_kind(out, hand, Kind::Lance)?;
    put_kind(out, hand, Kind::Pawn)
}

fn hand_text(alloc: Global, hand: Hand) -> Result<Vec<u8>, AllocError>
    ensures { IfOk result (λ text. text.items ≡ hand_text hand) }
{
    let mut text = Vec::new(alloc);
    put_kinds(&mut text, hand)?;
    if !text.is_empty() {
        return Ok(text);
    }
    put_text(&mut text, "なし")?;
    Ok(text)
}

// Puts the line of a side's hand, behind these words.
fn put_hand(
    alloc: Global,
    out: &mut Vec<u8>,
    words: &str,
    position: &Position,
    side: Side,
) -> Result<(), AllocError>
    ensures { OnOk result (out.new.items
        ≡ out.old.items ++ line (words.now ++ hand_text (hand_of position.now side))) }
{
    let text = hand_text(alloc, position.hand(side))?;
    put_text(out, words)?;
    out.extend_from_slice(&text)?;
    out.push(b'\n')?;
    Ok(())
}

fn put_cell(out: &mut Vec<u8>, cell: Option<Piece>) -> Result<(), AllocError>
    ensures { OnOk result (out.new.items ≡ out.old.items ++ cell_text cell) }
{
    match cell {
        None => put_text(out, " ・"),
        Some(piece) => {
            put_text(out, mark_of(piece.side))?;
            put_text(out, sign_of(piece))
        }
    }
}

fn put_cells(out: &mut Vec<u8>, position: &Position, row_number: u8) -> Result<(), AllocError>
    requires from { 1 ≤ row_number }
    requires to { row_number ≤ 9 }
    ensures { OnOk result (out.new.items
        ≡ out.old.items ++ flat_map cell_text (cells_of_row position.now.cells row_number)) }
{
    for file in (1..10).rev() {
        put_cell(out, position.piece_at(Square::on(file, row_number)))?;
    }
    Ok(())
}

fn put_row(out: &mut Vec<u8>, position: &Position, row_number: u8) -> Result<(), AllocError>
    requires from { 1 ≤ row_number }
    requires to { row_number ≤ 9 }
    ensures { OnOk result (out.new.items
        ≡ out.old.items ++ line (row_text position.now.cells row_number)) }
{
    put_text(out, "|")?;
    put_cells(out, position, row_number)?;
    put_text(out, "|")?;
    put_line(out, number_text(row_number))
}

fn put_rows(out: &mut Vec<u8>, position: &Position) -> Result<(), AllocError>
    ensures { OnOk result (out.new.items ≡ out.old.items ++ rows_text position.now.cells) }
{
    for row_number in 1..10 {
        put_row(out, position, row_number)?;
    }
    Ok(())
}

fn put_board(out: &mut Vec<u8>, position: &Position) -> Result<(), AllocError>
    ensures { OnOk result (out.new.items ≡ out.old.items ++ board_text position.now.cells) }
{
    put_line(out, "  ９ ８ ７ ６ ５ ４ ３ ２ １")?;
    put_line(out, "+---------------------------+")?;
    put_rows(out, position)?;
    put_line(out, "+---------------------------+")
}

fn put_turn(out: &mut Vec<u8>, position: &Position) -> Result<(), AllocError>
    ensures { OnOk result (out.new.items ≡ out.old.items ++ turn_text position.now.side) }
{
    match position.side() {
        Side::Black => Ok(()),
        Side::White => put_line(out, "後手番"),
    }
}

// Puts the diagram of a position.
pub fn put_diagram(alloc: Global, out: &mut Vec<u8>, position: &Position) -> Result<(), AllocError>
    ensures { OnOk result (out.new.items ≡ out.old.items ++ diagram_text position.now) }
{
    put_hand(alloc, out, "後手の持駒：", position, Side::White)?;
    put_board(out, position)?;
    put_hand(alloc, out, "先手の持駒：", position, Side::Black)?;
    put_turn(out, position)
}
