// Positions as texts.
ghost use Rattle.std.specs.Prelude.{◌≡◌, ◌≢◌, ◌≤◌, ◌<◌, ◌+◌, ◌++◌, ◌∷◌, [], List, ℕ, IfOk, OnOk};
ghost use Rattle.board_core.specs.Board.{Board, hand_count, hand_of};
ghost use Rattle.board_core.specs.Kept.{IsKept};
ghost use Rattle.bit_boards.specs.declared.piece.Kind.TheVariants.{King};
ghost use Rattle.bit_boards.specs.declared.piece.Side.TheVariants.{Black, White};
ghost use Rattle.sfen_text.specs.Pieces.{letter_of, piece_text};
ghost use Rattle.sfen_text.specs.Spelling.{cells_of_row, run_text, row_text, slashed_row, board_text, side_letter, count_text, held_text, hand_text, hands_text, sfen_of};

use board_core::{Hand, Kind, Piece, Position, Side, Square};
use std::alloc::{AllocError, Global};

fn letter(side: Side, kind: Kind) -> u8
    ensures { result ≡ letter_of side kind }
{
    match side {
        Side::Black => kind.letter(),
        Side::White => kind.letter() + 32,
    }
}

fn put_piece(out: &mut Vec<u8>, piece: Piece) -> Result<(), AllocError>
    ensures { OnOk result (out.new.items ≡ out.old.items ++ piece_text piece) }
{
    if piece.promoted {
        out.push(b'+')?;
    }
    out.push(letter(piece.side, piece.kind))?;
    Ok(())
}

fn put_run(out: &mut Vec<u8>, run: u8) -> Result<(), AllocError>
    requires { run ≤ 9 }
    ensures { OnOk result (out.new.items ≡ out.old.items ++ run_text run) }
{
    if run > 0 {
        out.push(b'0' + run)?;
    }
    Ok(())
}

#[tactic(auto, using(crate::proofs::Writing::row_from_more), unfolding(crate::specs::Spelling::cells_of_row))]
fn put_row(out: &mut Vec<u8>, position: &Position, row_number: u8) -> Result<(), AllocError>
    requires from { 1 ≤ row_number }
    requires to { row_number ≤ 9 }
    ensures { OnOk result (out.new.items
        ≡ out.old.items ++ row_text 0 (cells_of_row position.now.cells row_number)) }
{
    let mut run = 0;
    for file in (1..10).rev() {
        match position.piece_at(Square::on(file, row_number)) {
            None => run += 1,
            Some(piece) => {
                put_run(out, run)?;
                put_piece(out, piece)?;
                run = 0;
            }
        }
    }
    put_run(out, run)
}

fn put_board(out: &mut Vec<u8>, position: &Position) -> Result<(), AllocError>
    ensures { OnOk result (out.new.items ≡ out.old.items ++ board_text position.now.cells) }
{
    put_row(out, position, 1)?;
    for row_number in 2..10 {
        out.push(b'/')?;
        put_row(out, position, row_number)?;
    }
    Ok(())
}

fn put_held(out: &mut Vec<u8>, side: Side, kind: Kind, count: u8) -> Result<(), AllocError>
    requires { count < 100 }
    ensures { OnOk result (out.new.items ≡ out.old.items ++ held_text side kind count) }
{
    if count == 0 {
        return Ok(());
    }
    if count >= 10 {
        out.push(b'0' + count / 10)?;
        out.push(b'0' + count % 10)?;
    } else if count > 1 {
        out.push(b'0' + count)?;
    }
    out.push(letter(side, kind))?;
    Ok(())
}

fn put_kind(
    out: &mut Vec<u8>,
    position: &Position,
    side: Side,
    kind: Kind,
) -> Result<(), AllocError>
    requires { kind ≢ King }
    ensures { OnOk result (out.new.items
        ≡ out.old.items ++ held_text side kind (hand_count (hand_of position.now side) kind)) }
{
    position.laws();
    put_held(out, side, kind, position.hand(side).count(kind))
}

fn put_hand(out: &mut Vec<u8>, position: &Position, side: Side) -> Result<(), AllocError>
    ensures { OnOk result (out.new.items
        ≡ out.old.items ++ hand_text side (hand_of position.now side)) }
{
    put_kind(out, position, side, Kind::Rook)?;
    put_kind(out, position, side, Kind::Bishop)?;
    put_kind(out, position, side, Kind::Gold)?;
    put_kind(out, position, side, Kind::Silver)?;
    put_kind(out, position, side, Kind::Knight)?;
    put_kind(out, position, side, Kind::Lance)?;
    put_kind(out, position, side, Kind::Pawn)
}

fn put_both(out: &mut Vec<u8>, position: &Position) -> Result<(), AllocError>
    ensures { OnOk result (out.new.items
        ≡ out.old.items ++ (hand_text Black position.now.black ++ hand_text White
        position.now.white)) }
{
    put_hand(out, position, Side::Black)?;
    put_hand(out, position, Side::White)
}

fn put_hands(out: &mut Vec<u8>, position: &Position) -> Result<(), AllocError>
    ensures { OnOk result (out.new.items
        ≡ out.old.items ++ hands_text position.now.black position.now.white) }
{
    let before = out.len();
    put_both(out, position)?;
    if out.len() == before {
        out.push(b'-')?;
    }
    Ok(())
}

fn side_byte(side: Side) -> u8
    ensures { result ≡ side_letter side }
{
    match side {
        Side::Black => b'b',
        Side::White => b'w',
    }
}

/// Writes the text of a position behind what stands there already: see [`write_sfen`]. Where memory
/// is wanted, a part of it may stand there. Errors: want of memory alone.
pub fn append_sfen(out: &mut Vec<u8>, position: &Position) -> Result<(), AllocError>
    ensures text { OnOk result (out.new.items ≡ out.old.items ++ sfen_of position.now) }
    ensures kept { IsKept position.now }
{
    position.laws();
    put_board(out, position)?;
    out.push(b' ')?;
    out.push(side_byte(position.side()))?;
    out.push(b' ')?;
    put_hands(out, position)
}

fn text_of(alloc: Global, position: &Position) -> Result<Vec<u8>, AllocError>
    ensures { IfOk result (λ text. text.items ≡ sfen_of position.now) }
{
    let mut text = Vec::new(alloc);
    append_sfen(&mut text, position)?;
    Ok(text)
}

/// The text of a position (SFEN): the board with longest runs of empty squares, the side to move,
/// and the hands, a space between. In the hands Black's letters come first, each side's in the
/// order R B G S N L P, each with its count before it where that is above 1; a dash where both are
/// empty. No move number, no line feed. Errors: want of memory alone.
pub fn write_sfen(alloc: Global, position: &Position) -> Result<Vec<u8>, AllocError>
    ensures text { IfOk result (λ text. text.items ≡ sfen_of position.now) }
    // No other position has this text.
    ensures apart { IfOk result (λ text. (other : Board) → IsKept other → sfen_of other
        ≡ text.items → other ≡ position.now) }
    ensures kept { IsKept position.now }
{
    position.laws();
    text_of(alloc, position)
}
