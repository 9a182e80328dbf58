// The moves of a record.
ghost use Rattle.std.specs.Prelude.{◌≡◌, ◌≤◌, ◌++◌, OnOk};
ghost use Rattle.std.specs.Fmt.{decimal};
ghost use Rattle.kif_record.specs.Moves.{blanks_before, numbered, goes_to, is_same, place_text, named, promotion_text, origin_text, moved_text, move_line};

use crate::characters::{kind_text, name_of, put_square, put_text};
use board_core::{Move, Piece, Position, Square};
use itoa::Buffer;
use std::alloc::AllocError;

fn blanks_before(number: u64) -> &'static str
    ensures { result.now ≡ blanks_before number }
{
    match number {
        0..=9 => "   ",
        10..=99 => "  ",
        100..=999 => " ",
        _ => "",
    }
}

// Puts a number right in four places, and a space.
pub fn put_number(out: &mut Vec<u8>, number: u64) -> Result<(), AllocError>
    ensures { OnOk result (out.new.items ≡ out.old.items ++ numbered number) }
{
    let mut buffer = Buffer::new();
    put_text(out, blanks_before(number))?;
    put_text(out, buffer.format(number))?;
    put_text(out, " ")
}

// Where a move goes.
pub fn goes_to(by: Move) -> Square
    ensures { result ≡ goes_to by }
{
    match by {
        Move::Board { to, .. } | Move::Drop { to, .. } => to,
    }
}

fn is_same(last: Option<Square>, to: Square) -> bool
    ensures { result ≡ is_same last to }
{
    match last {
        None => false,
        Some(square) => square.number == to.number,
    }
}

fn put_place(out: &mut Vec<u8>, last: Option<Square>, to: Square) -> Result<(), AllocError>
    ensures { OnOk result (out.new.items ≡ out.old.items ++ place_text last to) }
{
    if is_same(last, to) {
        put_text(out, "同\u{3000}")
    } else {
        put_square(out, to)
    }
}

fn put_named(out: &mut Vec<u8>, piece: Option<Piece>) -> Result<(), AllocError>
    ensures { OnOk result (out.new.items ≡ out.old.items ++ named piece) }
{
    match piece {
        None => Ok(()),
        Some(piece) => put_text(out, name_of(piece)),
    }
}

fn put_promotion(out: &mut Vec<u8>, promote: bool) -> Result<(), AllocError>
    ensures { OnOk result (out.new.items ≡ out.old.items ++ promotion_text promote) }
{
    if promote { put_text(out, "成") } else { Ok(()) }
}

fn put_origin(out: &mut Vec<u8>, square: Square) -> Result<(), AllocError>
    ensures { OnOk result (out.new.items ≡ out.old.items ++ origin_text square.number) }
{
    out.push(b'(')?;
    out.push(b'0' + square.file())?;
    out.push(b'0' + square.row())?;
    out.push(b')')?;
    Ok(())
}

fn put_moved(out: &mut Vec<u8>, position: &Position, by: Move) -> Result<(), AllocError>
    ensures { OnOk result (out.new.items ≡ out.old.items ++ moved_text position.now by) }
{
    match by {
        Move::Board { from, promote, .. } => {
            put_named(out, position.piece_at(from))?;
            put_promotion(out, promote)?;
            put_origin(out, from)
        }
        Move::Drop { kind, .. } => {
            put_text(out, kind_text(kind))?;
            put_text(out, "打")
        }
    }
}

// Puts the line of a move of this number, where the one before went there.
pub fn put_move(
    out: &mut Vec<u8>,
    number: u64,
    last: Option<Square>,
    position: &Position,
    by: Move,
) -> Result<(), AllocError>
    ensures { OnOk result (out.new.items
        ≡ out.old.items ++ move_line number last position.now by) }
{
    put_number(out, number)?;
    put_place(out, last, goes_to(by))?;
    put_moved(out, position, by)?;
    put_text(out, "\n")
}
