// The characters of a record.
ghost use Rattle.std.specs.Prelude.{◌≡◌, ◌≤◌, ◌++◌, OnOk};
ghost use Rattle.kif_record.specs.Characters.{kind_text, promoted_sign, promoted_name, sign_of, name_of, mark_of, number_text, square_text, count_text};

use board_core::{Kind, Piece, Side, Square};
use std::alloc::AllocError;

pub fn kind_text(kind: Kind) -> &'static str
    ensures { result.now ≡ kind_text kind }
{
    match kind {
        Kind::Pawn => "歩",
        Kind::Lance => "香",
        Kind::Knight => "桂",
        Kind::Silver => "銀",
        Kind::Gold => "金",
        Kind::Bishop => "角",
        Kind::Rook => "飛",
        Kind::King => "玉",
    }
}

fn promoted_sign(kind: Kind) -> &'static str
    ensures { result.now ≡ promoted_sign kind }
{
    match kind {
        Kind::Pawn => "と",
        Kind::Lance => "杏",
        Kind::Knight => "圭",
        Kind::Silver => "全",
        Kind::Bishop => "馬",
        Kind::Rook => "龍",
        Kind::Gold => "金",
        Kind::King => "玉",
    }
}

fn promoted_name(kind: Kind) -> &'static str
    ensures { result.now ≡ promoted_name kind }
{
    match kind {
        Kind::Lance => "成香",
        Kind::Knight => "成桂",
        Kind::Silver => "成銀",
        _ => promoted_sign(kind),
    }
}

// What a cell of the diagram shows of a piece.
pub fn sign_of(piece: Piece) -> &'static str
    ensures { result.now ≡ sign_of piece }
{
    if piece.promoted {
        promoted_sign(piece.kind)
    } else {
        kind_text(piece.kind)
    }
}

// The name of a piece in a move.
pub fn name_of(piece: Piece) -> &'static str
    ensures { result.now ≡ name_of piece }
{
    if piece.promoted {
        promoted_name(piece.kind)
    } else {
        kind_text(piece.kind)
    }
}

pub fn mark_of(side: Side) -> &'static str
    ensures { result.now ≡ mark_of side }
{
    match side {
        Side::Black => " ",
        Side::White => "v",
    }
}

// A number from one to ten.
pub fn number_text(number: u8) -> &'static str
    ensures { result.now ≡ number_text number }
{
    match number {
        1 => "一",
        2 => "二",
        3 => "三",
        4 => "四",
        5 => "五",
        6 => "六",
        7 => "七",
        8 => "八",
        9 => "九",
        _ => "十",
    }
}

pub fn put_text(out: &mut Vec<u8>, text: &str) -> Result<(), AllocError>
    ensures { OnOk result (out.new.items ≡ out.old.items ++ text.now) }
{
    out.extend_from_slice(text.as_bytes())?;
    Ok(())
}

pub fn put_square(out: &mut Vec<u8>, square: Square) -> Result<(), AllocError>
    ensures { OnOk result (out.new.items ≡ out.old.items ++ square_text square.number) }
{
    out.extend_from_slice(&[0xEF, 0xBC, 0x90 + square.file()])?;
    put_text(out, number_text(square.row()))
}

// How many pieces of a kind a hand has, where it has any.
pub fn put_count(out: &mut Vec<u8>, count: u8) -> Result<(), AllocError>
    ensures { OnOk result (out.new.items ≡ out.old.items ++ count_text count) }
{
    if count == 1 {
        return Ok(());
    }
    if count <= 10 {
        return put_text(out, number_text(count));
    }
    put_text(out, "十")?;
    put_text(out, number_text(count - 10))
}
