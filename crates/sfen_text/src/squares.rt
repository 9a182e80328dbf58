// The board field of a text.
ghost use Rattle.std.specs.Prelude.{◌≡◌, [], ◌≤◌, ◌<◌, ◌+◌, ◌-◌, ◌*◌, ◌^◌, ℕ, IfOk, length, drop};
ghost use Rattle.sfen_text.specs.Signs.{sign_of_piece, plain_sign, sign, signs, squares, in_order, IsFilling, filled_squares, IsSignTaken};
ghost use Rattle.sfen_text.specs.Reading.{Gives, cells_at};

use crate::TextFault;
use crate::pieces::{piece_of, promoted_of};
use board_core::Piece;

// A sign of the board's text.
#[derive(Clone, Copy)]
pub enum Sign {
    // Between two rows.
    Slash,
    // So many empty squares, 1 to 9.
    Run(u8),
    // A piece.
    Stands(Piece),
    // No sign.
    Broken,
}

// What was read so far: the cells by the number of the square, how many rows are still to come, and
// how many squares of this row.
#[derive(Clone, Copy)]
struct Filling {
    cells: [Option<Piece>; 81],
    further_rows: u8,
    left: u8,
}

fn sign_of_piece(piece: Option<Piece>) -> Sign
    ensures { result ≡ sign_of_piece piece }
{
    match piece {
        Some(piece) => Sign::Stands(piece),
        None => Sign::Broken,
    }
}

fn plain_sign(byte: u8) -> Sign
    ensures { result ≡ plain_sign byte }
{
    match byte {
        b'/' => Sign::Slash,
        b'1'..=b'9' => Sign::Run(byte - b'0'),
        _ => sign_of_piece(piece_of(byte)),
    }
}

// The first sign of a text, and how many bytes it takes.
fn sign_of(text: &[u8]) -> (Sign, usize)
    requires { 0 < length text.now }
    ensures size { 1 ≤ result.1 }
    ensures within { result.1 ≤ length text.now }
    ensures signs { (at : ℕ) → signs at text.now
        ≡ sign at result.0 (signs (at + result.1) (drop result.1 text.now)) }
{
    let plain = (plain_sign(text[0]), 1);
    if text.len() == 1 {
        return plain;
    }
    if text[0] != b'+' {
        return plain;
    }
    (sign_of_piece(promoted_of(text[1])), 2)
}

#[tactic(auto, unfolding(crate::specs::Signs::squares))]
fn take_sign(filling: &mut Filling, found: Sign, at: usize) -> Result<(), TextFault>
    requires { IsFilling filling.old }
    ensures { IsSignTaken filling.old filling.new found at result }
{
    match found {
        Sign::Broken => return Err(TextFault::BadPiece(at)),
        Sign::Slash => {
            if filling.left > 0 || filling.further_rows == 0 {
                return Err(TextFault::BadRow(at));
            }
            filling.further_rows -= 1;
            filling.left = 9;
        }
        Sign::Run(count) => {
            if count > filling.left {
                return Err(TextFault::BadRow(at));
            }
            filling.left -= count;
        }
        Sign::Stands(piece) => {
            if filling.left == 0 {
                return Err(TextFault::BadRow(at));
            }
            filling.left -= 1;
            filling.cells[9 * filling.left as usize + (8 - filling.further_rows) as usize] = Some(
                piece,
            );
        }
    }
    Ok(())
}

fn nothing_filled() -> Filling
    ensures filling { IsFilling result }
    ensures nothing { filled_squares result ≡ [] }
    ensures further_rows { result.further_rows ≡ 8 }
    ensures left { result.left ≡ 9 }
{
    Filling {
        cells: [None; 81],
        further_rows: 8,
        left: 9,
    }
}

#[tactic(auto, unfolding(crate::specs::Signs::signs, crate::specs::Signs::squares), using(crate::proofs::Filling::in_front_none, crate::proofs::Filling::in_order_size))]
// The cells of the board's field, which are read row by row.
fn squares_of(text: &[u8], at: usize) -> Result<[Option<Piece>; 81], TextFault>
    requires { at + length text.now < 2 ^ 64 }
    ensures size { IfOk result (λ cells. length cells ≡ 81) }
    ensures read { Gives in_order result (squares (at + length text.now) 8 9 (signs at text.now)) }
{
    let end = at + text.len();
    let mut filling = nothing_filled();
    let mut rest = text;
    let mut here = at;
    while !rest.is_empty() {
        let (found, size) = sign_of(rest);
        take_sign(&mut filling, found, here)?;
        here += size;
        rest = &rest[size..];
    }
    if filling.further_rows > 0 || filling.left > 0 {
        return Err(TextFault::BadRow(end));
    }
    Ok(filling.cells)
}

#[tactic(auto, unfolding(crate::specs::Reading::cells_at), using(crate::proofs::Filling::cells_read))]
// The cells of the board's field, by the number of the square.
pub fn board_of(text: &[u8], at: usize) -> Result<[Option<Piece>; 81], TextFault>
    requires { at + length text.now < 2 ^ 64 }
    ensures { Gives (λ cells. cells) result (cells_at at text.now) }
{
    squares_of(text, at)
}
