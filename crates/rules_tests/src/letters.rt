// Positions, moves and squares by their letters. A text that makes no sense ends the test.
use Side::{Black, White};
use bit_boards::Mask;
use board_core::{Hand, Kind, Move, Piece, Position, Side, Square};
use sfen_text::read_sfen;
use shogi_rules::{DefenderInCheck, Problem, accept_problem};
use std::alloc::{AllocError, Global};
use std::process::Abort;
use usi_text::read_move;

/// The position of an SFEN.
pub fn position(rt: &impl Abort, text: &str) -> Position {
    match read_sfen(text.as_bytes()) {
        Ok(position) => position,
        Err(fault) => panic!(rt; "{fault:?}: {text}"),
    }
}

/// The problem of an SFEN, if it may be one.
pub fn accepted(rt: &impl Abort, text: &str) -> Result<Problem, DefenderInCheck> {
    match read_sfen(text.as_bytes()) {
        Ok(position) => accept_problem(position),
        Err(fault) => panic!(rt; "{fault:?}: {text}"),
    }
}

/// The problem of an SFEN.
pub fn problem(rt: &impl Abort, text: &str) -> Problem {
    match accepted(rt, text) {
        Ok(problem) => problem,
        Err(_) => panic!(rt; "in check: {text}"),
    }
}

/// The move of a text as USI writes it, or the drop of a king, which it never writes.
pub fn by(rt: &impl Abort, text: &str) -> Move {
    if let Some(square) = text.strip_prefix("K*") {
        return Move::Drop {
            kind: Kind::King,
            to: named(rt, square),
        };
    }
    read_move(text.as_bytes()).expect(rt, text)
}

/// The moves of texts with blanks between them.
pub fn moves(rt: &impl Abort, alloc: Global, texts: &str) -> Result<Vec<Move>, AllocError> {
    let mut moves = Vec::new(alloc);
    for text in texts.split_whitespace() {
        moves.push(by(rt, text))?;
    }
    Ok(moves)
}

// The square of a digit and a letter, as 5 and e.
fn square(file: u8, row: u8) -> Option<Square> {
    let (file, row) = (file.wrapping_sub(b'0'), row.wrapping_sub(b'`'));
    if file < 1 || 9 < file || row < 1 || 9 < row {
        return None;
    }
    Some(Square::on(file, row))
}

/// The square of a text as `5e`.
pub fn named(rt: &impl Abort, text: &str) -> Square {
    let found = match text.as_bytes() {
        [file, row] => square(*file, *row),
        _ => None,
    };
    found.expect(rt, text)
}

/// The squares of texts with blanks between them.
pub fn set(rt: &impl Abort, texts: &str) -> Mask {
    let mut set = Mask::empty();
    for text in texts.split_whitespace() {
        set = set.with(named(rt, text));
    }
    set
}

fn placed(word: &str) -> Option<(Piece, Square)> {
    let plain = word.strip_prefix("+").unwrap_or(word).as_bytes();
    let [letter, file, row] = plain else {
        return None;
    };
    let square = square(*file, *row)?;
    let kind = Kind::of_letter(letter.to_ascii_uppercase())?;
    let piece = Piece {
        kind,
        promoted: plain.len() < word.len() && kind.can_promote(),
        side: if letter.is_ascii_uppercase() {
            Black
        } else {
            White
        },
    };
    Some((piece, square))
}

/// A piece and its square by a text as `+P5c`: a letter, capital for Black and behind a `+` where
/// it is promoted, and the square.
pub fn piece(rt: &impl Abort, word: &str) -> (Piece, Square) {
    placed(word).expect(rt, word)
}

/// The position of such pieces, with these in Black's hand, who is to move.
pub fn standing(rt: &impl Abort, pieces: &str, hand: Hand) -> Position {
    let mut cells = [None; 81];
    for word in pieces.split_whitespace() {
        let (piece, square) = piece(rt, word);
        cells[square.number as usize] = Some(piece);
    }
    Position::build(&cells, hand, Hand::empty(), Black).expect(rt, pieces)
}
