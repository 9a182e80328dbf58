// The word behind a line's number.
ghost use Rattle.std.specs.Prelude.{◌≡◌, IfSome, MatchOption, Some, None};
ghost use Rattle.std.specs.Option.{option_map};
ghost use Rattle.std.specs.Str.{chars, IsUtf8};
ghost use Rattle.bit_boards.specs.declared.square.Square.{Square};
ghost use Rattle.bit_boards.specs.declared.piece.Piece.{Piece};
ghost use Rattle.bit_boards.specs.declared.piece.Side.TheVariants.{Black};
ghost use Rattle.sfen_text.specs.Pieces.{promoted_piece};
ghost use Rattle.kif_moves.specs.Words.{behind_number, is_ending, behind_same, goal_of, long_piece, name_of, is_in_hand, origin_of, gone_from, unpromoted, way_of, spoken_of, IsMoveOf};
ghost use Rattle.kif_moves.specs.Steps.{IsTaken, last_number, way_seen, IsWordRead};

use crate::characters::{is_over, past_digits, past_spaces, square_of, square_of_digits};
use board_core::{Kind, Move, Piece, Side, Square};
use kif_text::{piece_of, split_first};

// How a piece moves.
#[derive(Clone, Copy)]
pub enum Way {
    // From the hand.
    Dropped,
    // From a square, promoted or not.
    Gone(Square, bool),
}

// What stands in a line behind its number.
pub fn behind_number(line: &str) -> Option<&str>
    ensures word { MatchOption result (behind_number (chars line.now)
        ≡ None) (λ rest. behind_number (chars line.now) ≡ Some (chars rest.now)) }
    ensures text { IfSome result (λ rest. IsUtf8 rest.now) }
{
    let (digit, rest) = split_first(past_spaces(line))?;
    if !digit.is_ascii_digit() {
        return None;
    }
    let (space, rest) = split_first(past_digits(rest))?;
    if space != ' ' {
        return None;
    }
    Some(past_spaces(rest))
}

// Whether the word ends the moves.
pub fn is_ending(word: &str) -> bool
    ensures { result ≡ is_ending (chars word.now) }
{
    let Some((first, rest)) = split_first(word) else {
        return false;
    };
    let Some((second, rest)) = split_first(rest) else {
        return false;
    };
    matches!((first, second), ('詰', 'み') | ('投', '了') | ('中', '断')) && is_over(rest)
}

// Where a move goes, and what stands behind that.
fn goal_of(last: Option<Square>, word: &str) -> Option<(Square, &str)>
    ensures goal { IsTaken (λ (s : Square). s.number)
        (goal_of (last_number last) (chars word.now)) result }
    ensures text { IfSome result (λ x. IsUtf8 x.1.now) }
{
    let (first, rest) = split_first(word)?;
    if first == '同' {
        return Some((last?, behind_same(rest)));
    }
    let (second, rest) = split_first(rest)?;
    Some((square_of(first, second)?, rest))
}

// What stands behind `同`.
fn behind_same(rest: &str) -> &str
    ensures { chars result.now ≡ behind_same (chars rest.now) }
{
    match split_first(rest) {
        Some(('\u{3000}', behind)) => behind,
        _ => rest,
    }
}

// The piece that `成` and a character name.
fn long_piece(character: char) -> Option<Piece>
    ensures { result ≡ long_piece character }
{
    match character {
        '香' => piece_of(Side::Black, '杏'),
        '桂' => piece_of(Side::Black, '圭'),
        '銀' => piece_of(Side::Black, '全'),
        _ => None,
    }
}

// The piece that is named, as Black's, and what stands behind its name.
fn name_of(word: &str) -> Option<(Piece, &str)>
    ensures name { IsTaken (λ (p : Piece). p) (name_of (chars word.now)) result }
    ensures text { IfSome result (λ x. IsUtf8 x.1.now) }
{
    let (first, rest) = split_first(word)?;
    if first == '成' {
        let (second, rest) = split_first(rest)?;
        return Some((long_piece(second)?, rest));
    }
    Some((piece_of(Side::Black, first)?, rest))
}

fn is_in_hand(name: Piece) -> bool
    ensures { result ≡ is_in_hand name }
{
    !name.promoted && name.kind != Kind::King
}

// Where the piece comes from, in brackets.
fn origin_of(text: &str) -> Option<Square>
    ensures { last_number result ≡ origin_of (chars text.now) }
{
    let (open, rest) = split_first(text)?;
    let (file, rest) = split_first(rest)?;
    let (row, rest) = split_first(rest)?;
    let (close, rest) = split_first(rest)?;
    if open == '(' && close == ')' && is_over(rest) {
        square_of_digits(file, row)
    } else {
        None
    }
}

fn gone_from(promote: bool, text: &str) -> Option<Way>
    ensures { option_map way_seen result ≡ gone_from promote (origin_of (chars text.now)) }
{
    let from = origin_of(text)?;
    Some(Way::Gone(from, promote))
}

// Behind `不`.
fn unpromoted(text: &str) -> Option<Way>
    ensures { option_map way_seen result ≡ unpromoted (chars text.now) }
{
    let (first, rest) = split_first(text)?;
    if first == '成' {
        gone_from(false, rest)
    } else {
        None
    }
}

// How a piece of this name moves.
fn way_of(name: Piece, text: &str) -> Option<Way>
    ensures { option_map way_seen result ≡ way_of name (chars text.now) }
{
    let (first, rest) = split_first(text)?;
    match first {
        '打' => {
            if is_in_hand(name) && is_over(rest) {
                Some(Way::Dropped)
            } else {
                None
            }
        }
        '成' => gone_from(true, rest),
        '不' => unpromoted(rest),
        _ => gone_from(false, text),
    }
}

fn move_of(to: Square, name: Piece, way: Way) -> Move
    ensures { IsMoveOf (record { to = to.number; name = name; way = way_seen way }) result }
{
    match way {
        Way::Dropped => Move::Drop {
            kind: name.kind,
            to,
        },
        Way::Gone(from, promote) => Move::Board { from, to, promote },
    }
}

// The move that a word names, and the piece that it names, as Black's.
pub fn spoken_of(last: Option<Square>, word: &str) -> Option<(Move, Piece)>
    ensures { IsWordRead (spoken_of (last_number last) (chars word.now)) result }
{
    let (to, rest) = goal_of(last, word)?;
    let (name, rest) = name_of(rest)?;
    let way = way_of(name, rest)?;
    Some((move_of(to, name, way), name))
}
