// Texts as positions.
ghost use Rattle.std.specs.Prelude.{◌≡◌, ◌≤◌, ◌<◌, ◌+◌, ◌-◌, ◌^◌, ◌∷◌, ℕ, List, length, take, drop, reverse, take_while, not, Result, Ok, IfOk};
ghost use Rattle.std.specs.List.{list_all};
ghost use Rattle.board_core.specs.Board.{Board, HasDefender};
ghost use Rattle.board_core.specs.Kept.{IsKept};
ghost use Rattle.sfen_text.specs.Spelling.{sfen_of};
ghost use Rattle.sfen_text.specs.Spells.{Spells};
ghost use Rattle.sfen_text.specs.Reading.{leading, without_end_blanks, front_len, field_of, next_of, cells_at, side_at, is_number, end_outcome, fields_at, input_parts, IsOutcomeOf, Gives};
ghost use Rattle.sfen_text.specs.declared.fault.TextFault.{TextFault};
ghost use Rattle.sfen_text.specs.Faults.{IsReadingOutcome};
ghost use Rattle.sfen_text.specs.Hands.{hands_of};
ghost use Rattle.sfen_text.specs.Bytes.{is_space, is_blank, is_digit};
ghost use Rattle.sfen_text.specs.Fields.{field, end_of};

use crate::hands::hands_of;
use crate::squares::board_of;
use crate::{TextFault, sfen_laws};
use board_core::{Hand, Piece, Position, Side, value_laws};

fn is_blank(byte: u8) -> bool
    ensures { result ≡ is_blank byte }
{
    matches!(byte, b' ' | b'\t' | b'\r' | b'\n')
}

#[tactic(auto, unfolding(crate::specs::Reading::leading))]
fn leading_blanks(text: &[u8]) -> usize
    ensures count { result ≡ leading is_blank text.now }
    ensures within { result ≤ length text.now }
{
    text.iter().take_while(|byte| is_blank(**byte)).count()
}

#[tactic(auto, unfolding(crate::specs::Reading::leading))]
fn blanks_at_end(text: &[u8]) -> usize
    ensures count { result ≡ leading is_blank (reverse text.now) }
    ensures within { result ≤ length text.now }
{
    text.iter()
        .rev()
        .take_while(|byte| is_blank(**byte))
        .count()
}

#[tactic(auto, unfolding(crate::specs::Reading::leading))]
fn leading_spaces(text: &[u8]) -> usize
    ensures count { result ≡ leading is_space text.now }
    ensures within { result ≤ length text.now }
{
    text.iter().take_while(|byte| **byte == b' ').count()
}

#[tactic(auto, unfolding(crate::specs::Reading::leading))]
fn field_size(text: &[u8]) -> usize
    ensures count { result ≡ leading (λ byte. not (is_space byte)) text.now }
    ensures within { result ≤ length text.now }
{
    text.iter().take_while(|byte| **byte != b' ').count()
}

#[tactic(auto, unfolding(crate::specs::Reading::front_len))]
fn front_size(text: &[u8]) -> usize
    ensures size { result ≡ front_len text.now }
    ensures within { result ≤ length text.now }
{
    if text.starts_with(b"position sfen ") {
        return 14;
    }
    if text.starts_with(b"sfen ") {
        return 5;
    }
    0
}

// A field of the text: its place, its bytes, and what stands behind it.
#[derive(Clone, Copy)]
struct Span<'a> {
    at: usize,
    text: &'a [u8],
    rest: &'a [u8],
}

#[tactic(auto, unfolding(crate::specs::Reading::field_of))]
fn span_of(text: &[u8], at: usize) -> Span<'_>
    requires { at + length text.now < 2 ^ 64 }
    ensures field { field (result.at) result.text.now result.rest.now ≡ field_of at text.now }
    ensures within { result.at + length result.text.now + length result.rest.now
        ≡ at + length text.now }
{
    let spaces = leading_spaces(text);
    let here = &text[spaces..];
    let (text, rest) = here.split_at(field_size(here));
    Span {
        at: at + spaces,
        text,
        rest,
    }
}

fn span_behind(span: Span<'_>) -> Span<'_>
    requires { span.at + length span.text.now + length span.rest.now < 2 ^ 64 }
    ensures field { field (result.at) result.text.now result.rest.now
        ≡ next_of (field span.entry.at span.entry.text.now span.entry.rest.now) }
    ensures within { result.at + length result.text.now + length result.rest.now
        ≡ span.entry.at + length span.entry.text.now + length span.entry.rest.now }
{
    span_of(span.rest, span.at + span.text.len())
}

#[tactic(auto, unfolding(crate::specs::Reading::side_at))]
fn side_of(span: Span<'_>) -> Result<Side, TextFault>
    ensures { Gives (λ side. side) result (side_at span.entry.at span.entry.text.now) }
{
    match span.text {
        b"b" => Ok(Side::Black),
        b"w" => Ok(Side::White),
        _ => Err(TextFault::BadSide(span.at)),
    }
}

fn is_digit(byte: u8) -> bool
    ensures { result ≡ is_digit byte }
{
    byte.is_ascii_digit()
}

fn all_digits(text: &[u8]) -> bool
    ensures { result ≡ list_all is_digit text.now }
{
    text.iter().all(|byte| is_digit(*byte))
}

fn is_number(text: &[u8]) -> bool
    ensures { result ≡ is_number text.now }
{
    text.len() <= 9 && all_digits(text)
}

#[tactic(auto, unfolding(crate::specs::Reading::end_outcome))]
fn end_outcome(span: Span<'_>) -> Result<(), TextFault>
    requires { span.at + length span.text.now + length span.rest.now < 2 ^ 64 }
    ensures { Gives (λ _. field span.entry.at span.entry.text.now span.entry.rest.now) result
        (end_outcome (field span.entry.at span.entry.text.now span.entry.rest.now)) }
{
    if !is_number(span.text) {
        return Err(TextFault::Trailing(span.at));
    }
    let after = span_behind(span);
    if !after.text.is_empty() {
        return Err(TextFault::Trailing(after.at));
    }
    Ok(())
}

// The parts of a position.
#[derive(Clone, Copy)]
struct Parts {
    cells: [Option<Piece>; 81],
    black: Hand,
    white: Hand,
    side: Side,
}

#[tactic(auto, unfolding(crate::specs::Reading::fields_at))]
fn parts_of(text: &[u8], at: usize) -> Result<Parts, TextFault>
    requires { at + length text.now < 2 ^ 64 }
    ensures { Gives (λ p. record
        { cells = p.cells; black = p.black; white = p.white; side = p.side }) result
        (fields_at at text.now) }
{
    let board = span_of(text, at);
    let cells = board_of(board.text, board.at)?;
    let turn = span_behind(board);
    let side = side_of(turn)?;
    let hands_field = span_behind(turn);
    let (black, white) = hands_of(hands_field.text, hands_field.at)?;
    end_outcome(span_behind(hands_field))?;
    Ok(Parts {
        cells,
        black,
        white,
        side,
    })
}

// The text without the blanks at its ends and without a word in front, and its place.
#[tactic(auto, unfolding(crate::specs::Reading::input_parts, crate::specs::Reading::without_end_blanks))]
fn body_of(input: &[u8]) -> (usize, &[u8])
    ensures input_parts { input_parts input.now ≡ fields_at result.0 result.1.now }
    ensures within { result.0 + length result.1.now ≤ length input.now }
{
    let blanks = leading_blanks(input);
    let body = &input[blanks..];
    let body = &body[..body.len() - blanks_at_end(body)];
    let front = front_size(body);
    (blanks + front, &body[front..])
}

fn position_of(parts: Parts) -> Result<Position, TextFault>
    ensures defender { IfOk result HasDefender }
    ensures built { IsOutcomeOf
        (Ok (record {
          cells = parts.cells;
          black = parts.black;
          white = parts.white;
          side =
              parts.side;
        })) result }
{
    match Position::build(&parts.cells, parts.black, parts.white, parts.side) {
        Ok(position) => Ok(position),
        Err(bad) => Err(TextFault::BadPosition(bad)),
    }
}

fn outcome_of(input: &[u8]) -> Result<Position, TextFault>
    ensures defender { IfOk result HasDefender }
    ensures outcome { IsOutcomeOf (input_parts input.now) result }
{
    let (at, text) = body_of(input);
    let parts = parts_of(text, at)?;
    position_of(parts)
}

/// The position that an SFEN text stands for; else its first fault from the left, with its place in
/// the whole input, or, where the text is well formed, the fault of its parts ([`TextFault`]).
/// Takes no memory, and time by the length of the text.
///
/// Spaces, tabs, carriage returns and line feeds at both ends don't count, nor does `sfen ` or
/// `position sfen ` in front (USI protocol: `position`). The rest is three or four fields with
/// spaces between: the board from row a to row i, each from file 9 to file 1; the side to move; the
/// hands; perhaps a move number of one to nine digits, which isn't used.
pub fn read_sfen(input: &[u8]) -> Result<Position, TextFault>
    // The position that the input spells; else its first fault.
    ensures exact { IsReadingOutcome input.now result }
    // And nothing else is.
    ensures only { (other : Result Board TextFault) → IsReadingOutcome input.now other → result
        ≡ other }
    // The defender, the side that isn't to move, has a king.
    ensures defender { IfOk result HasDefender }
    // The text spells the position that is read.
    ensures spelled { IfOk result (λ p. Spells input.now p) }
    // A position that the text spells is read, where it keeps what every position keeps and the
    // side that isn't to move has a king.
    ensures read { (p : Board) → Spells input.now p → IsKept p → HasDefender p → result ≡ Ok p }
    // What is written for a position is read as it, where the side that isn't to move has a king.
    ensures again { (p : Board) → IsKept p → HasDefender p → input.now ≡ sfen_of p → result ≡ Ok p }
{
    // The kinds that can stand in a hand have a count there; and no input has two outcomes.
    value_laws();
    sfen_laws();
    outcome_of(input)
}
