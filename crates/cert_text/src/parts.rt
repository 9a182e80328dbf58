// The parts of lines: what stands before and behind a byte, numbers, and positions.
ghost use Rattle.std.specs.Prelude.{◌≡◌, ◌≢◌, ◌≤◌, ◌<◌, ◌↔◌, ◌^◌, ◌++◌, ◌∷◌, ℕ, List, Some, IfSome, IfNone, IfOk, IsTrue};
ghost use Rattle.std.specs.Fmt.{decimal};
ghost use Rattle.std.specs.Ordering.{nat_cmp};
ghost use Rattle.std.specs.Cmp.Lexicographic.{slice_cmp};
ghost use Rattle.std.specs.declared.cmp.Ordering.TheVariants.{Less};
ghost use Rattle.board_core.specs.Board.{Board};
ghost use Rattle.board_core.specs.Kept.{IsKept};
ghost use Rattle.shogi_rules.specs.Tsume.{IsProblem};
ghost use Rattle.sfen_text.specs.Spelling.{sfen_of};
ghost use Rattle.mate_facts.specs.declared.rank.Rank.{Rank};
ghost use Rattle.mate_facts.specs.declared.rank.TheConstants.{MOST_RANK};
ghost use Rattle.cert_text.specs.Reading.{Lacks};

use board_core::{Position, Side};
use itoa::Buffer;
use mate_facts::{MOST_RANK, Rank};
use sfen_text::{append_sfen, read_sfen, sfen_laws};
use shogi_rules::{Problem, accept_problem};
use std::alloc::AllocError;
use std::cmp::Ordering;

/// What stands before the first such byte, and behind it; none where the text has no such byte.
/// Takes no memory.
pub fn cut(text: &[u8], byte: u8) -> Option<(&[u8], &[u8])>
    ensures front { IfSome result (λ parts. Lacks byte parts.0.now) }
    ensures parts { IfSome result (λ parts. text.now ≡ parts.0.now ++ byte ∷ parts.1.now) }
    ensures none { IfNone result (Lacks byte text.now) }
{
    for (i, found) in text.iter().enumerate() {
        if *found == byte {
            return Some((&text[..i], &text[i + 1..]));
        }
    }
    None
}

/// What stands behind this front; none where the text doesn't begin with it. Takes no memory.
pub fn behind<'a>(text: &'a [u8], front: &[u8]) -> Option<&'a [u8]>
    ensures found { IfSome result (λ rest. text.now ≡ front.now ++ rest.now) }
    ensures none { IfNone result ((rest : List ℕ) → text.now ≡ front.now ++ rest → ⊥) }
{
    text.strip_prefix(front)
}

/// Whether the one text comes before the other by its bytes. Takes no memory.
pub fn is_before(text: &[u8], with: &[u8]) -> bool
    ensures { IsTrue result ↔ (slice_cmp nat_cmp text.now with.now ≡ Less) }
{
    text.cmp(with) == Ordering::Less
}

// A number below 2 ^ 32 by its digits, and perhaps others.
fn value_of_text(text: &[u8]) -> Option<u32>
    ensures { (n : ℕ) → n < 2 ^ 32 → text.now ≡ decimal n → result ≡ Some n }
{
    match std::str::from_utf8(text) {
        Ok(digits) => digits.parse().ok(),
        Err(_) => None,
    }
}

fn is_decimal(text: &[u8], number: u32) -> bool
    ensures { IsTrue result ↔ (text.now ≡ decimal number) }
{
    Buffer::new().format(number).as_bytes() == text
}

/// The number from 1 to the limit whose text it is, in decimal digits without a leading zero; none
/// for any other text. Takes no memory.
pub fn number_of_text(text: &[u8], limit: u32) -> Option<u32>
    ensures from { IfSome result (λ number. 1 ≤ number) }
    ensures to { IfSome result (λ number. number ≤ limit) }
    ensures text { IfSome result (λ number. text.now ≡ decimal number) }
    ensures none { IfNone result ((number : ℕ) → 1 ≤ number → number ≤ limit → text.now
        ≡ decimal number → ⊥) }
{
    let number = value_of_text(text)?;
    if number < 1 || number > limit || !is_decimal(text, number) {
        return None;
    }
    Some(number)
}

/// The rank whose text it is, 1 to [`MOST_RANK`] in decimal digits without a leading zero; none for
/// any other text. Takes no memory.
pub fn rank_of_text(text: &[u8]) -> Option<Rank>
    ensures text { IfSome result (λ rank. text.now ≡ decimal rank.number) }
    ensures none { IfNone result ((rank : Rank) → text.now ≡ decimal rank.number → ⊥) }
{
    Rank::of(number_of_text(text, MOST_RANK)?)
}

fn is_spelled(text: &[u8], position: &Position, spelled: &mut Vec<u8>) -> Result<bool, AllocError>
    ensures { IfOk result (λ same. IsTrue same ↔ (text.now ≡ sfen_of position.now)) }
{
    spelled.clear();
    append_sfen(spelled, position)?;
    Ok(spelled.as_slice() == text)
}

// The problem whose text it is, spelled as it is written.
pub(crate) fn problem_of_text(
    text: &[u8],
    spelled: &mut Vec<u8>,
) -> Result<Option<Problem>, AllocError>
    ensures found { IfOk result (λ found. IfSome found (λ problem. text.now
        ≡ sfen_of problem.position)) }
    ensures kept { IfOk result (λ found. IfSome found (λ problem. IsKept problem.position)) }
    ensures none { IfOk result (λ found. IfNone found ((p : Board) → IsKept p → IsProblem p
        → text.now ≡ sfen_of p → ⊥)) }
{
    let Ok(position) = read_sfen(text) else {
        return Ok(None);
    };
    // What the position keeps, so that it is the only one with this text.
    position.laws();
    if !is_spelled(text, &position, spelled)? {
        return Ok(None);
    }
    match accept_problem(position) {
        Ok(problem) => Ok(Some(problem)),
        Err(_) => Ok(None),
    }
}

fn is_same(side: Side, with: Side) -> bool
    ensures { IsTrue result ↔ (side ≡ with) }
{
    side == with
}

/// The position of a problem with this side to move whose text it is, spelled as
/// [`sfen_text::write_sfen`] writes it; none for any other text. `spelled` is room to write a
/// position in: what stood there is lost. Errors: want of memory alone.
pub fn position_of_text(
    text: &[u8],
    side: Side,
    spelled: &mut Vec<u8>,
) -> Result<Option<Position>, AllocError>
    ensures found { IfOk result (λ found. IfSome found (λ p. text.now ≡ sfen_of p)) }
    ensures kept { IfOk result (λ found. IfSome found (λ p. IsKept p)) }
    ensures is_problem { IfOk result (λ found. IfSome found (λ p. IsProblem p)) }
    ensures side { IfOk result (λ found. IfSome found (λ p. p.side ≡ side)) }
    ensures none { IfOk result (λ found. IfNone found ((p : Board) → IsKept p → IsProblem p
        → p.side ≡ side → text.now ≡ sfen_of p → ⊥)) }
{
    // No other position has this text.
    sfen_laws();
    let Some(problem) = problem_of_text(text, spelled)? else {
        return Ok(None);
    };
    if !is_same(problem.attacker(), side) {
        return Ok(None);
    }
    Ok(Some(problem.position))
}
