// The pieces in hand.
ghost use Rattle.std.specs.Prelude.{◌≡◌, ◌≢◌, ◌<◌, ◌++◌, ◌∷◌, [], slice_set, length, List, ℕ, Some};
ghost use Rattle.std.specs.Str.{chars, IsUtf8};
ghost use Rattle.bit_boards.specs.Kind.{place_of};
ghost use Rattle.bit_boards.specs.declared.piece.Kind.TheVariants.{King};
ghost use Rattle.kif_text.specs.Words.{words, some_of, word_kind, word_count, hand_with, fault_of};
ghost use Rattle.kif_text.specs.Steps.{IsHandRead, IsWordRead};

use crate::KifFault;
use crate::characters::{count_of, kind_of, split_first};
use board_core::{Hand, Kind};

fn with_count(hand: Hand, kind: Kind, count: u8) -> Hand
    requires { kind ≢ King }
    ensures { result ≡ slice_set hand (place_of kind) count }
{
    let mut counts = hand.counts();
    counts[kind.place() as usize] = count;
    Hand::of(counts)
}

// What stands before the first blank, and what stands behind it.
fn cut_word(text: &str) -> (&str, &str)
    requires { 0 < length text.now }
    ensures words { words (chars text.now)
        ≡ some_of (chars result.0.now ∷ []) ++ words (chars result.1.now) }
    ensures shorter { length result.1.now < length text.now }
    ensures word { IsUtf8 result.0.now }
    ensures rest { IsUtf8 result.1.now }
{
    match text.split_once([' ', '\u{3000}']) {
        Some(cut) => cut,
        None => (text, ""),
    }
}

// The hand with one more item.
fn take_item(hand: Hand, item: &str, line: usize) -> Result<Hand, KifFault>
    ensures { (before : List (List ℕ)) → hand ≡ hand_with before
        → IsWordRead line before (chars item.now) result }
{
    let Some((first, rest)) = split_first(item) else {
        return Err(KifFault::BadHand(line));
    };
    let Some(kind) = kind_of(first) else {
        return Err(KifFault::BadHand(line));
    };
    if hand.count(kind) > 0 {
        return Err(KifFault::HandTwice(line));
    }
    let Some(count) = count_of(rest) else {
        return Err(KifFault::BadCount(line));
    };
    Ok(with_count(hand, kind, count))
}

// The hand of a text in this line.
pub fn hand_of(text: &str, line: usize) -> Result<Hand, KifFault>
    ensures { IsHandRead line text.now result }
{
    let mut hand = Hand::empty();
    if text == "なし" {
        return Ok(hand);
    }
    let mut rest = text;
    while !rest.is_empty() {
        let (item, behind) = cut_word(rest);
        if !item.is_empty() {
            hand = take_item(hand, item, line)?;
        }
        rest = behind;
    }
    Ok(hand)
}
