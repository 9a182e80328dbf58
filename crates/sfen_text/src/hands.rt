// The hands field of a text.
ghost use Rattle.std.specs.Prelude.{◌≡◌, ◌≢◌, ◌≤◌, ◌<◌, ◌+◌, ◌^◌, length, slice_set, IsTrue, false};
ghost use Rattle.bit_boards.specs.Kind.{place_of};
ghost use Rattle.bit_boards.specs.declared.piece.Kind.TheVariants.{King};
ghost use Rattle.sfen_text.specs.Hands.{items, hands_with, hands_of, empty_hand, IsCountSoFar, IsItemRead};
ghost use Rattle.sfen_text.specs.Reading.{Gives};
ghost use Rattle.sfen_text.specs.Bytes.{is_digit};

use crate::TextFault;
use crate::pieces::piece_of;
use board_core::{Hand, Kind, Side};

// What was read so far: the hands, and of the item that is being read where it begins and the value
// of its digits, where there are any.
#[derive(Clone, Copy)]
struct Holding {
    start: usize,
    count: Option<u8>,
    black: Hand,
    white: Hand,
}

fn with_count(hand: Hand, kind: Kind, count: u8) -> Hand
    requires { kind ≢ King }
    ensures { result ≡ slice_set hand (place_of kind) count }
{
    let mut counts = hand.counts();
    counts[kind.place() as usize] = count;
    Hand::of(counts)
}

// Reads one more byte, a digit.
#[tactic(auto, unfolding(crate::specs::Hands::items, crate::specs::Hands::hands_with))]
fn take_digit(holding: Holding, byte: u8, at: usize) -> Result<Holding, TextFault>
    requires digit { IsTrue (is_digit byte) }
    requires count { IsCountSoFar holding.count }
    ensures { IsItemRead holding byte at result }
{
    let count = 10 * holding.count.unwrap_or(0) + (byte - b'0');
    if count == 0 || count > Kind::Pawn.total() {
        return Err(TextFault::BadHand(holding.start));
    }
    Ok(Holding {
        count: Some(count),
        ..holding
    })
}

// Reads one more byte, the letter at the end of an item.
#[tactic(auto, unfolding(crate::specs::Hands::items, crate::specs::Hands::hands_with))]
fn take_letter(holding: Holding, byte: u8, at: usize) -> Result<Holding, TextFault>
    requires digit { is_digit byte ≡ false }
    requires next { at + 1 < 2 ^ 64 }
    ensures { IsItemRead holding byte at result }
{
    let Some(piece) = piece_of(byte) else {
        return Err(TextFault::BadHand(holding.start));
    };
    if piece.kind == Kind::King {
        return Err(TextFault::BadHand(holding.start));
    }
    let count = holding.count.unwrap_or(1);
    let hand = match piece.side {
        Side::Black => holding.black,
        Side::White => holding.white,
    };
    if hand.count(piece.kind) > 0 {
        return Err(TextFault::HandTwice(at));
    }
    let hand = with_count(hand, piece.kind, count);
    let (black, white) = match piece.side {
        Side::Black => (hand, holding.white),
        Side::White => (holding.black, hand),
    };
    Ok(Holding {
        start: at + 1,
        count: None,
        black,
        white,
    })
}

// Reads one more byte.
fn take_byte(holding: Holding, byte: u8, at: usize) -> Result<Holding, TextFault>
    requires next { at + 1 < 2 ^ 64 }
    requires count { IsCountSoFar holding.count }
    ensures { IsItemRead holding byte at result }
{
    if byte.is_ascii_digit() {
        take_digit(holding, byte, at)
    } else {
        take_letter(holding, byte, at)
    }
}

#[tactic(auto, unfolding(crate::specs::Hands::items, crate::specs::Hands::hands_with))]
fn items_of(text: &[u8], at: usize) -> Result<(Hand, Hand), TextFault>
    requires { at + length text.now < 2 ^ 64 }
    ensures { Gives (λ hands. (hands.0, hands.1)) result
        (hands_with empty_hand empty_hand (items at None at text.now)) }
{
    let mut holding = Holding {
        start: at,
        count: None,
        black: Hand::empty(),
        white: Hand::empty(),
    };
    let mut here = at;
    for byte in text {
        holding = take_byte(holding, *byte, here)?;
        here += 1;
    }
    if holding.count.is_some() {
        return Err(TextFault::BadHand(holding.start));
    }
    Ok((holding.black, holding.white))
}

#[tactic(auto, unfolding(crate::specs::Hands::hands_of))]
// The hands of their field, Black's first.
pub fn hands_of(text: &[u8], at: usize) -> Result<(Hand, Hand), TextFault>
    requires { at + length text.now < 2 ^ 64 }
    ensures { Gives (λ hands. (hands.0, hands.1)) result (hands_of at text.now) }
{
    match text {
        [] => Err(TextFault::BadHand(at)),
        [b'-'] => Ok((Hand::empty(), Hand::empty())),
        _ => items_of(text, at),
    }
}
