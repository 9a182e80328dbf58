// Texts as bounds.
ghost use Rattle.std.specs.Prelude.{◌≡◌, ◌+◌, ◌<◌, ◌^◌, ◌↔◌, ℕ, List, IsTrue, IfSome, IfNone, codes};
ghost use Rattle.std.specs.Fmt.{decimal};
ghost use Rattle.std.specs.Str.Parse.{AllDigits};
ghost use Rattle.cert_text.specs.Certificate.{CertificateView};
ghost use Rattle.bound_text.specs.declared.entry.BoundEntry.{BoundEntry};
ghost use Rattle.bound_text.specs.Text.{bound_text};
ghost use Rattle.bound_text.specs.Reading.{IsNumber, IsHead, HasNoHead, IsReadable, IsBoundOutcome, IsReadAs, IsFaultAs, HasFirstFault};
ghost use Rattle.bound_text.specs.Scan.{IsEntriesOutcome, IsEndOutcome};

use crate::{BadBound, Bound, BoundEnd, BoundEntry};
use cert_text::{Entry, behind, cut, is_before};
use hand_dominance::Version;
use itoa::Buffer;
use sfen_text::sfen_laws;
use shogi_rules::Problem;
use std::alloc::Global;

fn are_digits(text: &[u8]) -> bool
    ensures { IsTrue result ↔ AllDigits 10 text.now }
{
    for byte in text {
        if *byte < b'0' || *byte > b'9' {
            return false;
        }
    }
    true
}

// Whether it is a number without a leading zero, however great.
fn is_number(text: &[u8]) -> bool
    ensures { IsTrue result ↔ IsNumber text.now }
{
    if text.is_empty() {
        return false;
    }
    if text[0] == b'0' && text.len() > 1 {
        return false;
    }
    are_digits(text)
}

fn is_decimal(text: &[u8], number: usize) -> bool
    ensures { IsTrue result ↔ (text.now ≡ decimal number) }
{
    Buffer::new().format(number).as_bytes() == text
}

// The digits of the number of entries in the first line of a bound, and what stands behind that
// line.
fn head_of(text: &[u8]) -> Option<(&[u8], &[u8])>
    ensures found { IfSome result (λ parts. IsHead parts.0.now parts.1.now text.now) }
    ensures none { IfNone result (HasNoHead text.now) }
{
    let Some((first, rest)) = cut(text, b'\n') else {
        return None;
    };
    let Some(digits) = behind(first, b"bound 1 ") else {
        return None;
    };
    if !is_number(digits) {
        return None;
    }
    Some((digits, rest))
}

// What is wrong behind so many entries, where they are all.
fn end_of(text: &[u8], count: usize) -> Result<(), BadBound>
    requires { count + 2 < 2 ^ 64 }
    ensures { IsEndOutcome count text.now result }
{
    let Some(more) = behind(text, b"end\n") else {
        return Err(BadBound {
            line: count as u64 + 1,
        });
    };
    if !more.is_empty() {
        return Err(BadBound {
            line: count as u64 + 2,
        });
    }
    Ok(())
}

// The entries in the lines behind a head that tells their number, up to the line `end`.
fn entries_of(
    alloc: Global,
    text: &[u8],
    problem: &Problem,
    digits: &[u8],
    spelled: &mut Vec<u8>,
) -> Result<Vec<BoundEntry>, BoundEnd>
    requires { IsNumber digits.now }
    ensures { IsEntriesOutcome (λ entries. entries.items) problem.now.position digits.now text.now
        result }
{
    // The empty text comes before every text of a position.
    sfen_laws();
    let mut entries = Vec::new(alloc);
    let mut last: &[u8] = b"";
    let mut rest = text;
    while !is_decimal(digits, entries.len()) {
        let number = entries.len() as u64 + 1;
        let Some((line, more)) = cut(rest, b'\n') else {
            return Err(BoundEnd::Fault(BadBound { line: number }));
        };
        let (entry, sfen) = match BoundEntry::of_line(line, problem, spelled) {
            Ok(Some(read)) => read,
            Ok(None) => return Err(BoundEnd::Fault(BadBound { line: number })),
            Err(_) => return Err(BoundEnd::NoMemory),
        };
        if !is_before(last, sfen) {
            return Err(BoundEnd::Fault(BadBound { line: number }));
        }
        entries.push(entry)?;
        last = sfen;
        rest = more;
    }
    end_of(rest, entries.len())?;
    Ok(entries)
}

fn bound_of(alloc: Global, bytes: &[u8], problem: &Problem) -> Result<Bound, BoundEnd>
    ensures { IsBoundOutcome problem.now.position bytes.now result }
{
    let Some((digits, rest)) = head_of(bytes) else {
        return Err(BoundEnd::Fault(BadBound { line: 0 }));
    };
    // Room for each position's text, in which it is written for the comparison.
    let mut spelled = Vec::new(alloc);
    let entries = entries_of(alloc, rest, problem, digits, &mut spelled)?;
    Ok(Bound::new(Version::One, *problem, entries))
}

/// The bound whose text it is (version 1, as [`write_bound`](crate::write_bound) writes it), for a
/// problem, whose side to move is that of each listed position. It may have any number of entries,
/// also none.
///
/// For any other text the first line that is wrong ([`BadBound`]). Errors: want of memory alone.
/// Reads a line after the other, and keeps what it reads in a vector that doubles.
pub fn read_bound(alloc: Global, bytes: &[u8], problem: &Problem) -> Result<Bound, BoundEnd>
    ensures exact { IsBoundOutcome problem.now.position bytes.now result }
    // Each bound that can be read for the problem is, from its text, unless memory is wanted.
    ensures again { (b : CertificateView BoundEntry) → IsReadable problem.now.position b
        → bytes.now ≡ bound_text b → IsReadAs b result }
    // No text has two first faults, or one and a bound.
    ensures only { (line : ℕ) → HasFirstFault problem.now.position bytes.now line
        → IsFaultAs line result }
{
    // No two positions have one text.
    sfen_laws();
    bound_of(alloc, bytes, problem)
}
