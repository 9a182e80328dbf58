// What was read of stretches, put together.
ghost use Rattle.std.specs.Prelude.{◌≡◌, ◌≢◌, ◌++◌, ◌↔◌, [], ℕ, List, IfOk, IsTrue};
ghost use Rattle.board_core.specs.Board.{Board};
ghost use Rattle.cert_text.specs.Lines.{AreLines, IsReadOf};
ghost use Rattle.cert_text.specs.declared.lines.LinesStop.TheVariants.{NoLine};
ghost use Rattle.wide_read.specs.Stretches.{IsCutInto, IsSeam, last_behind, stop_before_more};

use cert_text::{Entry, LinesStop, ReadLines, is_before};
use sfen_text::{append_sfen, sfen_laws};
use std::alloc::{AllocError, Global};
use std::collections::VecDeque;

// Whether the first of these entries, if there is one, comes behind the SFEN text of the entry
// before it.
fn rises<E: Entry>(last: &[u8], entries: &[E], spelled: &mut Vec<u8>) -> Result<bool, AllocError>
    ensures { (problem : Board)
        → IfOk result (λ rises. IsTrue rises ↔ IsSeam (E.form problem) last.now entries.now) }
{
    let Some(entry) = entries.first() else {
        return Ok(true);
    };
    spelled.clear();
    append_sfen(spelled, entry.position())?;
    Ok(is_before(last, spelled))
}

// The SFEN text of the last entry, of those before and of these behind them.
fn last_behind<'a, E>(entries: &[E], last: &'a [u8], next: &'a [u8]) -> &'a [u8]
    ensures { result.now ≡ last_behind entries.entry.now last.entry.now next.entry.now }
{
    if entries.is_empty() { last } else { next }
}

// What was read of lines, and behind them, where no further line came, of others.
fn followed<'a, E: Entry>(
    whole: ReadLines<'a, E>,
    part: ReadLines<'a, E>,
    spelled: &mut Vec<u8>,
) -> Result<ReadLines<'a, E>, AllocError>
    ensures { (problem : Board) (before text : List ℕ) → whole.entry.stop ≡ NoLine
        → IsReadOf (E.form problem) whole.entry before → AreLines before
        → IsReadOf (E.form problem) part.entry text
        → IfOk result (λ both. IsReadOf (E.form problem) both (before ++ text)) }
{
    let ReadLines {
        mut entries,
        last,
        stop: _,
    } = whole;
    let ReadLines {
        entries: mut more,
        last: next,
        stop,
    } = part;
    if !rises(last, &more, spelled)? {
        let stop = LinesStop::NotRising;
        return Ok(ReadLines {
            entries,
            last,
            stop,
        });
    }
    let last = last_behind(&more, last, next);
    entries.append(&mut more)?;
    Ok(ReadLines {
        entries,
        last,
        stop,
    })
}

fn is_open(stop: LinesStop) -> bool
    ensures { IsTrue result ↔ (stop ≡ NoLine) }
{
    stop == LinesStop::NoLine
}

// Why the reading stops, where more comes behind the text in which it did.
fn stop_before_more(stop: LinesStop) -> LinesStop
    ensures { result ≡ stop_before_more stop }
{
    match stop {
        LinesStop::End => LinesStop::Behind,
        other => other,
    }
}

// What was read of lines and of others that come behind them: where the reading stopped in the
// first, nothing of the others counts.
fn both<'a, E: Entry>(
    whole: ReadLines<'a, E>,
    part: ReadLines<'a, E>,
    spelled: &mut Vec<u8>,
) -> Result<ReadLines<'a, E>, AllocError>
    ensures { (problem : Board) (before text : List ℕ)
        → IsReadOf (E.form problem) whole.entry before → AreLines before
        → IsReadOf (E.form problem) part.entry text → text ≢ []
        → IfOk result (λ both. IsReadOf (E.form problem) both (before ++ text)) }
{
    if is_open(whole.stop) {
        return followed(whole, part, spelled);
    }
    Ok(ReadLines {
        entries: whole.entries,
        last: whole.last,
        stop: stop_before_more(whole.stop),
    })
}

// How many entries there are in all.
fn count_of<E>(parts: &[ReadLines<'_, E>]) -> usize {
    let mut count = 0usize;
    for part in parts {
        count = count.saturating_add(part.entries.len());
    }
    count
}

/// What was read of a text, from what was read of its stretches, in their order. Each entry is
/// moved once. Errors: want of memory alone.
pub(crate) fn joined<'a, E: Entry>(
    alloc: Global,
    parts: Vec<ReadLines<'a, E>>,
) -> Result<ReadLines<'a, E>, AllocError>
    ensures { (problem : Board) (text : List ℕ)
        → IsCutInto (IsReadOf (E.form problem)) parts.entry.items text
        → IfOk result (λ whole. IsReadOf (E.form problem) whole text) }
{
    // The empty text comes before every text of a position.
    sfen_laws();
    // Room for the text of a stretch's first position.
    let mut spelled = Vec::new(alloc);
    let mut whole = ReadLines {
        entries: Vec::with_capacity(alloc, count_of(&parts))?,
        last: b"",
        stop: LinesStop::NoLine,
    };
    let mut left = VecDeque::from_vec(parts);
    while let Some(part) = left.pop_front() {
        whole = both(whole, part, &mut spelled)?;
    }
    Ok(whole)
}
