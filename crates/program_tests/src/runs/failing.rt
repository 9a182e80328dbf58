// Runs whose source or sink fails.
use super::examples::{GOLD, GOLD_TEXT, MANY, MANY_TEXT};
use super::seen::seen_of;
use crate::same::same;
use std::process::Abort;
use std::sync::Wait;
use std::test::Fail;
use std::thread::Threads;

// Words, an input, and the whole answer.
const ONE: (&str, &str, &str) = ("solve", GOLD, GOLD_TEXT);

const ALL: (&str, &str, &str) = ("collection", MANY, MANY_TEXT);

// A run whose source and sink, of such pieces, fail at the calls of these numbers, 0 for none, ends
// with this status, and the sink has kept the answer to this place. Only where the source failed
// there is no answer.
fn cut<R: Abort + Threads + Wait + AllocGlobal + Sync>(
    rt: &R,
    run: (&str, &str, &str),
    source: (usize, u64),
    sink: (usize, u64),
    status: u8,
    kept: usize,
) -> Result<(), Fail> {
    let (words, input, answer) = run;
    let fault = match status {
        4 => "read fault",
        5 => "write fault",
        _ => "",
    };
    let row = (words, source, sink);
    let seen = seen_of(rt, words, input, source, sink)?;
    same(rt, row, (seen.status, seen.fault.as_str()), (status, fault));
    same(
        rt,
        row,
        (seen.answered, seen.kept.len()),
        (status != 4, kept),
    );
    same(rt, row, answer.starts_with(seen.kept.as_str()), true);
    Ok(())
}

#[test]
fn an_outside_that_fails_at_any_call_is_told(rt: HostRuntime) -> Result<(), Fail> {
    // The problem's 28 bytes come in four reads and are known to be all by a fifth.
    for call in 1..9u64 {
        let (status, kept) = if call <= 5 { (4, 0) } else { (0, 107) };
        cut(&rt, ONE, (7, call), (11, 0), status, kept)?;
    }
    // The answer's 107 bytes go in ten writes of 11.
    for call in 1..13u64 {
        let (status, kept) = if call <= 10 {
            (5, 11 * (call as usize - 1))
        } else {
            (0, 107)
        };
        cut(&rt, ONE, (7, 0), (11, call), status, kept)?;
    }
    // In larger pieces.
    cut(&rt, ONE, (7, 1), (10, 0), 4, 0)?;
    cut(&rt, ONE, (7, 2), (10, 0), 4, 0)?;
    cut(&rt, ONE, (7, 0), (10, 2), 5, 10)?;
    cut(&rt, ONE, (7, 0), (10, 1), 5, 0)
}

#[test]
fn a_collection_that_is_cut_short_has_kept_a_prefix(rt: HostRuntime) -> Result<(), Fail> {
    // How much the sink has kept when it fails at its first call, its second, and so on: pieces of
    // 11 bytes, and the ends of lines.
    let kept = [0, 11, 12, 23, 34, 45, 56, 57, 68, 79, 90, 101];
    for (calls, kept) in kept.into_iter().enumerate() {
        let call = calls as u64 + 1;
        cut(&rt, ALL, (7, 0), (11, call), 5, kept)?;
    }
    let reads = MANY.len().div_ceil(7) as u64;
    for call in 1..=reads + 1 {
        cut(&rt, ALL, (7, call), (11, 0), 4, 0)?;
    }
    Ok(())
}
