// Several workers search from notes that are known.
ghost use Rattle.std.specs.Prelude.{IfOk, IfSome};
ghost use Rattle.unit_desk.specs.Known.{IsKnown};

use crate::crews::{quiet, told};
use crate::problems::{GOLD, ROOKS, problem, settings_of};
use crate::same::same;
use notes::{Conclusion, Note};
use search_crew::{search, search_with};
use search_gate::OpenGate;
use search_limits::Cause;
use search_pool::SearchEnd;
use shogi_rules::Problem;
use std::alloc::AllocError;
use std::process::Abort;
use std::slice;
use std::sync::Wait;
use std::test::Fail;
use std::thread::Threads;

// The mate by a gold, with a pawn more in the attacker's hand.
const GOLD_AND_PAWN: &str = "4k4/9/4P4/9/9/9/9/9/9 b GP";

// The note that a search of the mate by a gold finds, if the search of the problem may know it.
fn gold_for<R: Abort + Threads + Wait + AllocGlobal + Sync>(
    rt: &R,
    known_to: &Problem,
) -> Result<Option<Note>, AllocError>
    ensures { IfOk result (λ found. IfSome found (IsKnown known_to.now.position.side)) }
{
    let gold = problem(rt, GOLD);
    let settings = settings_of(rt, 1, 1_000, 100);
    let mut stops = quiet(rt.alloc())?;
    let SearchEnd::Solved(note) = search(rt, &gold, &settings, &OpenGate, &mut stops)? else {
        return Ok(None);
    };
    if note.is_closed() && note.attacker() == known_to.attacker() {
        return Ok(Some(note));
    }
    Ok(None)
}

#[test]
fn a_crew_answers_with_what_is_known(rt: HostRuntime) -> Result<(), Fail> {
    let mate = (Some(Conclusion::Mate), None);
    let spent = (None, Some(Cause::Expansions(1)));
    // The problem, whether the note is known, and how the search ends of which one visit is all.
    for (text, is_known, wanted) in [
        (GOLD, false, spent),
        (GOLD, true, mate),
        (GOLD_AND_PAWN, false, spent),
        (GOLD_AND_PAWN, true, mate),
        (ROOKS, true, spent),
    ] {
        for workers in [1, 2, 64] {
            let of = problem(&rt, text);
            let Some(note) = gold_for(&rt, &of)? else {
                return Err(Fail::from("no note"));
            };
            let notes: &[Note] = if is_known {
                slice::from_ref(&note)
            } else {
                &[]
            };
            let settings = settings_of(&rt, workers, 1, 100);
            let mut stops = quiet(rt.alloc())?;
            let end = search_with(&rt, &of, &settings, notes, &OpenGate, &mut stops)?;
            same(&rt, (text, is_known, workers), told(&end), wanted);
        }
    }
    Ok(())
}
