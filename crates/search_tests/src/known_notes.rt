// Searches and worlds that begin from notes that are known.
ghost use Rattle.std.specs.Prelude.{IfOk, IfSome};
ghost use Rattle.unit_desk.specs.Known.{IsKnown};

use crate::problems::{GOLD, ROOKS, problem, settings};
use crate::same::same;
use board_core::{Key, key};
use lone_port::LonePort;
use notes::{Conclusion, Note, Rule, Seen};
use path_tags::Path;
use search_gate::{MemStop, OpenGate};
use search_limits::Cause;
use search_pool::{SearchEnd, search_alone, search_filled_until};
use shogi_rules::Problem;
use std::alloc::{AllocError, Global};
use std::process::Abort;
use std::slice;
use std::test::Fail;
use worker_core::Port;
use world_play::World;

// The mate by a gold, with a pawn more in the attacker's hand.
const GOLD_AND_PAWN: &str = "4k4/9/4P4/9/9/9/9/9/9 b GP";

// The note that a search of the mate by a gold finds, if the search of the problem may know it.
fn gold_for(rt: &impl Abort, alloc: Global, known_to: &Problem) -> Result<Option<Note>, AllocError>
    ensures { IfOk result (λ found. IfSome found (IsKnown known_to.now.position.side)) }
{
    let gold = problem(rt, GOLD);
    let SearchEnd::Solved(note) = search_alone(alloc, &gold, &settings(rt, 1, 1000, 100))? else {
        return Ok(None);
    };
    if note.is_closed() && note.attacker() == known_to.attacker() {
        return Ok(Some(note));
    }
    Ok(None)
}

// What is posted in a world, in short.
fn posted(world: &World) -> Option<(Rule, u32)> {
    world.posted().map(|note| (note.rule(), note.height()))
}

#[test]
fn a_note_is_posted_where_it_reaches_the_problem(rt: HostRuntime) -> Result<(), Fail> {
    let alloc = rt.alloc();
    // The problem, and whether the note is posted as it is, carried, or not at all.
    for (text, is_posted, is_carried) in [
        (GOLD, true, false),
        (GOLD_AND_PAWN, true, true),
        (ROOKS, false, false),
    ] {
        let of = problem(&rt, text);
        let Some(note) = gold_for(&rt, alloc, &of)? else {
            return Err(Fail::from("no note"));
        };
        let rule = if is_carried {
            Rule::Carry(Conclusion::Mate)
        } else {
            note.rule()
        };
        let wanted = if is_posted { Some((rule, 2)) } else { None };
        let world = World::make_filled(
            alloc,
            &of,
            &settings(&rt, 2, 1, 1),
            slice::from_ref(&note),
        )?;
        same(&rt, text, posted(&world), wanted);
        same(&rt, text, (world.drawn(), world.claimed()), (0, 0));
    }
    Ok(())
}

// What a table shows of a key, in short.
fn shown(port: &mut LonePort, of: &Key, path: &Path) -> Result<&'static str, AllocError> {
    Ok(match port.look(of, path)? {
        Seen::New => "new",
        Seen::Open { .. } => "open",
        Seen::Solved(_) => "solved",
        Seen::Lent(_) => "lent",
    })
}

#[test]
fn a_note_of_another_position_stands_in_its_row(rt: HostRuntime) -> Result<(), Fail> {
    let alloc = rt.alloc();
    let rooks = problem(&rt, ROOKS);
    let Some(note) = gold_for(&rt, alloc, &rooks)? else {
        return Err(Fail::from("no note"));
    };
    let mut port = LonePort::make_filled(
        alloc,
        &rooks,
        &settings(&rt, 1, 1, 1),
        slice::from_ref(&note),
    )?;
    same(&rt, "posted", port.posted().is_some(), false);
    let path = Path::make(alloc);
    for (text, wanted) in [(GOLD, "solved"), (GOLD_AND_PAWN, "lent"), (ROOKS, "new")] {
        let found = shown(&mut port, &key(&problem(&rt, text).position), &path)?;
        same(&rt, text, found, wanted);
    }
    Ok(())
}

// What a search ended with: what its note concludes, or the cause.
fn told(end: &SearchEnd) -> (Option<Conclusion>, Option<Cause>) {
    match end {
        SearchEnd::Solved(note) => (Some(note.conclusion()), None),
        SearchEnd::Unknown(cause, _) => (None, Some(*cause)),
    }
}

#[test]
fn a_search_is_solved_by_what_is_known(rt: HostRuntime) -> Result<(), Fail> {
    let alloc = rt.alloc();
    let mate = (Some(Conclusion::Mate), None);
    let spent = (None, Some(Cause::Expansions(1)));
    // The problem, whether the note is known, at which poll a stop is signalled, and how the search
    // ends of which one visit is all.
    for (text, is_known, poll, wanted) in [
        (GOLD, false, 9, spent),
        (GOLD, true, 9, mate),
        (GOLD, true, 1, mate),
        (GOLD_AND_PAWN, false, 9, spent),
        (GOLD_AND_PAWN, true, 9, mate),
        (ROOKS, true, 9, spent),
        (ROOKS, true, 1, (None, Some(Cause::Stopped(1)))),
    ] {
        let of = problem(&rt, text);
        let Some(note) = gold_for(&rt, alloc, &of)? else {
            return Err(Fail::from("no note"));
        };
        let notes = if is_known {
            slice::from_ref(&note)
        } else {
            &[]
        };
        let mut stop = MemStop::new(vec![in alloc; poll]?);
        let end = search_filled_until(
            alloc,
            &of,
            &settings(&rt, 1, 1, 100),
            notes,
            &OpenGate,
            &mut stop,
        )?;
        same(&rt, (text, is_known, poll), told(&end), wanted);
    }
    Ok(())
}
