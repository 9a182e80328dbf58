// Whole searches with one worker: verdicts, and each cause.
use crate::problems::{ALONE, GOLD, ROOKS, problem, settings};
use crate::same::same;
use notes::Conclusion;
use search_gate::{MemStop, OpenGate};
use search_limits::Cause;
use search_pool::{SearchEnd, search_alone, search_alone_until};
use std::test::Fail;

// What a search ended with: what its note concludes, or the cause.
fn told(end: &SearchEnd) -> (Option<Conclusion>, Option<Cause>) {
    match end {
        SearchEnd::Solved(note) => (Some(note.conclusion()), None),
        SearchEnd::Unknown(cause, _) => (None, Some(*cause)),
    }
}

#[test]
fn a_search_alone_ends_as_it_should(rt: HostRuntime) -> Result<(), Fail> {
    let rows = [
        (GOLD, 1000, 100, (Some(Conclusion::Mate), None)),
        (ALONE, 1, 1, (Some(Conclusion::Escape), None)),
        (ROOKS, 1000, 100, (Some(Conclusion::Mate), None)),
        (ROOKS, 1, 100, (None, Some(Cause::Expansions(1)))),
        (ROOKS, 1000, 1, (None, Some(Cause::Room(1)))),
    ];
    for (text, expansions, room, wanted) in rows {
        let end = search_alone(
            rt.alloc(),
            &problem(&rt, text),
            &settings(&rt, 1, expansions, room),
        )?;
        same(&rt, (text, expansions, room), told(&end), wanted);
    }
    Ok(())
}

#[test]
fn a_stop_ends_a_search_where_it_is_signalled(rt: HostRuntime) -> Result<(), Fail> {
    let alloc = rt.alloc();
    // The problem, its visits, the poll at which the stop is signalled, and how that ends.
    let rows = [
        (ROOKS, 1000, 1, (None, Some(Cause::Stopped(1)))),
        (ALONE, 1000, 2, (Some(Conclusion::Escape), None)),
        (ROOKS, 1, 2, (None, Some(Cause::Stopped(1)))),
        (ROOKS, 1, 3, (None, Some(Cause::Expansions(1)))),
    ];
    for (text, expansions, poll, wanted) in rows {
        let mut stop = MemStop::new(vec![in alloc; poll]?);
        let end = search_alone_until(
            alloc,
            &problem(&rt, text),
            &settings(&rt, 1, expansions, 100),
            &OpenGate,
            &mut stop,
        )?;
        same(&rt, (text, expansions, poll), told(&end), wanted);
    }
    Ok(())
}
