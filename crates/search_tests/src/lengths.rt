// Shortest mates that are known.
use crate::problems::{ALONE, GOLD, ROOKS, problem};
use crate::same::same;
use search_gate::{OpenGate, QuietStop};
use search_limits::Cause;
use shortest_mate::{Finding, shortest};
use std::test::Fail;

// What is found, the number of moves or what was used up, and how many entries the bound has.
fn told(finding: &Finding) -> (&'static str, u64, usize) {
    match finding {
        Finding::Found { rank, bound, .. } => {
            ("found", u64::from(rank.number), bound.entries().len())
        }
        Finding::NoneWithin { limit, bound } => {
            ("none", u64::from(limit.number), bound.entries().len())
        }
        Finding::Unknown(Cause::Expansions(number)) => ("spent", *number, 0),
        Finding::Unknown(_) => ("unknown", 0, 0),
    }
}

#[test]
fn each_length_is_found(rt: HostRuntime) -> Result<(), Fail> {
    // A problem, the limit, the expansions, and what is found.
    let table = [
        // A gold is dropped beside the king, guarded by a pawn.
        (GOLD, 50, 100, ("found", 1, 0)),
        // Two rooks mate in two moves, and in no fewer.
        (ROOKS, 50, 1_000, ("found", 2, 1)),
        (ROOKS, 1, 1_000, ("none", 1, 1)),
        // No check at all.
        (ALONE, 3, 100, ("none", 3, 1)),
        // The first search has none, the other one.
        (ROOKS, 50, 1, ("spent", 1, 0)),
    ];
    for (text, limit, expansions, wanted) in table {
        let (found, made) = shortest(
            rt.alloc(),
            &problem(&rt, text),
            limit,
            expansions,
            &OpenGate,
            &mut QuietStop::new(),
        )?;
        same(&rt, text, told(&found), wanted);
        same(&rt, text, made <= expansions, true);
    }
    Ok(())
}
