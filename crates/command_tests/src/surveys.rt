// Surveys as they were counted by another program.
use crate::same::same;
use search_pool::Tally;
use std::test::Fail;
use survey::survey;

fn counts(tallies: &[Tally]) -> (usize, usize, usize) {
    let mates = tallies
        .iter()
        .filter(|tally| **tally == Tally::Mate)
        .count();
    let others = tallies
        .iter()
        .filter(|tally| **tally == Tally::NoMate)
        .count();
    let unknown = tallies
        .iter()
        .filter(|tally| matches!(tally, Tally::Unknown(_)))
        .count();
    (mates, others, unknown)
}

#[test]
fn tallies_are_counted(rt: HostRuntime) -> Result<(), Fail> {
    // The seed, how many problems, the expansions of each, and how many are mates, are none and are
    // given up.
    let rows = [
        (0, 1, 10_000, (1, 0, 0)),
        (0, 40, 10_000, (8, 22, 10)),
        (33_469, 60, 1, (0, 0, 60)),
        (771_001_813, 50, 100, (6, 1, 43)),
    ];
    for (seed, count, expansions, wanted) in rows {
        let tallies = survey(&rt, rt.alloc(), seed, count, expansions)?;
        same(&rt, (seed, count), counts(&tallies), wanted);
    }
    Ok(())
}
