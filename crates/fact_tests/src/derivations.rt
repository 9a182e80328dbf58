// Notes of mates and escapes that are known by the rules of shogi.
use crate::chase::Chase;
use crate::checked::{
    Unmade, ended_escape, ended_mate, escaped_all, escaped_by, mated_all, mated_by,
};
use crate::letters::{by, moved, problem};
use crate::same::same;
use board_core::{Move, Position, key};
use notes::{Conclusion, HEIGHT_LIMIT, Note, NoteEnd, Rule};
use path_tags::Path;
use shogi_rules::Problem;
use std::alloc::Global;
use std::process::Abort;
use std::test::Fail;

#[test]
fn what_depends_on_a_repetition_is_closed_where_its_position_is_passed(
    rt: HostRuntime,
) -> Result<(), Fail> {
    let alloc = rt.alloc();
    let chase = Chase::begun(&rt, alloc)?;
    let repeat = chase.repeated(alloc)?;
    let second = chase.second_escaped(alloc, &repeat)?;
    let there = chase.gone_there(alloc, &second)?;
    let first = chase.first_escaped(alloc, &there)?;
    let back = chase.gone_back(alloc, &first)?;

    let nowhere = Path::make(alloc);
    let mut through = Path::make(alloc);
    through.push(key(&chase.second))?;
    through.push(key(&chase.first))?;
    let attacker = chase.problem.attacker();
    // The note, its rule, its height, and whether it is closed.
    let rows = [
        (&repeat, Rule::EscapeRepeat(chase.back), 1, false),
        (&second, Rule::EscapeAll, 3, false),
        (&there, Rule::EscapeBy(chase.there), 4, false),
        (&first, Rule::EscapeAll, 5, true),
        (&back, Rule::EscapeBy(chase.back), 6, true),
    ];
    for (note, rule, height, closed) in rows {
        let found = (note.rule(), note.conclusion(), note.attacker());
        same(&rt, height, found, (rule, Conclusion::Escape, attacker));
        let found = (note.height(), note.is_closed());
        same(&rt, height, found, (height, closed));
        let found = (note.tag().within(&through), note.tag().within(&nowhere));
        same(&rt, height, found, (true, closed));
    }
    let found = (first.position().is_same(&chase.first), first.under().len());
    same(&rt, "first", found, (true, 4));
    Ok(())
}

#[test]
fn no_note_is_higher_than_the_limit_and_the_highest_is_dropped(
    rt: HostRuntime,
) -> Result<(), Fail> {
    let alloc = rt.alloc();
    let chase = Chase::begun(&rt, alloc)?;
    let mut back = chase.repeated(alloc)?;
    for _ in 0..1023 {
        let there = chase.gone_there(alloc, &chase.second_escaped(alloc, &back)?)?;
        back = chase.gone_back(alloc, &chase.first_escaped(alloc, &there)?)?;
    }
    let highest = chase.gone_there(alloc, &chase.second_escaped(alloc, &back)?)?;
    same(&rt, "highest", highest.height(), HEIGHT_LIMIT);
    let end = chase.first_escaped(alloc, &highest).err();
    same(&rt, "higher", end, Some(Unmade::Ended(NoteEnd::TooHigh)));

    // A hundred thousand owners come and go without going through what is under the note.
    let mut owners = Vec::new(alloc);
    for _ in 0..100_000 {
        owners.push(highest.share()?)?;
    }
    drop(owners);
    same(&rt, "under", highest.under().len(), 1);
    Ok(())
}

// A check of the first position, the king's step after it, and what a bishop has there: a check
// after which the king takes it, and one after which he steps back to the first position, with the
// bishop where it was.
#[derive(Drop)]
struct Detour {
    checked: Position,
    step: Move,
    next: Position,
    taken: Note,
    checked_again: Position,
    back: Move,
}

// The escape after a check where the king takes the bishop, which leaves no check.
fn bishop_taken(
    rt: &impl Abort,
    alloc: Global,
    problem: &Problem,
    position: &Position,
    check: &str,
    evasion: &str,
) -> Result<Note, Fail> {
    let checked = moved(rt, position, by(rt, check));
    let evasion = by(rt, evasion);
    let end = ended_escape(alloc, problem, &moved(rt, &checked, evasion))?;
    Ok(escaped_by(alloc, problem, &checked, evasion, &end)?)
}

impl Detour {
    fn begun(
        rt: &impl Abort,
        alloc: Global,
        problem: &Problem,
        there: [&str; 2],
        lost: [&str; 2],
        back: [&str; 2],
    ) -> Result<Detour, Fail> {
        let step = by(rt, there[1]);
        let checked = moved(rt, &problem.position, by(rt, there[0]));
        let next = moved(rt, &checked, step);
        Ok(Detour {
            checked,
            step,
            next,
            taken: bishop_taken(rt, alloc, problem, &next, lost[0], lost[1])?,
            checked_again: moved(rt, &next, by(rt, back[0])),
            back: by(rt, back[1]),
        })
    }

    // The escape after the check, over one from the first position.
    fn over(&self, alloc: Global, problem: &Problem, first: &Note) -> Result<Note, Unmade> {
        let mut notes = Vec::new(alloc);
        notes.push(self.taken.share()?)?;
        notes.push(escaped_by(alloc, problem, &self.checked_again, self.back, first)?)?;
        let next = escaped_all(alloc, problem, &self.next, &notes)?;
        escaped_by(alloc, problem, &self.checked, self.step, &next)
    }
}

// Each escape from the first position stands on the one before it twice, so that the last one's
// tree has more than 2 ^ 1023 paths.
#[test]
fn a_note_that_the_next_holds_twice_is_one_note(rt: HostRuntime) -> Result<(), Fail> {
    let alloc = rt.alloc();
    let problem = problem(&rt, "9/9/9/9/9/2B1k4/9/9/9 b -");
    let one = Detour::begun(
        &rt,
        alloc,
        &problem,
        ["7f6e", "5f6g"],
        ["6e5f", "6g5f"],
        ["6e7f", "6g5f"],
    )?;
    let other = Detour::begun(
        &rt,
        alloc,
        &problem,
        ["7f6g", "5f6e"],
        ["6g5f", "6e5f"],
        ["6g7f", "6e5f"],
    )?;
    let mut notes = Vec::new(alloc);
    for (check, evasion) in [("7f6e", "5f6e"), ("7f6g", "5f6g")] {
        notes.push(bishop_taken(&rt, alloc, &problem, &problem.position, check, evasion)?)?;
    }
    let mut first = escaped_all(alloc, &problem, &problem.position, &notes)?;
    same(&rt, "first", first.height(), 3);
    for _ in 0..1023 {
        let mut notes = Vec::new(alloc);
        notes.push(one.over(alloc, &problem, &first)?)?;
        notes.push(other.over(alloc, &problem, &first)?)?;
        first = escaped_all(alloc, &problem, &problem.position, &notes)?;
    }
    let found = (first.height(), first.is_closed());
    same(&rt, "last", found, (HEIGHT_LIMIT - 1, true));
    drop(first);
    Ok(())
}

// The note of a mate by a check after which there is no evasion.
fn mate_in_one(
    rt: &impl Abort,
    alloc: Global,
    problem: &Problem,
    position: &Position,
    check: &str,
) -> Result<Note, Fail> {
    let check = by(rt, check);
    let end = ended_mate(alloc, problem, &moved(rt, position, check))?;
    same(rt, check, (end.rule(), end.height()), (Rule::MateEnd, 1));
    Ok(mated_by(alloc, problem, position, check, &end)?)
}

#[test]
fn mates_have_a_height_and_no_tag(rt: HostRuntime) -> Result<(), Fail> {
    let alloc = rt.alloc();
    let gold = problem(&rt, "4k4/9/4P4/9/9/9/9/9/9 b G");
    let one = mate_in_one(&rt, alloc, &gold, &gold.position, "G*5b")?;

    let rooks = problem(&rt, "9/4k4/8R/9/9/9/9/9/9 b R");
    let drop = by(&rt, "R*9b");
    let checked = moved(&rt, &rooks.position, drop);
    let mut notes = Vec::new(alloc);
    for evasion in ["5b4a", "5b5a", "5b6a"] {
        let next = moved(&rt, &checked, by(&rt, evasion));
        notes.push(mate_in_one(&rt, alloc, &rooks, &next, "1c1a")?)?;
    }
    let all = mated_all(alloc, &rooks, &checked, &notes)?;
    let two = mated_by(alloc, &rooks, &rooks.position, drop, &all)?;
    let rows = [
        (&one, Rule::MateBy(by(&rt, "G*5b")), 2),
        (&all, Rule::MateAll, 3),
        (&two, Rule::MateBy(drop), 4),
    ];
    for (note, rule, height) in rows {
        let found = (note.rule(), note.conclusion());
        same(&rt, height, found, (rule, Conclusion::Mate));
        let found = (note.height(), note.is_closed());
        same(&rt, height, found, (height, true));
    }
    Ok(())
}
