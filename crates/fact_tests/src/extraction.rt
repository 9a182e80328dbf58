// Notes of mates and escapes that are known by the rules of shogi, and the texts of their
// certificates.
use crate::chase::Chase;
use crate::checked::{Unmade, carried, ended_escape, ended_mate, mated_all, mated_by};
use crate::letters::{by, moved, problem};
use crate::same::{same, shown};
use crate::texts::{CHASE, MATE_IN_ONE};
use board_core::Position;
use cert_extract::{ExtractEnd, extract};
use cert_text::write_cert;
use evasions::answers;
use hand_dominance::Version;
use notes::{Conclusion, Note, Rule};
use shogi_rules::Problem;
use std::alloc::Global;
use std::process::Abort;
use std::test::Fail;

// The problem is met again below: there one rook mates it at once.
const ROOKS_AGAIN: &str =
    "certificate 1 mate 8\nproblem 4k4/R8/8R/9/9/9/9/9/9 b -\n1 1c1a 2k6/R8/8R/9/9/9/9/9/9 b -\n1 1c1a 3k5/R8/8R/9/9/9/9/9/9 b -\n1 1c1a 4k4/R8/8R/9/9/9/9/9/9 b -\n1 1c1a 5k3/R8/8R/9/9/9/9/9/9 b -\n1 1c1a 6k2/R8/8R/9/9/9/9/9/9 b -\n2 9a9b R8/3k5/8R/9/9/9/9/9/9 b -\n2 9a9b R8/4k4/8R/9/9/9/9/9/9 b -\n2 9a9b R8/5k3/8R/9/9/9/9/9/9 b -\nend\n";

// What stands for the text of a certificate with more entries than asked for at most.
pub(crate) const TOO_MANY: &str = "too many";

// The text of the certificate of so many entries at most that a note is extracted to; nothing,
// where it isn't closed or isn't about the problem.
pub(crate) fn text_of(
    alloc: Global,
    problem: &Problem,
    note: &Note,
    most: usize,
) -> Result<Vec<u8>, Fail> {
    if !note.is_closed() {
        return Ok(Vec::new(alloc));
    }
    if !note.position().is_same(&problem.position) {
        return Ok(Vec::new(alloc));
    }
    if note.attacker() != problem.attacker() {
        return Ok(Vec::new(alloc));
    }
    match extract(alloc, problem, note, most) {
        Ok(certificate) => Ok(write_cert(alloc, &certificate)?),
        Err(ExtractEnd::TooMany) => Ok(Vec::from_slice(alloc, TOO_MANY.as_bytes())?),
        Err(ExtractEnd::NoMemory) => Err(Fail::from(ExtractEnd::NoMemory)),
    }
}

#[test]
fn the_rook_chase_is_listed_with_both_its_positions(rt: HostRuntime) -> Result<(), Fail> {
    let alloc = rt.alloc();
    let chase = Chase::begun(&rt, alloc)?;
    // The second position is an escape back to the first.
    let second = chase.second_escaped(alloc, &chase.repeated(alloc)?)?;
    let there = chase.gone_there(alloc, &second)?;
    let note = chase.first_escaped(alloc, &there)?;
    for (most, wanted) in [(5, TOO_MANY), (6, CHASE)] {
        let text = text_of(alloc, &chase.problem, &note, most)?;
        let found = (note.height(), shown(&text));
        same(&rt, ("chase", most), found, (5, wanted));
    }
    Ok(())
}

// The note of a mate by these checks, one after the other, whatever the evasions.
fn mated(
    rt: &impl Abort,
    alloc: Global,
    problem: &Problem,
    position: &Position,
    checks: &[&str],
) -> Result<Note, Fail> {
    let Some((check, rest)) = checks.split_first() else {
        return Err(Fail::from("no check is left"));
    };
    let check = by(rt, check);
    let checked = moved(rt, position, check);
    let mut notes = Vec::new(alloc);
    for evasion in answers(alloc, problem, &checked)?.as_slice() {
        notes.push(mated(rt, alloc, problem, &moved(rt, &checked, *evasion), rest)?)?;
    }
    let below = if notes.is_empty() {
        ended_mate(alloc, problem, &checked)?
    } else {
        mated_all(alloc, problem, &checked, &notes)?
    };
    Ok(mated_by(alloc, problem, position, check, &below)?)
}

#[test]
fn a_mate_is_listed_with_the_least_height_that_is_met(rt: HostRuntime) -> Result<(), Fail> {
    let alloc = rt.alloc();
    let gold = problem(&rt, "4k4/9/4P4/9/9/9/9/9/9 b G");
    let note = mated(&rt, alloc, &gold, &gold.position, &["G*5b"])?;
    for (most, wanted) in [(0, TOO_MANY), (1, MATE_IN_ONE)] {
        let text = text_of(alloc, &gold, &note, most)?;
        let found = (note.height(), shown(&text));
        same(&rt, ("gold", most), found, (2, wanted));
    }

    let rooks = problem(&rt, "4k4/R8/8R/9/9/9/9/9/9 b -");
    let checks = ["9b9a", "9a9b", "1c1a"];
    let note = mated(&rt, alloc, &rooks, &rooks.position, &checks)?;
    for (most, wanted) in [(7, TOO_MANY), (8, ROOKS_AGAIN)] {
        let text = text_of(alloc, &rooks, &note, most)?;
        let found = (note.height(), shown(&text));
        same(&rt, ("rooks", most), found, (6, wanted));
    }
    Ok(())
}

// Notes that are carried to another hand, and the texts of their certificates.
const CARRIED_MATE: &str =
    "certificate 2 mate 1\nproblem 4k4/9/4P4/9/9/9/9/9/9 b GP\n1 G*5b 4k4/9/4P4/9/9/9/9/9/9 b G\nend\n";

const CARRIED_TWICE: &str =
    "certificate 2 mate 1\nproblem 4k4/9/4P4/9/9/9/9/9/9 b G2P\n1 G*5b 4k4/9/4P4/9/9/9/9/9/9 b G\nend\n";

const OVER_CARRIED: &str =
    "certificate 2 mate 1\nproblem 4k4/9/4P4/9/9/9/9/9/9 b GP\n1 G*5b 4k4/9/4P4/9/9/9/9/9/9 b GP\nend\n";

const CARRIED_ESCAPE: &str =
    "certificate 2 escape 1\nproblem 4k4/9/9/9/4P4/9/9/9/9 b -\n4k4/9/9/9/4P4/9/9/9/9 b P\nend\n";

// The note of the problem, carried to others one after the other.
fn carried_on(
    rt: &impl Abort,
    alloc: Global,
    note: Note,
    problems: &[&str],
) -> Result<Note, Unmade> {
    let mut last = note;
    for text in problems {
        let to = problem(rt, *text);
        last = carried(alloc, &to, &to.position, &last)?;
    }
    Ok(last)
}

#[test]
fn a_carried_note_lists_the_position_that_it_was_carried_from(rt: HostRuntime) -> Result<(), Fail> {
    let alloc = rt.alloc();
    let gold = problem(&rt, "4k4/9/4P4/9/9/9/9/9/9 b G");
    let mate = mated(&rt, alloc, &gold, &gold.position, &["G*5b"])?;
    let pawn = problem(&rt, "4k4/9/9/9/4P4/9/9/9/9 b P");
    let escape = ended_escape(alloc, &pawn, &pawn.position)?;
    let once = ["4k4/9/4P4/9/9/9/9/9/9 b GP"];
    let twice = [once[0], "4k4/9/4P4/9/9/9/9/9/9 b G2P"];
    let fewer = ["4k4/9/9/9/4P4/9/9/9/9 b -"];
    let cases = [
        (&mate, once.as_slice(), CARRIED_MATE),
        (&mate, twice.as_slice(), CARRIED_TWICE),
        (&escape, fewer.as_slice(), CARRIED_ESCAPE),
    ];
    for (note, way, wanted) in &cases {
        let made = carried_on(&rt, alloc, note.share()?, way)?;
        let last = way.last().unwrap_or(&"");
        let text = text_of(alloc, &problem(&rt, *last), &made, 1)?;
        same(&rt, ("text", last), shown(&text), *wanted);
        same(&rt, ("version", last), made.version(), Version::Two);
        let found = (made.height(), made.source().version());
        same(&rt, ("source", last), found, (note.height(), Version::One));
    }
    let refused = [
        (&mate, "4k4/9/4P4/9/9/9/9/9/9 b P"),
        (&mate, "4k4/9/4P4/9/9/9/9/9/9 b Gp"),
        (&escape, "4k4/9/9/9/4P4/9/9/9/9 b 2P"),
        (&escape, "4k4/9/4P4/9/9/9/9/9/9 b -"),
    ];
    for (note, to) in &refused {
        let end = carried_on(&rt, alloc, note.share()?, &[*to]).err();
        same(&rt, to, end, Some(Unmade::Unmet));
    }
    Ok(())
}

// The defender's position is carried: what is listed stands for itself, and the tree for version 2.
#[test]
fn a_mate_over_a_carried_note_is_of_version_2(rt: HostRuntime) -> Result<(), Fail> {
    let alloc = rt.alloc();
    let drop = by(&rt, "G*5b");
    let gold = problem(&rt, "4k4/9/4P4/9/9/9/9/9/9 b G");
    let end = ended_mate(alloc, &gold, &moved(&rt, &gold.position, drop))?;
    let more = problem(&rt, "4k4/9/4P4/9/9/9/9/9/9 b GP");
    let below = carried(alloc, &more, &moved(&rt, &more.position, drop), &end)?;
    let note = mated_by(alloc, &more, &more.position, drop, &below)?;
    let text = text_of(alloc, &more, &note, 1)?;
    same(
        &rt,
        "over",
        (note.height(), shown(&text)),
        (2, OVER_CARRIED),
    );
    same(&rt, "rule", below.rule(), Rule::Carry(Conclusion::Mate));
    Ok(())
}
