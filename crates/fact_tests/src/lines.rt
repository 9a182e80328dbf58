// Lines of moves from a problem, and the words of what is told along them.
use crate::cooks::{PROBLEM, report_of};
use crate::letters::{by, problem};
use crate::same::same;
use cook_line::{LineEnd, Stage, has_unknown, line_word, read_line};
use cook_report::Word;
use std::alloc::Global;
use std::process::Abort;
use std::test::Fail;

#[test]
fn a_line_is_read_as_checks_and_evasions_or_its_first_bad_move_told(
    rt: HostRuntime,
) -> Result<(), Fail> {
    let asked = problem(&rt, PROBLEM);
    for (text, wanted) in [
        ("1c2a+", Ok(1)),
        ("1c2a+ 1a1b", Ok(2)),
        ("1c2a+ 1a1b 2d2c", Ok(3)),
        ("3b2a+ 1a1b", Ok(2)),
        // No text, or none of a move; spaces too many.
        ("", Err(1)),
        (" ", Err(1)),
        ("x", Err(1)),
        ("1c2a+  1a1b", Err(2)),
        (" 1c2a+", Err(1)),
        ("1c2a+ ", Err(2)),
        ("1c2a+\t1a1b", Err(1)),
        ("1c2a+ 1a1b\n", Err(2)),
        // A knight that could never move again, a gold that gives no check, the defender's move.
        ("1c2a", Err(1)),
        ("2d2c", Err(1)),
        ("1a1b", Err(1)),
        // The knight is covered; a check that the attacker makes twice; a move behind the mate.
        ("1c2a+ 1a2a", Err(2)),
        ("1c2a+ 2d2c", Err(2)),
        ("1c2a+ 1a1b 2d1c", Ok(3)),
        ("1c2a+ 1a1b 2d2c 1b1c", Err(4)),
    ] {
        let found = match read_line(rt.alloc(), &asked, text.as_bytes()) {
            Ok(moves) => Ok(moves.len()),
            Err(LineEnd::BadMove(number)) => Err(number),
            Err(LineEnd::NoMemory) => return Err(Fail::from("no memory")),
        };
        same(&rt, text, found, wanted);
    }
    Ok(())
}

// A stage by a letter for whether there is an evasion to the knight's check, which is the line's,
// and letters for the lines of its report.
fn stage_of(rt: &impl Abort, alloc: Global, letters: &str) -> Result<Stage, Fail> {
    let (evaded, lines) = match letters.strip_prefix("-") {
        Some(lines) => (false, lines),
        None => (true, letters),
    };
    Ok(Stage {
        check: by(rt, "1c2a+"),
        evaded,
        report: report_of(rt, alloc, lines)?,
    })
}

#[test]
fn a_line_is_sound_where_each_check_that_has_an_evasion_mates_alone(
    rt: HostRuntime,
) -> Result<(), Fail> {
    for (letters, word, unknown) in [
        ("me", Word::Sound, false),
        ("em em", Word::Sound, false),
        // Another check mates, and perhaps the line's, or it isn't known whether it does.
        ("ms", Word::Cooked, false),
        ("es", Word::Cooked, false),
        ("us", Word::Cooked, true),
        ("me ms", Word::Cooked, false),
        ("ms v e", Word::Cooked, true),
        // No more is known of a check.
        ("mv", Word::Open, true),
        ("me u", Word::Open, true),
        ("e v", Word::Open, true),
        ("e", Word::NoMate, false),
        ("me e me", Word::NoMate, false),
        // There is no evasion to the line's check.
        ("-ms", Word::Sound, false),
        ("-e", Word::Sound, false),
        ("-mv", Word::Open, true),
        ("me -ms", Word::Sound, false),
        ("ms -me", Word::Cooked, false),
    ] {
        let mut stages = Vec::new(rt.alloc());
        for part in letters.split(' ') {
            stages.push(stage_of(&rt, rt.alloc(), part)?)?;
        }
        same(&rt, letters, line_word(&stages), word);
        same(&rt, letters, has_unknown(&stages), unknown);
    }
    Ok(())
}
