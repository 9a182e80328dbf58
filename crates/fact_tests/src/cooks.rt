// Cook reports: certificates of mates joined, reports that are valid and that aren't, and words.
ghost use Rattle.std.specs.Prelude.{◌≡◌, IsTrue, Contains};
ghost use Rattle.cert_text.specs.Certificate.{Mating};

use crate::letters::{by, problem};
use crate::same::{same, shown};
use crate::texts::TWO_ROOKS;
use cert_text::{Certificate, EscapeCertificate, MateCertificate, read_cert, write_cert};
use cook_report::{JoinEnd, Line, Report, Word, check_report, join_mates};
use search_limits::Cause;
use shogi_rules::Problem;
use std::alloc::Global;
use std::process::Abort;
use std::test::Fail;

// The knight mates with the gold; after the silver the king goes up.
pub(crate) const PROBLEM: &str = "8k/6S2/8N/7G1/9/9/9/9/9 b -";

const MATED: &str =
    "certificate 1 mate 1\nproblem 8k/6S2/8N/7G1/9/9/9/9/9 b -\n1 2d2c 7+N1/6S1k/9/7G1/9/9/9/9/9 b -\nend\n";

const ESCAPED: &str =
    "certificate 1 escape 8\nproblem 7+S1/8k/8N/7G1/9/9/9/9/9 b -\n7+S1/8k/8N/7G1/9/9/9/9/9 b -\n7+S1/9/7kN/9/9/9/9/9/9 b g\n7k1/9/9/7G1/9/9/9/9/9 b sn\n8k/9/8N/7G1/9/9/9/9/9 b s\n9/7+S1/8N/8k/9/9/9/9/9 b g\n9/7k1/8N/7G1/9/9/9/9/9 b s\n9/9/6k1N/9/9/9/9/9/9 b gs\n9/9/7kN/9/9/9/9/9/9 b gs\nend\n";

// The list is about the position after the check and its evasion.
const ELSEWHERE: &str =
    "certificate 1 mate 1\nproblem 7+N1/6S1k/9/7G1/9/9/9/9/9 b -\n1 2d2c 7+N1/6S1k/9/7G1/9/9/9/9/9 b -\nend\n";

// The defender has a pawn in hand there, which helps him nothing: in version 2 what is listed
// stands for the position without it.
const RICHER_1: &str =
    "certificate 1 mate 1\nproblem 8k/6S2/8N/7G1/9/9/9/9/9 b -\n1 2d2c 7+N1/6S1k/9/7G1/9/9/9/9/9 b p\nend\n";

const RICHER_2: &str =
    "certificate 2 mate 1\nproblem 8k/6S2/8N/7G1/9/9/9/9/9 b -\n1 2d2c 7+N1/6S1k/9/7G1/9/9/9/9/9 b p\nend\n";

// The king takes the gold.
const UNGUARDED: &str =
    "certificate 1 mate 1\nproblem 8k/6S2/8N/7G1/9/9/9/9/9 b -\n1 2d1c 7+N1/6S1k/9/7G1/9/9/9/9/9 b -\nend\n";

// Beside what is needed the problem itself is listed, with a rank that is right, and with one that
// isn't.
const MORE: &str =
    "certificate 1 mate 2\nproblem 8k/6S2/8N/7G1/9/9/9/9/9 b -\n1 2d2c 7+N1/6S1k/9/7G1/9/9/9/9/9 b -\n2 1c2a+ 8k/6S2/8N/7G1/9/9/9/9/9 b -\nend\n";

const EQUAL_RANKS: &str =
    "certificate 1 mate 2\nproblem 8k/6S2/8N/7G1/9/9/9/9/9 b -\n1 2d2c 7+N1/6S1k/9/7G1/9/9/9/9/9 b -\n1 1c2a+ 8k/6S2/8N/7G1/9/9/9/9/9 b -\nend\n";

// A mate is said to be an escape.
const NO_ESCAPE: &str =
    "certificate 1 escape 1\nproblem 7+N1/6S1k/9/7G1/9/9/9/9/9 b -\n7+N1/6S1k/9/7G1/9/9/9/9/9 b -\nend\n";

// The last two entries are left out.
const OPEN_ESCAPE: &str =
    "certificate 1 escape 6\nproblem 7+S1/8k/8N/7G1/9/9/9/9/9 b -\n7+S1/8k/8N/7G1/9/9/9/9/9 b -\n7+S1/9/7kN/9/9/9/9/9/9 b g\n7k1/9/9/7G1/9/9/9/9/9 b sn\n8k/9/8N/7G1/9/9/9/9/9 b s\n9/7+S1/8N/8k/9/9/9/9/9 b g\n9/7k1/8N/7G1/9/9/9/9/9 b s\nend\n";

const CAUSE: Cause = Cause::Expansions(1);

fn mate_of(alloc: Global, text: &str) -> Result<MateCertificate, Fail> {
    match read_cert(alloc, text.as_bytes())? {
        Certificate::Mate(mate) => Ok(mate),
        Certificate::Escape(_) => Err(Fail::from("an escape")),
    }
}

fn escape_of(alloc: Global, text: &str) -> Result<EscapeCertificate, Fail> {
    match read_cert(alloc, text.as_bytes())? {
        Certificate::Mate(_) => Err(Fail::from("a mate")),
        Certificate::Escape(escape) => Ok(escape),
    }
}

// A list of nothing, about the problem.
fn nothing(alloc: Global, problem: &Problem) -> Result<MateCertificate, Fail> {
    match joined(alloc, problem, &[], 0)? {
        Some(nothing) => Ok(nothing),
        None => Err(Fail::from("too many")),
    }
}

// A line by its letter.
fn line_of(rt: &impl Abort, alloc: Global, letter: char) -> Result<Line, Fail> {
    let knight = by(rt, "1c2a+");
    let silver = by(rt, "3b2a+");
    let up = by(rt, "1a1b");
    let aside = by(rt, "1a2b");
    let gold = by(rt, "2d2c");
    let asked = problem(rt, PROBLEM);
    Ok(match letter {
        'm' => Line::Mate(knight, mate_of(alloc, MATED)?),
        'M' => Line::Mate(knight, mate_of(alloc, MORE)?),
        'p' => Line::Mate(knight, mate_of(alloc, RICHER_1)?),
        'P' => Line::Mate(knight, mate_of(alloc, RICHER_2)?),
        '0' => Line::Mate(knight, nothing(alloc, &asked)?),
        'l' => Line::Mate(knight, mate_of(alloc, ELSEWHERE)?),
        'b' => Line::Mate(knight, mate_of(alloc, UNGUARDED)?),
        'r' => Line::Mate(knight, mate_of(alloc, EQUAL_RANKS)?),
        's' => Line::Mate(silver, mate_of(alloc, MATED)?),
        'g' => Line::Mate(gold, mate_of(alloc, MATED)?),
        'e' => Line::Escape(silver, up, escape_of(alloc, ESCAPED)?),
        'a' => Line::Escape(silver, aside, escape_of(alloc, ESCAPED)?),
        'o' => Line::Escape(silver, up, escape_of(alloc, OPEN_ESCAPE)?),
        'n' => Line::Escape(knight, up, escape_of(alloc, NO_ESCAPE)?),
        'k' => Line::Escape(knight, up, escape_of(alloc, ESCAPED)?),
        'u' => Line::Unknown(knight, up, CAUSE),
        'v' => Line::Unknown(silver, up, CAUSE),
        _ => Line::Unknown(silver, aside, CAUSE),
    })
}

pub(crate) fn report_of(rt: &impl Abort, alloc: Global, letters: &str) -> Result<Report, Fail> {
    let mut lines = Vec::new(alloc);
    for letter in letters.chars() {
        lines.push(line_of(rt, alloc, letter)?)?;
    }
    Ok(Report::new(lines))
}

#[test]
fn a_report_is_valid_where_each_check_has_a_line_that_is_borne_out(
    rt: HostRuntime,
) -> Result<(), Fail> {
    let asked = problem(&rt, PROBLEM);
    for (letters, valid) in [
        ("me", true),
        ("Me", true),
        ("Pe", true),
        ("ue", true),
        ("mv", true),
        ("uv", true),
        // A check has no line, or two; or the lines are in another order, or one is of no check.
        ("", false),
        ("m", false),
        ("e", false),
        ("em", false),
        ("mme", false),
        ("mee", false),
        ("ge", false),
        // An evasion leads to no listed position.
        ("0e", false),
        ("pe", false),
        ("ms", false),
        // What is listed is about another problem, or isn't borne out.
        ("le", false),
        ("be", false),
        ("re", false),
        // The evasion is none; or what shows its escape isn't about it, or isn't valid.
        ("ma", false),
        ("m.", false),
        ("ke", false),
        ("mo", false),
        ("ne", false),
    ] {
        let report = report_of(&rt, rt.alloc(), letters)?;
        same(
            &rt,
            letters,
            check_report(rt.alloc(), &asked, &report)?,
            valid,
        );
    }
    Ok(())
}

#[test]
fn a_position_without_checks_has_the_report_of_no_lines(rt: HostRuntime) -> Result<(), Fail> {
    let bare = problem(&rt, "4k4/9/9/9/9/9/9/9/9 b -");
    for (letters, valid) in [("", true), ("m", false)] {
        let report = report_of(&rt, rt.alloc(), letters)?;
        same(
            &rt,
            letters,
            check_report(rt.alloc(), &bare, &report)?,
            valid,
        );
    }
    Ok(())
}

#[test]
fn two_mates_are_a_cook_and_one_is_sound_where_all_is_known(rt: HostRuntime) -> Result<(), Fail> {
    for (letters, word) in [
        ("", Word::NoMate),
        ("e", Word::NoMate),
        ("ee", Word::NoMate),
        ("m", Word::Sound),
        ("em", Word::Sound),
        ("eme", Word::Sound),
        ("u", Word::Open),
        ("ev", Word::Open),
        ("mv", Word::Open),
        ("um", Word::Open),
        ("ms", Word::Cooked),
        ("mes", Word::Cooked),
        ("mvs", Word::Cooked),
        ("mms", Word::Cooked),
    ] {
        let report = report_of(&rt, rt.alloc(), letters)?;
        same(&rt, letters, report.word(), word);
        same(&rt, letters, report.lines().len(), letters.len());
    }
    Ok(())
}

// Two certificates with two positions in common: of the one the second has the lesser rank, of the
// other both have the same.
const FIRST: &str =
    "certificate 1 mate 2\nproblem 9/4k4/8R/9/9/9/9/9/9 b R\n2 1c1a+ 3k5/R8/8R/9/9/9/9/9/9 b -\n1 1c1a 4k4/R8/8R/9/9/9/9/9/9 b -\nend\n";

const SECOND: &str =
    "certificate 1 mate 3\nproblem 4k4/R8/8R/9/9/9/9/9/9 b -\n1 1c1a 3k5/R8/8R/9/9/9/9/9/9 b -\n1 1c1a+ 4k4/R8/8R/9/9/9/9/9/9 b -\n3 1c1a 5k3/R8/8R/9/9/9/9/9/9 b -\nend\n";

const OF_VERSION_2: &str =
    "certificate 2 mate 1\nproblem 4k4/R8/8R/9/9/9/9/9/9 b -\n5 1c1a 5k3/R8/8R/9/9/9/9/9/9 b -\nend\n";

const BOTH: &str =
    "certificate 1 mate 3\nproblem 9/4k4/8R/9/9/9/9/9/9 b R\n1 1c1a 3k5/R8/8R/9/9/9/9/9/9 b -\n1 1c1a 4k4/R8/8R/9/9/9/9/9/9 b -\n3 1c1a 5k3/R8/8R/9/9/9/9/9/9 b -\nend\n";

const TURNED: &str =
    "certificate 1 mate 3\nproblem 9/4k4/8R/9/9/9/9/9/9 b R\n1 1c1a 3k5/R8/8R/9/9/9/9/9/9 b -\n1 1c1a+ 4k4/R8/8R/9/9/9/9/9/9 b -\n3 1c1a 5k3/R8/8R/9/9/9/9/9/9 b -\nend\n";

const ALL: &str =
    "certificate 2 mate 3\nproblem 9/4k4/8R/9/9/9/9/9/9 b R\n1 1c1a 3k5/R8/8R/9/9/9/9/9/9 b -\n1 1c1a 4k4/R8/8R/9/9/9/9/9/9 b -\n3 1c1a 5k3/R8/8R/9/9/9/9/9/9 b -\nend\n";

const NONE: &str = "certificate 1 mate 0\nproblem 9/4k4/8R/9/9/9/9/9/9 b R\nend\n";

// What stands for the text of a certificate that would list more than asked for at most.
const TOO_MANY: &str = "too many";

// Whether all certificates are for the problem's attacker.
fn are_of_attacker(problem: &Problem, certificates: &[MateCertificate]) -> bool
    ensures { IsTrue result → (c : Mating) → Contains certificates.now c
        → c.problem.side ≡ problem.now.position.side }
{
    for certificate in certificates {
        if certificate.problem().attacker() != problem.attacker() {
            return false;
        }
    }
    true
}

// The certificates joined; nothing, where they list more positions than so many.
fn joined(
    alloc: Global,
    problem: &Problem,
    certificates: &[MateCertificate],
    limit: usize,
) -> Result<Option<MateCertificate>, Fail> {
    if !are_of_attacker(problem, certificates) {
        return Err(Fail::from("another attacker"));
    }
    match join_mates(alloc, problem, certificates, limit) {
        Ok(joined) => Ok(Some(joined)),
        Err(JoinEnd::TooMany) => Ok(None),
        Err(JoinEnd::NoMemory) => Err(Fail::from("no memory")),
    }
}

// The text of the certificates of these texts, joined.
fn text_of(
    alloc: Global,
    problem: &Problem,
    texts: &[&str],
    limit: usize,
) -> Result<Vec<u8>, Fail> {
    let mut certificates = Vec::new(alloc);
    for text in texts {
        certificates.push(mate_of(alloc, text)?)?;
    }
    match joined(alloc, problem, &certificates, limit)? {
        Some(joined) => Ok(write_cert(alloc, &Certificate::Mate(joined))?),
        None => Ok(Vec::from_slice(alloc, TOO_MANY.as_bytes())?),
    }
}

#[test]
fn joined_mates_keep_the_least_rank_and_the_first_move(rt: HostRuntime) -> Result<(), Fail> {
    let rooks = problem(&rt, "9/4k4/8R/9/9/9/9/9/9 b R");
    let (both, turned) = ([FIRST, SECOND], [SECOND, FIRST]);
    let (all, none): ([&str; 3], [&str; 0]) = ([FIRST, OF_VERSION_2, SECOND], []);
    for (row, texts, limit, wanted) in [
        ("both", both.as_slice(), 3, BOTH),
        ("too many", both.as_slice(), 2, TOO_MANY),
        ("turned", turned.as_slice(), 4, TURNED),
        ("all", all.as_slice(), 3, ALL),
        ("one", [TWO_ROOKS].as_slice(), 4, TWO_ROOKS),
        ("one too many", [TWO_ROOKS].as_slice(), 3, TOO_MANY),
        ("none", none.as_slice(), 0, NONE),
    ] {
        let text = text_of(rt.alloc(), &rooks, texts, limit)?;
        same(&rt, row, shown(&text), wanted);
    }
    Ok(())
}
