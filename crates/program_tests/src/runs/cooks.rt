// Runs of `cook`, whose reports are another program's.
use super::examples::GOLD;
use super::seen::seen_of;
use crate::same::same;
use std::test::Fail;

const GOLD_COOK: &str =
    "cook sound 7\ncheck 5c5b escape 5a4a 1 11\n3G5/5k3/9/9/9/9/9/9/9 b p\n4G4/4P1k2/9/9/9/9/9/9/9 b -\n4k4/9/9/9/9/9/9/9/9 b Gp\n5k3/4P4/9/9/9/9/9/9/9 b G\n5k3/9/9/9/9/9/9/9/9 b gp\n6k2/4P4/9/9/9/9/9/9/9 b g\n9/3k5/9/9/9/9/9/9/9 b gp\n9/4P1k2/9/9/9/9/9/9/9 b g\n9/4Pk3/9/9/9/9/9/9/9 b g\n9/4k4/9/9/9/9/9/9/9 b gp\n9/5k3/9/9/9/9/9/9/9 b gp\ncheck 5c5b+ escape 5a5b 1 7\n4G4/9/5k3/9/9/9/9/9/9 b p\n9/3G5/5k3/9/9/9/9/9/9 b p\n9/4k4/9/9/9/9/9/9/9 b Gp\n9/5k3/9/9/9/9/9/9/9 b gp\n9/9/3k5/9/9/9/9/9/9 b gp\n9/9/4k4/9/9/9/9/9/9 b gp\n9/9/5k3/9/9/9/9/9/9 b gp\ncheck G*4a escape 5a4a 1 2\n5k3/9/4P4/9/9/9/9/9/9 b g\n9/4k4/9/9/9/9/9/9/9 b gp\ncheck G*4b escape 5a4b 1 2\n9/4+P4/6k2/9/9/9/9/9/9 b g\n9/5k3/4P4/9/9/9/9/9/9 b g\ncheck G*5b mate 1 0\ncheck G*6a escape 5a4a 1 4\n3G1k3/9/4P4/9/9/9/9/9/9 b -\n3G5/4+P1k2/9/9/9/9/9/9/9 b -\n3G5/5+P3/7k1/9/9/9/9/9/9 b -\n4G4/6k2/4P4/9/9/9/9/9/9 b -\ncheck G*6b escape 5a4a 1 6\n4G4/6k2/4P4/9/9/9/9/9/9 b -\n5k3/3G5/4P4/9/9/9/9/9/9 b -\n9/3G+P1k2/9/9/9/9/9/9/9 b -\n9/3G1+P3/7k1/9/9/9/9/9/9 b -\n9/4G1k2/4P4/9/9/9/9/9/9 b -\n9/5G3/4P2k1/9/9/9/9/9/9 b -\nend\n";

const SPENT: &str =
    "cook open 12\ncheck 8d7d unknown expansions 18\ncheck 8d8e unknown expansions 18\ncheck S*6d unknown expansions 18\ncheck S*6f unknown expansions 18\ncheck S*7f unknown expansions 18\ncheck S*8f unknown expansions 18\ncheck G*6e unknown expansions 18\ncheck G*6f unknown expansions 18\ncheck G*7d unknown expansions 18\ncheck G*7f unknown expansions 18\ncheck G*8e unknown expansions 18\ncheck G*8f unknown expansions 18\nend\n";

const FULL: &str =
    "cook open 7\ncheck 7e6e unknown room 5\ncheck 7e7f unknown room 5\ncheck 8h7g unknown room 5\ncheck G*5f unknown room 5\ncheck G*6e unknown room 5\ncheck G*7f unknown room 5\ncheck G*7g unknown room 5\nend\n";

const COOKED: &str =
    "cook cooked 14\ncheck 6c6e unknown room 29\ncheck 6c7c unknown room 29\ncheck 8g7g mate 1 15\n2 7g7e 9/1k7/1r7/9/K8/P8/2r6/G7B/9 w 2g\n1 G*8d 9/1k7/1r7/K8/2r6/P8/9/G7B/9 w 2g\n1 G*8d 9/1k7/1r7/K8/9/P8/2r6/G7B/9 w 2g\n3 6c6d 9/1k7/3r5/1K7/9/P8/2r6/G7B/9 w 2g\n3 6c6e 9/1k7/3r5/9/1K7/P1g6/2r6/G7B/9 w g\n3 6c8c 9/1k7/3r5/9/1K7/P8/2r6/G7B/9 w 2g\n4 G*7f 9/1k7/3r5/9/9/PK7/2r6/G7B/9 w 2g\n2 6c6e 9/1k7/3r5/9/K8/P1g6/2r6/G7B/9 w g\n1 G*8c 9/1k7/9/1K7/3r5/P1g6/2r6/G7B/9 w g\n1 G*8c 9/1k7/9/1K7/3r5/P2g5/2r6/G7B/9 w g\n2 7f6f 9/1k7/9/2K6/3r5/P1g6/2r6/G7B/9 w g\n2 G*7e 9/1k7/9/3r5/1K7/P8/2r6/G7B/9 w 2g\n1 G*8d 9/1k7/9/3r5/K1g6/P8/2r6/G7B/9 w g\n1 7g7e+ 9/1k7/9/3r5/K8/P8/2r6/G7B/9 w 2g\n1 G*8c 9/1k7/9/K8/3r5/P1g6/2r6/G7B/9 w g\ncheck 8g7g+ mate 1 6\n2 6c6d 9/1k7/3r5/1K7/9/P8/2+r6/G7B/9 w 2g\n2 6c6e 9/1k7/3r5/9/1K7/P8/2+r6/G7B/9 w 2g\n1 G*8c 9/1k7/9/1K7/3r5/P8/2+r6/G7B/9 w 2g\n1 G*8d 9/1k7/9/3r5/1K7/P8/2+r6/G7B/9 w 2g\n1 7g7e 9/1k7/9/3r5/K8/P8/2+r6/G7B/9 w 2g\n1 7g7d 9/1k7/9/K8/3r5/P8/2+r6/G7B/9 w 2g\ncheck 8g8d+ unknown room 29\ncheck 8g8e unknown room 29\ncheck 8g8e+ unknown room 29\ncheck 8g8f+ unknown room 29\ncheck G*6d mate 1 3\n2 G*8f 9/1k7/3r5/3g5/9/P1K6/1r7/G7B/9 w g\n1 6d6e 9/1k7/3r5/3g5/9/P2K5/1r7/G7B/9 w g\n1 6d6e 9/1k7/3r5/3g5/9/Pg1K5/1r7/G7B/9 w -\ncheck G*6e mate 1 1\n1 6c6d 9/1k7/3r5/2K6/3g5/P8/1r7/G7B/9 w g\ncheck G*7d mate 1 2\n1 G*6d 9/1k7/3r5/2K6/9/P8/1r7/G7B/9 w Gg\n1 6c6g+ 9/1k7/3r5/2g6/9/P1K6/1r7/G7B/9 w g\ncheck G*7f mate 1 3\n1 8g8c+ 9/1k7/3r5/2K6/9/P1g6/1r7/G7B/9 w g\n2 6c6g+ 9/1k7/3r5/9/9/P1K6/1r7/G7B/9 w Gg\n1 G*6d 9/1k7/9/9/2K6/P8/1r1+r5/G7B/9 w Gg\ncheck G*8d mate 1 1\n1 6c6g+ 9/1k7/3r5/1g7/9/P1K6/1r7/G7B/9 w g\ncheck G*8e mate 1 1\n1 G*6d 9/1k7/3r5/2K6/1g7/P8/1r7/G7B/9 w g\nend\n";

// Words, a problem's text, and the status, what the user is told beside the answer, and the answer.
static RUNS: [(&str, &str, u8, &str, &str); 9] = [
    ("cook", GOLD, 0, "", GOLD_COOK),
    (
        "cook",
        "4k4/9/9/9/9/9/9/9/9 b - 1\n",
        0,
        "",
        "cook nomate 0\nend\n",
    ),
    (
        "cook --expansions 18",
        "1l7/9/9/1+S7/2k1r4/9/9/1+Ls3l2/9 b GSg 1\n",
        1,
        "",
        SPENT,
    ),
    (
        "cook --room 5 --expansions 4000",
        "2n6/2nn1b3/9/9/bs+P5s/3k5/3NL1Lp1/1+P2L2r1/8G b Gr2g2sl15p 1\n",
        1,
        "",
        FULL,
    ),
    (
        "cook --room 29 --expansions 4000",
        "9/1k7/3r5/9/2K6/P8/1r7/G7B/9 w 2g 1\n",
        1,
        "",
        COOKED,
    ),
    ("cook", "", 3, "bad row at 0", ""),
    ("cook --kif", GOLD, 3, "no diagram", ""),
    // The problem's fault comes before the line's.
    ("cook --line x", "", 3, "bad row at 0", ""),
    (
        "cook",
        "4k4/9/9/9/9/9/9/9/4R4 b - 1\n",
        3,
        "defender in check",
        "",
    ),
];

#[test]
fn first_checks_are_told_of(rt: HostRuntime) -> Result<(), Fail> {
    for (words, input, status, fault, answer) in RUNS {
        let seen = seen_of(&rt, words, input, (7, 0), (11, 0))?;
        let found = (seen.status, seen.fault.as_str(), seen.kept.as_str());
        same(&rt, (words, input), found, (status, fault, answer));
    }
    Ok(())
}

// Words, the status, what the user is told beside the answer, and what stands before and behind the
// one report of the gold drop's problem; where there is none, nothing is written.
static ALONG: [(&str, u8, &str, &str, &str); 10] = [
    // The mating check has no evasion, so that it is the last one and doesn't count.
    ("cook --line G*5b", 0, "", "at 1\n", "line sound 1\n"),
    // Another check mates.
    ("cook --line 5c5b", 0, "", "at 1\n", "line cooked 1\n"),
    ("cook --line 5c5b_5a4a", 0, "", "at 1\n", "line cooked 1\n"),
    // No move, one that isn't legal, a legal one that is no check, one behind the mate, an evasion
    // that isn't legal, and an empty part.
    ("cook --line=", 3, "bad move 1 in line", "", ""),
    ("cook --line 5a5b", 3, "bad move 1 in line", "", ""),
    ("cook --line G*9i", 3, "bad move 1 in line", "", ""),
    ("cook --line G*5b_5a4a", 3, "bad move 2 in line", "", ""),
    ("cook --line 5c5b_5a5c", 3, "bad move 2 in line", "", ""),
    ("cook --line 5c5b__5a4a", 3, "bad move 2 in line", "", ""),
    ("cook --line 5c5b_5a4a_", 3, "bad move 3 in line", "", ""),
];

#[test]
fn a_line_is_reported_on_or_its_first_bad_move_told(rt: HostRuntime) -> Result<(), Fail> {
    let alloc = rt.alloc();
    for (words, status, fault, before, behind) in ALONG {
        let report = if status == 0 { GOLD_COOK } else { "" };
        let answer = format!(in alloc; "{before}{report}{behind}")?;
        let seen = seen_of(&rt, words, GOLD, (7, 0), (11, 0))?;
        let found = (seen.status, seen.fault.as_str(), seen.kept.as_str());
        same(&rt, words, found, (status, fault, answer.as_str()));
    }
    Ok(())
}

// The knight mates with the gold, and nothing else does.
const KNIGHT: &str = "8k/6S2/8N/7G1/9/9/9/9/9 b - 1\n";

const BEHIND_KNIGHT: &str = "7+N1/6S1k/9/7G1/9/9/9/9/9 b - 1\n";

#[test]
fn each_report_along_a_line_is_that_of_its_position(rt: HostRuntime) -> Result<(), Fail> {
    let alloc = rt.alloc();
    let first = seen_of(&rt, "cook", KNIGHT, (7, 0), (11, 0))?.kept;
    let second = seen_of(&rt, "cook", BEHIND_KNIGHT, (7, 0), (11, 0))?.kept;
    for (line, moves, behind) in [
        ("1c2a+_1a1b", "", "line sound 1\n"),
        ("1c2a+_1a1b_2d2c", "at 2 1c2a+ 1a1b\n", "line sound 2\n"),
    ] {
        let words = format!(in alloc; "cook --line {line}")?;
        let last = if moves.is_empty() {
            ""
        } else {
            second.as_str()
        };
        let answer = format!(in alloc; "at 1\n{first}{moves}{last}{behind}")?;
        let seen = seen_of(&rt, words.as_str(), KNIGHT, (7, 0), (11, 0))?;
        let found = (seen.status, seen.fault.as_str(), seen.kept.as_str());
        same(&rt, line, found, (0, "", answer.as_str()));
    }
    Ok(())
}
