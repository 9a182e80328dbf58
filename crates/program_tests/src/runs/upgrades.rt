// Runs of `upgrade`, and of `check` and `record` on what they print, some of them another
// program's.
use super::seen::seen_of;
use crate::same::same;
use std::test::Fail;

// A mate of one move, by its hand's gold.
const GOLD: &str =
    "certificate 1 mate 1\nproblem 4k4/9/4P4/9/9/9/9/9/9 b G\n1 G*5b 4k4/9/4P4/9/9/9/9/9/9 b G\nend\n";

const GOLD_UPGRADED: &str =
    "certificate 2 mate 1\nproblem 4k4/9/4P4/9/9/9/9/9/9 b G\n1 G*5b 4k4/9/4P4/9/9/9/9/9/9 b G\nend\n";

// The same with more in the attacker's hand, for which the one entry stands.
const RICHER: &str =
    "certificate 2 mate 1\nproblem 4k4/9/4P4/9/9/9/9/9/9 b GP\n1 G*5b 4k4/9/4P4/9/9/9/9/9/9 b G\nend\n";

// A king that is left alone.
const ESCAPE: &str =
    "certificate 1 escape 1\nproblem 4k4/9/9/9/9/9/9/9/9 b -\n4k4/9/9/9/9/9/9/9/9 b -\nend\n";

const ESCAPE_UPGRADED: &str =
    "certificate 2 escape 1\nproblem 4k4/9/9/9/9/9/9/9/9 b -\n4k4/9/9/9/9/9/9/9/9 b -\nend\n";

// An input, and the status, what the user is told beside the answer, and the answer.
static RUNS: [(&str, u8, &str, &str); 7] = [
    (GOLD, 0, "", GOLD_UPGRADED),
    (GOLD_UPGRADED, 0, "", GOLD_UPGRADED),
    (RICHER, 0, "", RICHER),
    (ESCAPE, 0, "", ESCAPE_UPGRADED),
    (
        "checkmate G*5b\ncertificate 1 mate 1\nproblem 4k4/9/4P4/9/9/9/9/9/9 b G\n1 G*5b 4k4/9/4P4/9/9/9/9/9/9 b G\nend\n",
        0,
        "",
        GOLD_UPGRADED,
    ),
    (
        "certificate 1 mate 1\nproblem 4k4/9/4P4/9/9/9/9/9/9 b GP\n1 G*5b 4k4/9/4P4/9/9/9/9/9/9 b G\nend\n",
        7,
        "",
        "refused 0 root\n",
    ),
    (
        "certificate 3 mate 1\nproblem 4k4/9/4P4/9/9/9/9/9/9 b G\n1 G*5b 4k4/9/4P4/9/9/9/9/9/9 b G\nend\n",
        3,
        "bad head",
        "",
    ),
];

// A certificate of version 2, and what `check` says of it.
static JUDGED: [(&str, u8, &str); 5] = [
    (RICHER, 0, "accepted mate 1\n"),
    (GOLD_UPGRADED, 0, "accepted mate 1\n"),
    (ESCAPE_UPGRADED, 0, "accepted escape 1\n"),
    // Without a gold the problem is none of those that the entry stands for.
    (
        "certificate 2 mate 1\nproblem 4k4/9/4P4/9/9/9/9/9/9 b P\n1 G*5b 4k4/9/4P4/9/9/9/9/9/9 b G\nend\n",
        7,
        "refused 0 root\n",
    ),
    // More in the attacker's hand than in the set's.
    (
        "certificate 2 escape 1\nproblem 4k4/9/9/9/9/9/9/9/9 b P\n4k4/9/9/9/9/9/9/9/9 b -\nend\n",
        7,
        "refused 0 root\n",
    ),
];

#[test]
fn a_valid_certificate_is_written_in_version_2(rt: HostRuntime) -> Result<(), Fail> {
    for (input, status, fault, answer) in RUNS {
        let seen = seen_of(&rt, "upgrade", input, (7, 0), (11, 0))?;
        let found = (seen.status, seen.fault.as_str(), seen.kept.as_str());
        same(&rt, input, found, (status, fault, answer));
    }
    Ok(())
}

#[test]
fn a_position_of_version_2_stands_for_others(rt: HostRuntime) -> Result<(), Fail> {
    for (input, status, answer) in JUDGED {
        let seen = seen_of(&rt, "check", input, (7, 0), (11, 0))?;
        same(
            &rt,
            input,
            (seen.status, seen.kept.as_str()),
            (status, answer),
        );
    }
    Ok(())
}

// What `record` writes of it: the line is played from the problem, with the problem's hand.
const RICHER_RECORD: &str =
    "後手の持駒：なし\n  ９ ８ ７ ６ ５ ４ ３ ２ １\n+---------------------------+\n| ・ ・ ・ ・v玉 ・ ・ ・ ・|一\n| ・ ・ ・ ・ ・ ・ ・ ・ ・|二\n| ・ ・ ・ ・ 歩 ・ ・ ・ ・|三\n| ・ ・ ・ ・ ・ ・ ・ ・ ・|四\n| ・ ・ ・ ・ ・ ・ ・ ・ ・|五\n| ・ ・ ・ ・ ・ ・ ・ ・ ・|六\n| ・ ・ ・ ・ ・ ・ ・ ・ ・|七\n| ・ ・ ・ ・ ・ ・ ・ ・ ・|八\n| ・ ・ ・ ・ ・ ・ ・ ・ ・|九\n+---------------------------+\n先手の持駒：金\u{3000}歩\n手数----指手---------消費時間--\n   1 ５二金打\n   2 詰み\n";

#[test]
fn a_line_of_version_2_is_played_from_the_problem(rt: HostRuntime) -> Result<(), Fail> {
    let seen = seen_of(&rt, "record", RICHER, (7, 0), (11, 0))?;
    same(
        &rt,
        RICHER,
        (seen.status, seen.kept.as_str()),
        (0, RICHER_RECORD),
    );
    Ok(())
}
