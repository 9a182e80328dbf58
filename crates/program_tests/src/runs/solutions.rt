// Runs of `solution`: moves behind the diagram of a mate in one.
use super::seen::seen_of;
use crate::same::same;
use std::test::Fail;

// The white king on 5a, a black pawn on 5c, a gold in Black's hand; the first line behind it is
// line 17.
const DIAGRAM: &str =
    "# KIF\n後手の持駒：なし\n  ９ ８ ７ ６ ５ ４ ３ ２ １\n+---------------------------+\n| ・ ・ ・ ・v玉 ・ ・ ・ ・|一\n| ・ ・ ・ ・ ・ ・ ・ ・ ・|二\n| ・ ・ ・ ・ 歩 ・ ・ ・ ・|三\n| ・ ・ ・ ・ ・ ・ ・ ・ ・|四\n| ・ ・ ・ ・ ・ ・ ・ ・ ・|五\n| ・ ・ ・ ・ ・ ・ ・ ・ ・|六\n| ・ ・ ・ ・ ・ ・ ・ ・ ・|七\n| ・ ・ ・ ・ ・ ・ ・ ・ ・|八\n| ・ ・ ・ ・ ・ ・ ・ ・ ・|九\n+---------------------------+\n先手の持駒：金\n手数----指手---------消費時間--\n";

// The lines of the moves, and the status, what the user is told beside the answer, and the answer.
static RUNS: [(&str, u8, &str, &str); 8] = [
    ("   1 ５二金打   ( 0:00/00:00:00)\n", 0, "", "solution 1 mate\n"),
    ("   1 ５二歩(53)\n", 0, "", "solution 1 open\n"),
    ("   1 ４二歩(53)\n", 3, "illegal move in line 17", ""),
    ("   1 ５二金(53)\n", 3, "wrong piece in line 17", ""),
    ("   1 ５四金打\n", 3, "no check in line 17", ""),
    ("   1 同\u{3000}金打\n", 3, "bad move in line 17", ""),
    ("*a comment\n   1 ５四金打\n", 3, "no check in line 18", ""),
    ("", 0, "", "solution 0 open\n"),
];

#[test]
fn a_solution_is_judged(rt: HostRuntime) -> Result<(), Fail> {
    let alloc = rt.alloc();
    for (moves, status, fault, answer) in RUNS {
        let text = format!(in alloc; "{DIAGRAM}{moves}")?;
        let seen = seen_of(&rt, "solution", text.as_str(), (7, 0), (11, 0))?;
        let found = (seen.status, seen.fault.as_str(), seen.kept.as_str());
        same(&rt, moves, found, (status, fault, answer));
    }
    Ok(())
}
