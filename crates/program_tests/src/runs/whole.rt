// Runs whose status, words to the user and answer are known.
use super::examples::{
    CHASE, ESCAPE, FIRST_TEXT, GOLD, GOLD_TEXT, IN_CHECK_TEXT, LEFT_ROOKS_TEXT, MANY, MANY_TEXT,
    MANY_TEXT_FROM_1001, NO_CHECK_TEXT, OPEN_CHASE, OPEN_ESCAPE, REST_TEXT, TWO_ROOKS,
    TWO_ROOKS_TEXT, WHITE_TEXT,
};
use super::seen::seen_of;
use crate::same::same;
use std::test::Fail;

// Words, an input, and the status, what the user is told beside the answer, and the answer.
static RUNS: [(&str, &str, u8, &str, &str); 34] = [
    ("solve --workers 4", GOLD, 0, "", GOLD_TEXT),
    ("solve", "9/9/9/9/9/9/4p4/9/4K4 w g 1\n", 0, "", WHITE_TEXT),
    // 5c5b+ and G*5b both mate: the move on the board comes first in the order of moves.
    (
        "solve",
        "4k4/9/4P4/4L4/9/9/9/9/9 b G 1\n",
        0,
        "",
        FIRST_TEXT,
    ),
    ("solve", TWO_ROOKS, 0, "", TWO_ROOKS_TEXT),
    ("solve --rest", GOLD, 0, "", REST_TEXT),
    // No check, told by the last expansion; and expansions used up before anything is told.
    (
        "solve --expansions 1",
        "4k4/9/9/9/9/9/9/9/9 b - 1\n",
        0,
        "",
        NO_CHECK_TEXT,
    ),
    (
        "solve --expansions 1",
        TWO_ROOKS,
        1,
        "",
        "checkmate timeout\nunknown expansions 1\n",
    ),
    (
        "solve --room 1",
        TWO_ROOKS,
        1,
        "",
        "checkmate timeout\nunknown room 1\n",
    ),
    // The attacker is in check himself, and no check parries.
    (
        "solve",
        "4k4/9/4P4/9/9/9/9/9/4K3r b G 1\n",
        0,
        "",
        IN_CHECK_TEXT,
    ),
    // Certificates.
    ("check", GOLD_TEXT, 0, "", "accepted mate 1\n"),
    ("check --workers 2", ESCAPE, 0, "", "accepted escape 3\n"),
    ("check", OPEN_ESCAPE, 7, "", "refused 2 unanswered P*5c\n"),
    ("check", LEFT_ROOKS_TEXT, 0, "", "accepted mate 4\n"),
    ("check", CHASE, 0, "", "accepted escape 6\n"),
    ("check", OPEN_CHASE, 7, "", "refused 2 unanswered 5i4i\n"),
    // Inputs with a fault.
    ("solve", "", 3, "bad row at 0", ""),
    (
        "solve",
        "4k4/9/9/9/9/9/9/9/4R4 b - 1\n",
        3,
        "defender in check",
        "",
    ),
    ("solve", "9/9/9/9/9/9/9/9/p8 b 18P 1\n", 3, "too many P", ""),
    ("check", GOLD, 3, "bad head", ""),
    // A certificate may have to be for a given problem.
    (
        "check --problem 4k4/9/4P4/9/9/9/9/9/9_b_G",
        GOLD_TEXT,
        0,
        "",
        "accepted mate 1\n",
    ),
    // The same position by another text.
    (
        "check --problem sfen_4k4/9/13P13/9/9/9/9/9/9_b_G_1",
        GOLD_TEXT,
        0,
        "",
        "accepted mate 1\n",
    ),
    // Another position, by a hand, and by the side to move.
    (
        "check --problem 4k4/9/4P4/9/9/9/9/9/9_b_Gp",
        GOLD_TEXT,
        7,
        "",
        "refused 0 root\n",
    ),
    (
        "check --problem 4k4/9/4P4/9/9/9/9/9/4K4_w_G",
        GOLD_TEXT,
        7,
        "",
        "refused 0 root\n",
    ),
    (
        "check --problem 4k4/9/4P4/9/9/9/9/9/9_c_G",
        GOLD_TEXT,
        2,
        "bad side at 22",
        "",
    ),
    (
        "check --problem 4k4/9/4P4/9/9/9/9/9/9_w_G",
        GOLD_TEXT,
        2,
        "no defender king",
        "",
    ),
    (
        "check --problem 4k4/9/9/9/9/9/9/9/4R4_b_-",
        GOLD_TEXT,
        2,
        "defender in check",
        "",
    ),
    // Many problems, told line by line.
    ("collection", MANY, 3, "", MANY_TEXT),
    ("collection --threads 3", MANY, 3, "", MANY_TEXT),
    (
        "collection",
        "",
        0,
        "",
        "problems 0 mate 0 nomate 0 unknown 0 fault 0\n",
    ),
    (
        "collection --expansions 1",
        TWO_ROOKS,
        1,
        "",
        "1 unknown expansions 1\nproblems 1 mate 0 nomate 0 unknown 1 fault 0\n",
    ),
    (
        "collection --certificates",
        "4k4/9/9/9/9/9/9/9/9 b -\r\n",
        0,
        "",
        "1 nomate\ncertificate 1 escape 1\nproblem 4k4/9/9/9/9/9/9/9/9 b -\n4k4/9/9/9/9/9/9/9/9 b -\nend\nproblems 1 mate 0 nomate 1 unknown 0 fault 0\n",
    ),
    // The lines of a part keep the numbers that they have in the whole text; remarks come back.
    ("collection --first 1001", MANY, 3, "", MANY_TEXT_FROM_1001),
    (
        "collection --remarks --first 1000000000 --expansions 1",
        "#\tx\n9/4k4/8R/9/9/9/9/9/9 b R\tTwo rooks\t3\r\n4k4\t\n",
        3,
        "",
        "1000000001 unknown expansions 1\tTwo rooks\t3\n1000000002 fault bad row at 3\t\nproblems 2 mate 0 nomate 0 unknown 1 fault 1\n",
    ),
    (
        "survey --count 1",
        "",
        0,
        "",
        "survey 0 1\nmate 1\nnomate 0\nunknown 0\n",
    ),
];

#[test]
fn each_run_ends_as_it_should(rt: HostRuntime) -> Result<(), Fail> {
    for (words, input, status, fault, kept) in RUNS {
        // Refused words are told before anything is read: the source would fail at its first read.
        let failing = if status == 2 { 1 } else { 0 };
        let seen = seen_of(&rt, words, input, (7, failing), (11, 0))?;
        let row = (words, input);
        same(&rt, row, seen.status, status);
        same(&rt, row, seen.fault.as_str(), fault);
        same(&rt, row, seen.kept.as_str(), kept);
        // A faulty input is kept.
        let read = if status == 3 && !seen.answered {
            input.len()
        } else {
            0
        };
        same(&rt, row, seen.read, read);
    }
    Ok(())
}
