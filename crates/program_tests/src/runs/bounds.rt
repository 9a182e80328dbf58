// Runs of `check --bound`, most of them another program's.
use super::seen::seen_of;
use crate::same::same;
use std::test::Fail;

const GOLD_SHORTEST: &str =
    "checkmate G*5b\nshortest 1\ncertificate 1 mate 1\nproblem 4k4/9/4P4/9/9/9/9/9/9 b G\n1 G*5b 4k4/9/4P4/9/9/9/9/9/9 b G\nend\nbound 1 0\nend\n";

const KING_ALONE: &str =
    "none within 3\nproblem 4k4/9/9/9/9/9/9/9/9 b -\nbound 1 1\n3 4k4/9/9/9/9/9/9/9/9 b -\nend\n";

const ROOKS_SHORTEST: &str =
    "checkmate R*2b 5b4a 1c1a\nshortest 2\ncertificate 1 mate 4\nproblem 9/4k4/8R/9/9/9/9/9/9 b R\n1 1c1a 3k5/7R1/8R/9/9/9/9/9/9 b -\n1 1c1a 4k4/7R1/8R/9/9/9/9/9/9 b -\n1 1c1a 5k3/7R1/8R/9/9/9/9/9/9 b -\n2 R*2b 9/4k4/8R/9/9/9/9/9/9 b R\nend\nbound 1 1\n1 9/4k4/8R/9/9/9/9/9/9 b R\nend\n";

// Words, an input, and the status, what the user is told beside the answer, and the answer.
static RUNS: [(&str, &str, u8, &str, &str); 15] = [
    (
        "check --bound",
        GOLD_SHORTEST,
        0,
        "",
        "accepted shortest 1\n",
    ),
    (
        "check --workers 3 --bound",
        ROOKS_SHORTEST,
        0,
        "",
        "accepted shortest 2\n",
    ),
    (
        "check --bound",
        KING_ALONE,
        0,
        "",
        "accepted none within 3\n",
    ),
    (
        "check --bound",
        "checkmate R*2b 5b4a 1c1a\nshortest 2\ncertificate 1 mate 4\nproblem 9/4k4/8R/9/9/9/9/9/9 b R\n1 1c1a 3k5/7R1/8R/9/9/9/9/9/9 b -\n1 1c1a 4k4/7R1/8R/9/9/9/9/9/9 b -\n1 1c1a 5k3/7R1/8R/9/9/9/9/9/9 b -\n1 R*2b 9/4k4/8R/9/9/9/9/9/9 b R\nend\nbound 1 1\n1 9/4k4/8R/9/9/9/9/9/9 b R\nend\n",
        7,
        "",
        "refused 4 rank 5b4a\n",
    ),
    (
        "check --bound",
        "checkmate R*2b 5b4a 1c1a\nshortest 3\ncertificate 1 mate 4\nproblem 9/4k4/8R/9/9/9/9/9/9 b R\n1 1c1a 3k5/7R1/8R/9/9/9/9/9/9 b -\n1 1c1a 4k4/7R1/8R/9/9/9/9/9/9 b -\n1 1c1a 5k3/7R1/8R/9/9/9/9/9/9 b -\n2 R*2b 9/4k4/8R/9/9/9/9/9/9 b R\nend\nbound 1 1\n1 9/4k4/8R/9/9/9/9/9/9 b R\nend\n",
        7,
        "",
        "refused bound 0 rank\n",
    ),
    (
        "check --bound",
        "none within 4\nproblem 4k4/9/9/9/9/9/9/9/9 b -\nbound 1 1\n3 4k4/9/9/9/9/9/9/9/9 b -\nend\n",
        7,
        "",
        "refused bound 0 root\n",
    ),
    (
        "check --bound",
        "none within 3\nproblem 5k3/9/9/9/9/9/9/9/9 b -\nbound 1 1\n3 4k4/9/9/9/9/9/9/9/9 b -\nend\n",
        7,
        "",
        "refused bound 0 root\n",
    ),
    (
        "check --bound",
        "checkmate R*2b 5b4a 1c1a\nshortest 2\ncertificate 1 mate 4\nproblem 9/4k4/8R/9/9/9/9/9/9 b R\n1 1c1a 3k5/7R1/8R/9/9/9/9/9/9 b -\n1 1c1a 4k4/7R1/8R/9/9/9/9/9/9 b -\n1 1c1a 5k3/7R1/8R/9/9/9/9/9/9 b -\n2 R*2b 9/4k4/8R/9/9/9/9/9/9 b R\nend\n",
        3,
        "bad bound 0",
        "",
    ),
    (
        "check --bound",
        "none within 3\nproblem 4k4/9/9/9/9/9/9/9/9 b -\nbound 1 2\n9 5k3/9/9/9/9/9/9/9/9 b -\n3 4k4/9/9/9/9/9/9/9/9 b -\nend\n",
        3,
        "bad bound 2",
        "",
    ),
    (
        "check --bound",
        "none within 3\nbound 1 1\n3 4k4/9/9/9/9/9/9/9/9 b -\nend\n",
        3,
        "bad head",
        "",
    ),
    (
        "check --bound --problem 4k4/9/4P4/9/9/9/9/9/9_b_G",
        GOLD_SHORTEST,
        0,
        "",
        "accepted shortest 1\n",
    ),
    (
        "check --bound --problem 4k4/9/4P4/9/9/9/9/9/9_b_G",
        ROOKS_SHORTEST,
        7,
        "",
        "refused 0 root\n",
    ),
    (
        "check --bound --problem 4k4/9/4P4/9/9/9/9/9/9_b_G",
        KING_ALONE,
        7,
        "",
        "refused bound 0 root\n",
    ),
    ("check", GOLD_SHORTEST, 3, "bad head", ""),
    (
        "check --bound",
        "none within 3\nproblem 4k4/9/9/9/9/9/9/9/9 b -\nbound 1 0\nend\n",
        7,
        "",
        "refused bound 0 root\n",
    ),
];

#[test]
fn a_bound_is_judged(rt: HostRuntime) -> Result<(), Fail> {
    for (words, input, status, fault, answer) in RUNS {
        let seen = seen_of(&rt, words, input, (7, 0), (11, 0))?;
        let found = (seen.status, seen.fault.as_str(), seen.kept.as_str());
        same(&rt, (words, input), found, (status, fault, answer));
    }
    Ok(())
}
