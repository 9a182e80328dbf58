// Runs of `check --collection`, on what collections print and on what they don't.
use super::seen::seen_of;
use crate::same::same;
use std::test::Fail;

// Words, an input, and the status and the answer.
static RUNS: [(&str, &str, u8, &str); 12] = [
    (
        "check --collection",
        "",
        0,
        "certificates 0 accepted 0 refused 0 fault 0\n",
    ),
    (
        "check --collection",
        "1 mate G*5b\ncertificate 1 mate 1\nproblem 4k4/9/4P4/9/9/9/9/9/9 b G\n1 G*5b 4k4/9/4P4/9/9/9/9/9/9 b G\nend\nproblems 1 mate 1 nomate 0 unknown 0 fault 0\n",
        0,
        "1 accepted mate 1\ncertificates 1 accepted 1 refused 0 fault 0\n",
    ),
    (
        "check --workers 2 --collection",
        "7 mate G*5b\ttitle\ncertificate 1 mate 1\nproblem 4k4/9/4P4/9/9/9/9/9/9 b G\n1 G*5b 4k4/9/4P4/9/9/9/9/9/9 b G\nend\n9 unknown expansions 100000\n10 fault bad row at 0\nproblems 3 mate 1 nomate 0 unknown 1 fault 1\n1007 nomate\ncertificate 1 escape 1\nproblem 4k4/9/9/9/9/9/9/9/9 b -\n4k4/9/9/9/9/9/9/9/9 b -\nend\nproblems 1 mate 0 nomate 1 unknown 0 fault 0\n",
        0,
        "7 accepted mate 1\n1007 accepted escape 1\ncertificates 2 accepted 2 refused 0 fault 0\n",
    ),
    (
        "check --collection",
        "1 nomate\ncertificate 1 mate 1\nproblem 4k4/9/4P4/9/9/9/9/9/9 b G\n1 G*5b 4k4/9/4P4/9/9/9/9/9/9 b G\nend\n",
        3,
        "1 fault bad head\ncertificates 1 accepted 0 refused 0 fault 1\n",
    ),
    (
        "check --collection",
        "1 mate G*5b\n2 mate G*5b\ncertificate 1 mate 1\nproblem 4k4/9/4P4/9/9/9/9/9/9 b G\n1 G*5b 4k4/9/4P4/9/9/9/9/9/9 b G\nend\n",
        3,
        "1 fault bad head\n2 accepted mate 1\ncertificates 2 accepted 1 refused 0 fault 1\n",
    ),
    (
        "check --collection",
        "5 mate G*4b\ncertificate 1 mate 1\nproblem 4k4/9/4P4/9/9/9/9/9/9 b G\n1 G*4b 4k4/9/4P4/9/9/9/9/9/9 b G\nend\n6 nomate\ncertificate 1 escape 2\nproblem 4k4/9/9/9/9/9/9/9/9 b -\n4k4/9/9/9/9/9/9/9/9 b -\nend\n7 mate G*5b\ncertificate 1 mate 1\nproblem 4k4/9/4P4/9/9/9/9/9/9 b G\n1 G*5b 4k4/9/4P4/9/9/9/9/9/9 b G\nend\n",
        7,
        "5 refused 1 outside 5a4b\n6 fault wrong count\n7 accepted mate 1\ncertificates 3 accepted 1 refused 1 fault 1\n",
    ),
    (
        "check --collection",
        "1 mate G*5b\ncertificate 1 mate 1\nproblem 4k4/9/4P4/9/9/9/9/9/9 b G\n1 G*5b 4k4/9/4P4/9/9/9/9/9/9 b G\n2 fault too long\n",
        3,
        "1 fault no end\ncertificates 1 accepted 0 refused 0 fault 1\n",
    ),
    (
        "check --collection",
        "certificate 1 mate 1\nproblem 4k4/9/4P4/9/9/9/9/9/9 b G\n1 G*5b 4k4/9/4P4/9/9/9/9/9/9 b G\nend\n",
        0,
        "certificates 0 accepted 0 refused 0 fault 0\n",
    ),
    (
        "check --collection",
        "1 mate G*5b\ta remark\ncertificate 1 mate 1\nproblem 4k4/9/4P4/9/9/9/9/9/9 b G\n1 G*5b 4k4/9/4P4/9/9/9/9/9/9 b G\nend\n2 unknown expansions 100\nproblems 2 mate 1 nomate 0 unknown 1 fault 0\n007 nomate\ncertificate 1 escape 3\nproblem 4k4/9/4P4/9/9/9/9/9/9 b P\n4k4/9/4P4/9/9/9/9/9/9 b P\n9/4k4/9/9/9/9/9/9/9 b Pp\n9/9/4k4/9/9/9/9/9/9 b 2p\nend\nproblems 1 mate 0 nomate 1 unknown 0 fault 0\n",
        0,
        "1 accepted mate 1\n007 accepted escape 3\ncertificates 2 accepted 2 refused 0 fault 0\n",
    ),
    (
        "check --collection",
        "1 mate G*4b\ncertificate 1 mate 1\nproblem 4k4/9/4P4/9/9/9/9/9/9 b G\n1 G*4b 4k4/9/4P4/9/9/9/9/9/9 b G\nend\n2 nomate\ncertificate 1 escape 2\nproblem 4k4/9/4P4/9/9/9/9/9/9 b P\n4k4/9/4P4/9/9/9/9/9/9 b P\n9/4k4/9/9/9/9/9/9/9 b Pp\nend\n3 nomate\ncertificate 1 mate 1\nproblem 4k4/9/4P4/9/9/9/9/9/9 b G\n1 G*5b 4k4/9/4P4/9/9/9/9/9/9 b G\nend\n4 mate G*5b\n5 mate G*5b\ncertificate 1 mate 2\nproblem 4k4/9/4P4/9/9/9/9/9/9 b G\n1 G*5b 4k4/9/4P4/9/9/9/9/9/9 b G\nend\n",
        7,
        "1 refused 1 outside 5a4b\n2 refused 2 unanswered P*5c\n3 fault bad head\n4 fault bad head\n5 fault wrong count\ncertificates 5 accepted 0 refused 2 fault 3\n",
    ),
    (
        "check --collection",
        "1 mate G*5b\ncertificate 1 mate 1\nproblem 4k4/9/4P4/9/9/9/9/9/9 b G\n1 G*5b 4k4/9/4P4/9/9/9/9/9/9 b G\nend\n2 nomate\ncertificate 1 escape 3\nproblem 4k4/9/4P4/9/9/9/9/9/9 b P\n4k4/9/4P4/9/9/9/9/9/9 b P\n9/9/4k4/9/9/9/9/9/9 b 2p\n9/4k4/9/9/9/9/9/9/9 b Pp\nend\n3 mate G*5b\ncertificate 1 mate 1\nproblem 4k4/9/4P4/9/9/9/9/9/9 b G\n1 G*5b 4k4/9/4P4/9/9/9/9/9/9 b G\n",
        3,
        "1 accepted mate 1\n2 fault not rising 3\n3 fault no end\ncertificates 3 accepted 1 refused 0 fault 2\n",
    ),
    // What `solve` prints for one problem has a line in front, which isn't the certificate's.
    (
        "check --collection",
        "1 mate G*5b\ncheckmate G*5b\ncertificate 1 mate 1\nproblem 4k4/9/4P4/9/9/9/9/9/9 b G\n1 G*5b 4k4/9/4P4/9/9/9/9/9/9 b G\nend\n",
        3,
        "1 fault bad head\ncertificates 1 accepted 0 refused 0 fault 1\n",
    ),
];

#[test]
fn each_verdict_of_a_collection_is_judged(rt: HostRuntime) -> Result<(), Fail> {
    for (words, input, status, answer) in RUNS {
        let seen = seen_of(&rt, words, input, (7, 0), (11, 0))?;
        same(
            &rt,
            (words, input),
            (seen.status, seen.kept.as_str()),
            (status, answer),
        );
    }
    Ok(())
}
