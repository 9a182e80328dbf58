// Runs of `solve --library`, another program's.
use super::seen::seen_of;
use crate::same::same;
use std::test::Fail;

// Words, an input, and the status, what the user is told beside the answer, and the answer.
static RUNS: [(&str, &str, u8, &str, &str); 18] = [
    (
        "solve --library --expansions 1",
        "4k4/9/4P4/9/9/9/9/9/9 b G 1\nlibrary 1 1\ncertificate 1 mate 1\nproblem 4k4/9/4P4/9/9/9/9/9/9 b G\n1 G*5b 4k4/9/4P4/9/9/9/9/9/9 b G\nend\nend library\n",
        0,
        "",
        "checkmate G*5b\ncertificate 1 mate 1\nproblem 4k4/9/4P4/9/9/9/9/9/9 b G\n1 G*5b 4k4/9/4P4/9/9/9/9/9/9 b G\nend\n",
    ),
    (
        "solve --expansions 1",
        "4k4/9/4P4/9/9/9/9/9/9 b G 1\n",
        1,
        "",
        "checkmate timeout\nunknown expansions 1\n",
    ),
    (
        "solve --library --expansions 1",
        "4k4/9/4P4/9/9/9/9/9/9 b GP\nlibrary 1 1\ncertificate 1 mate 1\nproblem 4k4/9/4P4/9/9/9/9/9/9 b G\n1 G*5b 4k4/9/4P4/9/9/9/9/9/9 b G\nend\nend library\n",
        0,
        "",
        "checkmate G*5b\ncertificate 2 mate 1\nproblem 4k4/9/4P4/9/9/9/9/9/9 b GP\n1 G*5b 4k4/9/4P4/9/9/9/9/9/9 b G\nend\n",
    ),
    (
        "solve --library --expansions 1",
        "4k4/9/4P4/9/9/9/9/9/9 b G 1\nlibrary 1 1\ncertificate 1 mate 1\nproblem 4k4/9/4P4/9/9/9/9/9/9 b G\n1 G*4b 4k4/9/4P4/9/9/9/9/9/9 b G\nend\nend library\n",
        7,
        "",
        "refused library 1 1 outside 5a4b\n",
    ),
    (
        "solve --library --expansions 1",
        "4k4/9/4P4/9/9/9/9/9/9 b G 1\nlibrary 1 1\ncertificate 1 mate 1\nproblem 4k4/9/4P4/9/9/9/9/9/9 b G\n1 G*5b 4k4/9/4P4/9/9/9/9/9/9 b G\nend\n",
        3,
        "library 2: no end",
        "",
    ),
    (
        "solve --library --expansions 1",
        "4k4/9/4P4/9/9/9/9/9/9 b G 1\nlibrary 1 0\nend library\n",
        1,
        "",
        "checkmate timeout\nunknown expansions 1\n",
    ),
    (
        "solve --library --rest",
        "4k4/9/4P4/9/9/9/9/9/9 b G 1\nlibrary 1 1\ncertificate 1 mate 1\nproblem 4k4/9/4P4/9/9/9/9/9/9 b G\n1 G*5b 4k4/9/4P4/9/9/9/9/9/9 b G\nend\nend library\n",
        0,
        "",
        "checkmate G*5b\ncertificate 1 mate 1\nproblem 4k4/9/4P4/9/9/9/9/9/9 b G2r2b3g4s4n4l17p\n1 G*5b 4k4/9/4P4/9/9/9/9/9/9 b G2r2b3g4s4n4l17p\nend\n",
    ),
    (
        "solve --library --expansions 1",
        "4k4/9/4P4/9/9/9/9/9/9 b - 1\nlibrary 1 1\ncertificate 1 mate 1\nproblem 4k4/9/4P4/9/9/9/9/9/9 b G\n1 G*5b 4k4/9/4P4/9/9/9/9/9/9 b G\nend\nend library\n",
        1,
        "",
        "checkmate timeout\nunknown expansions 1\n",
    ),
    (
        "solve --library --kif",
        "4k4/9/4P4/9/9/9/9/9/9 b G 1\nlibrary 1 1\ncertificate 1 mate 1\nproblem 4k4/9/4P4/9/9/9/9/9/9 b G\n1 G*5b 4k4/9/4P4/9/9/9/9/9/9 b G\nend\nend library\n",
        2,
        "library with kif",
        "",
    ),
    (
        "solve --library",
        "4k4/9/4P4/9/9/9/9/9/9 b G 1 1\nlibrary 1 0\nend library\n",
        3,
        "trailing at 28",
        "",
    ),
    (
        "solve --library --expansions 1",
        "4k4/9/4P4/9/9/9/9/9/9 b G 1\n",
        3,
        "library 0: bad head",
        "",
    ),
    (
        "solve --library --expansions 1",
        "4k4/9/4P4/9/9/9/9/9/9 b G 1\nlibrary 1 2\ncertificate 1 mate 1\nproblem 4k4/9/4P4/9/9/9/9/9/9 b G\n1 G*5b 4k4/9/4P4/9/9/9/9/9/9 b G\nend\nend library\n",
        3,
        "library 2: bad head",
        "",
    ),
    (
        "solve --library --expansions 1",
        "4k4/9/4P4/9/9/9/9/9/9 b G 1\nlibrary 1 1\ncheckmate G*5b\ncertificate 1 mate 1\nproblem 4k4/9/4P4/9/9/9/9/9/9 b G\n1 G*5b 4k4/9/4P4/9/9/9/9/9/9 b G\nend\nend library\n",
        3,
        "library 1: bad head",
        "",
    ),
    (
        "solve --library --expansions 1",
        "4k4/9/4P4/9/9/9/9/9/9 b G 1\nlibrary 1 1\ncertificate 1 mate 2\nproblem 4k4/9/4P4/9/9/9/9/9/9 b G\n1 G*5b 4k4/9/4P4/9/9/9/9/9/9 b G\nend\nend library\n",
        3,
        "library 1: wrong count",
        "",
    ),
    (
        "solve --library --expansions 1",
        "4k4/9/4P4/9/9/9/9/9/9 b G 1\nlibrary 1 2\ncertificate 1 mate 1\nproblem 4k4/9/4P4/9/9/9/9/9/9 b G\n1 G*5b 4k4/9/4P4/9/9/9/9/9/9 b G\nend\ncertificate 1 mate 1\nproblem 4k4/9/4P4/9/9/9/9/9/9 b G\n1 P*5b 4k4/9/4P4/9/9/9/9/9/9 b G\nend\nend library\n",
        7,
        "",
        "refused library 2 1 move P*5b\n",
    ),
    (
        "solve --library --expansions 1",
        "4k4/9/4P4/9/9/9/9/9/9 b G 1\nlibrary 1 2\ncertificate 1 mate 1\nproblem 4k4/9/4P4/9/9/9/9/9/9 b G\n1 G*5b 4k4/9/4P4/9/9/9/9/9/9 b G\nend\ncertificate 2 mate 1\nproblem 4k4/9/4P4/9/9/9/9/9/9 b G\n1 G*5b 4k4/9/4P4/9/9/9/9/9/9 b G\nend\nend library\n",
        0,
        "",
        "checkmate G*5b\ncertificate 1 mate 1\nproblem 4k4/9/4P4/9/9/9/9/9/9 b G\n1 G*5b 4k4/9/4P4/9/9/9/9/9/9 b G\nend\n",
    ),
    (
        "solve --library --expansions 1",
        "4k4/9/4P4/9/9/9/9/9/9 b G 1\nlibrary 1 1\ncertificate 2 mate 1\nproblem 4k4/9/4P4/9/9/9/9/9/9 b GP\n1 G*5b 4k4/9/4P4/9/9/9/9/9/9 b G\nend\nend library\n",
        0,
        "",
        "checkmate G*5b\ncertificate 2 mate 1\nproblem 4k4/9/4P4/9/9/9/9/9/9 b G\n1 G*5b 4k4/9/4P4/9/9/9/9/9/9 b G\nend\n",
    ),
    (
        "solve --library --expansions 11",
        "9/9/9/9/9/7+p1/5s3/6G2/5PK2 w 2RB3G4N3L13Pb3sl3p\nlibrary 1 1\ncertificate 2 mate 5\nproblem 9/9/9/9/9/7+p1/5s3/6G2/5PK2 w 2RB3G4N3L13Pb3sl3p\n4 4g3h+ 9/9/9/9/9/7+p1/5s3/6G2/5PK2 w 2RB3G4N3L13Pb3sl3p\n1 2f1g 9/9/9/9/9/7+p1/6g2/7sK/5P3 w 2RB3GS4N3L13Pb2sl3p\n2 S*2h 9/9/9/9/9/7+p1/6g2/9/5P1K1 w 2RB3GS4N3L13Pb3sl3p\n1 S*2h 9/9/9/9/9/7+p1/6g2/9/5PK2 w 2RB3GS4N3L13Pb3sl3p\n3 G*3g 9/9/9/9/9/7+p1/9/6K2/5P3 w 2RB3GS4N3L13Pbg3sl3p\nend\nend library\n",
        0,
        "",
        "checkmate 4g3h+ 3i3h G*3g 3h2i S*2h 2i1h 2f1g\ncertificate 2 mate 5\nproblem 9/9/9/9/9/7+p1/5s3/6G2/5PK2 w 2RB3G4N3L13Pb3sl3p\n4 4g3h+ 9/9/9/9/9/7+p1/5s3/6G2/5PK2 w 2RB3G4N3L13Pb3sl3p\n1 2f1g 9/9/9/9/9/7+p1/6g2/7sK/5P3 w 2RB3GS4N3L13Pb2sl3p\n2 S*2h 9/9/9/9/9/7+p1/6g2/9/5P1K1 w 2RB3GS4N3L13Pb3sl3p\n1 S*2h 9/9/9/9/9/7+p1/6g2/9/5PK2 w 2RB3GS4N3L13Pb3sl3p\n3 G*3g 9/9/9/9/9/7+p1/9/6K2/5P3 w 2RB3GS4N3L13Pbg3sl3p\nend\n",
    ),
];

#[test]
fn a_search_begins_with_its_library(rt: HostRuntime) -> Result<(), Fail> {
    for (words, input, status, fault, answer) in RUNS {
        let seen = seen_of(&rt, words, input, (7, 0), (11, 0))?;
        let found = (seen.status, seen.fault.as_str(), seen.kept.as_str());
        same(&rt, (words, input), found, (status, fault, answer));
    }
    Ok(())
}
