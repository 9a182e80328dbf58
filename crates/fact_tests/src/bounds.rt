// The checker on bounds whose verdicts are known from elsewhere.
use crate::letters::{by, problem};
use crate::same::same;
use bound_check::{BoundVerdict, check_bound};
use bound_text::read_bound;
use std::alloc::Global;
use std::process::Abort;
use std::test::Fail;

const GOLD: &str = "4k4/9/4P4/9/9/9/9/9/9 b G";

const ROOKS: &str = "9/4k4/8R/9/9/9/9/9/9 b R";

const BARE: &str = "4k4/9/9/9/9/9/9/9/9 b -";

const CHASED: &str = "9/9/1k2G3n/3+R5/9/5P3/9/3R5/9 b -";

const NONE: &str = "bound 1 0\nend\n";

const GOLD_IN_ONE: &str = "bound 1 1\n1 4k4/9/4P4/9/9/9/9/9/9 b G\nend\n";

const ROOKS_IN_ONE: &str = "bound 1 1\n1 9/4k4/8R/9/9/9/9/9/9 b R\nend\n";

const ROOKS_IN_TWO: &str = "bound 1 1\n2 9/4k4/8R/9/9/9/9/9/9 b R\nend\n";

const BARE_IN_THREE: &str = "bound 1 1\n3 4k4/9/9/9/9/9/9/9/9 b -\nend\n";

const BARE_AND_ANOTHER: &str =
    "bound 1 2\n9 3k5/9/9/9/9/9/9/9/9 b -\n3 4k4/9/9/9/9/9/9/9/9 b -\nend\n";

const CHASED_IN_TWO: &str =
    "bound 1 7\n1 9/1k7/3+RG3n/9/9/5P3/9/3R5/9 b -\n1 9/2k6/4G3n/+R8/9/5P3/9/3R5/9 b -\n2 9/9/1k2G3n/3+R5/9/5P3/9/3R5/9 b -\n1 9/9/2k1G3n/9/9/5P3/9/3R5/9 b r\n1 9/9/4G3n/1k7/9/5P3/9/3R5/9 b r\n1 9/9/4G3n/2k6/9/5P3/9/3R5/9 b r\n1 9/9/k3G3n/3+R5/9/5P3/9/1R7/9 b -\nend\n";

// The second position is left out.
const ONE_LEFT_OUT: &str =
    "bound 1 6\n1 9/1k7/3+RG3n/9/9/5P3/9/3R5/9 b -\n2 9/9/1k2G3n/3+R5/9/5P3/9/3R5/9 b -\n1 9/9/2k1G3n/9/9/5P3/9/3R5/9 b r\n1 9/9/4G3n/1k7/9/5P3/9/3R5/9 b r\n1 9/9/4G3n/2k6/9/5P3/9/3R5/9 b r\n1 9/9/k3G3n/3+R5/9/5P3/9/1R7/9 b -\nend\n";

// The last position is said to be no mate within two.
const ONE_TOO_GREAT: &str =
    "bound 1 7\n1 9/1k7/3+RG3n/9/9/5P3/9/3R5/9 b -\n1 9/2k6/4G3n/+R8/9/5P3/9/3R5/9 b -\n2 9/9/1k2G3n/3+R5/9/5P3/9/3R5/9 b -\n1 9/9/2k1G3n/9/9/5P3/9/3R5/9 b r\n1 9/9/4G3n/1k7/9/5P3/9/3R5/9 b r\n1 9/9/4G3n/2k6/9/5P3/9/3R5/9 b r\n2 9/9/k3G3n/3+R5/9/5P3/9/1R7/9 b -\nend\n";

const ROOT: BoundVerdict = BoundVerdict::Refused {
    entry: 0,
    check: None,
};

fn refused(rt: &impl Abort, entry: u64, check: &str) -> BoundVerdict {
    BoundVerdict::Refused {
        entry,
        check: Some(by(rt, check)),
    }
}

fn verdict_of(
    alloc: Global,
    rt: &impl Abort,
    sfen: &str,
    within: u32,
    text: &str,
) -> Result<BoundVerdict, Fail> {
    let problem = problem(rt, sfen);
    let bound = read_bound(alloc, text.as_bytes(), &problem)?;
    Ok(check_bound(alloc, &problem, &bound, within)?)
}

#[test]
fn bounds_are_accepted_or_refused_at_the_first_check(rt: HostRuntime) -> Result<(), Fail> {
    let cases = [
        (GOLD, 0, NONE, BoundVerdict::Accepted),
        // An entry that nothing needs is judged too.
        (GOLD, 0, GOLD_IN_ONE, refused(&rt, 1, "G*5b")),
        (ROOKS, 1, ROOKS_IN_ONE, BoundVerdict::Accepted),
        (ROOKS, 1, ROOKS_IN_TWO, refused(&rt, 1, "1c1b")),
        (BARE, 2, BARE_IN_THREE, BoundVerdict::Accepted),
        (BARE, 3, BARE_AND_ANOTHER, BoundVerdict::Accepted),
        (BARE, 4, BARE_IN_THREE, ROOT),
        (BARE, 3, NONE, ROOT),
        (CHASED, 2, CHASED_IN_TWO, BoundVerdict::Accepted),
        (CHASED, 2, ONE_LEFT_OUT, refused(&rt, 2, "6d9d")),
        (CHASED, 2, ONE_TOO_GREAT, refused(&rt, 7, "6d6c")),
    ];
    for (sfen, within, text, expected) in &cases {
        let verdict = verdict_of(rt.alloc(), &rt, *sfen, *within, *text)?;
        same(&rt, (*within, *text), verdict, *expected);
    }
    Ok(())
}
