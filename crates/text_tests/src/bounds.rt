// Bounds as texts: those that are read are written again, and of the others the first line that is
// wrong is named.
use crate::same::{same, shown};
use bound_text::{BoundEnd, read_bound, write_bound};
use sfen_text::read_sfen;
use shogi_rules::{Problem, accept_problem};
use std::alloc::{AllocError, Global};
use std::process::Abort;
use std::test::Fail;

// Two rooks' mate, and the king alone.
const ROOKS: &str = "9/4k4/8R/9/9/9/9/9/9 b R";

const BARE: &str = "4k4/9/9/9/9/9/9/9/9 b -";

fn problem(rt: &impl Abort, text: &str) -> Problem {
    match read_sfen(text.as_bytes()) {
        Ok(position) => match accept_problem(position) {
            Ok(problem) => problem,
            Err(_) => panic!(rt; "in check: {text}"),
        },
        Err(fault) => panic!(rt; "{fault:?}: {text}"),
    }
}

#[test]
fn bounds_are_read_and_written(rt: HostRuntime) {
    let rooks = problem(&rt, ROOKS);
    for text in [
        "bound 1 0\nend\n",
        "bound 1 1\n1 9/4k4/8R/9/9/9/9/9/9 b R\nend\n",
        "bound 1 2\n999999999 3k5/9/9/9/9/9/9/9/9 b -\n3 4k4/9/9/9/9/9/9/9/9 b -\nend\n",
        "bound 1 7\n1 9/1k7/3+RG3n/9/9/5P3/9/3R5/9 b -\n1 9/2k6/4G3n/+R8/9/5P3/9/3R5/9 b -\n2 9/9/1k2G3n/3+R5/9/5P3/9/3R5/9 b -\n1 9/9/2k1G3n/9/9/5P3/9/3R5/9 b r\n1 9/9/4G3n/1k7/9/5P3/9/3R5/9 b r\n1 9/9/4G3n/2k6/9/5P3/9/3R5/9 b r\n1 9/9/k3G3n/3+R5/9/5P3/9/1R7/9 b -\nend\n",
    ] {
        let bound = read_bound(rt.alloc(), text.as_bytes(), &rooks)
            .ok()
            .expect(&rt, "a bound");
        let again = write_bound(rt.alloc(), &bound).ok().expect(&rt, "memory");
        same(&rt, text, shown(&again), text);
    }
}

// A text that is no bound's, and its first line that is wrong.
fn refused(
    alloc: Global,
    rt: &impl Abort,
    text: &str,
    problem: &Problem,
    wanted: &str,
) -> Result<(), AllocError> {
    let end = read_bound(alloc, text.as_bytes(), problem).err();
    match end.expect(rt, "a fault") {
        BoundEnd::Fault(fault) => {
            let found = format!(in alloc; "{fault}")?;
            same(rt, text, found.as_str(), wanted);
        }
        BoundEnd::NoMemory => same(rt, text, "no memory", wanted),
    }
    Ok(())
}

#[test]
fn the_first_line_of_a_bound_that_is_wrong_is_named(rt: HostRuntime) -> Result<(), Fail> {
    let rooks = problem(&rt, ROOKS);
    for (text, wanted) in [
        ("", "bad bound 0"),
        ("boun", "bad bound 0"),
        (
            "bound 2 1\n1 9/4k4/8R/9/9/9/9/9/9 b R\nend\n",
            "bad bound 0",
        ),
        (
            "bound 1 01\n1 9/4k4/8R/9/9/9/9/9/9 b R\nend\n",
            "bad bound 0",
        ),
        (
            "bound 1 1 \n1 9/4k4/8R/9/9/9/9/9/9 b R\nend\n",
            "bad bound 0",
        ),
        ("bound 1 \nend\n", "bad bound 0"),
        ("bound 1 00\nend\n", "bad bound 0"),
        (
            "bound 1 +1\n1 9/4k4/8R/9/9/9/9/9/9 b R\nend\n",
            "bad bound 0",
        ),
        (
            "bound 1 0\n1 9/4k4/8R/9/9/9/9/9/9 b R\nend\n",
            "bad bound 1",
        ),
        (
            "bound 1 2\n1 9/4k4/8R/9/9/9/9/9/9 b R\nend\n",
            "bad bound 2",
        ),
        (
            "bound 1 1\n01 9/4k4/8R/9/9/9/9/9/9 b R\nend\n",
            "bad bound 1",
        ),
        (
            "bound 1 1\n0 9/4k4/8R/9/9/9/9/9/9 b R\nend\n",
            "bad bound 1",
        ),
        (
            "bound 1 1\n1000000000 9/4k4/8R/9/9/9/9/9/9 b R\nend\n",
            "bad bound 1",
        ),
        (
            "bound 1 1\n1  9/4k4/8R/9/9/9/9/9/9 b R\nend\n",
            "bad bound 1",
        ),
        (
            "bound 1 1\n1 9/4K4/8r/9/9/9/9/9/9 w r\nend\n",
            "bad bound 1",
        ),
        ("bound 1 1\n1 9/4k4/8R/9/9/9/9/9/9 b R", "bad bound 1"),
        ("bound 1 1\n1 9/4k4/8R/9/9/9/9/9/9 b R\n", "bad bound 2"),
        ("bound 1 1\n1 9/4k4/8R/9/9/9/9/9/9 b R\nend", "bad bound 2"),
        (
            "bound 1 1\n1 9/4k4/8R/9/9/9/9/9/9 b R\nend\n\n",
            "bad bound 3",
        ),
        (
            "bound 1 1\n1 9/4k4/8R/9/9/9/9/9/9 b R\nend\nend\n",
            "bad bound 3",
        ),
        (
            "bound 1 99999999999999999999999999999\n1 9/4k4/8R/9/9/9/9/9/9 b R\nend\n",
            "bad bound 2",
        ),
    ] {
        refused(rt.alloc(), &rt, text, &rooks, wanted)?;
    }
    let bare = problem(&rt, BARE);
    for text in [
        "bound 1 2\n3 4k4/9/9/9/9/9/9/9/9 b -\n3 4k4/9/9/9/9/9/9/9/9 b -\nend\n",
        "bound 1 2\n9 5k3/9/9/9/9/9/9/9/9 b -\n3 4k4/9/9/9/9/9/9/9/9 b -\nend\n",
    ] {
        refused(rt.alloc(), &rt, text, &bare, "bad bound 2")?;
    }
    Ok(())
}
