// Notes of what accepted certificates list, and the certificates that they are extracted to.
use crate::checked::carried;
use crate::extraction::{TOO_MANY, text_of};
use crate::letters::problem;
use crate::same::{same, shown};
use crate::texts::{CHASE, MATE_IN_ONE, TWO_ROOKS};
use cert_check::{Verdict, check};
use cert_extract::leaves;
use cert_text::read_cert;
use notes::Note;
use std::alloc::Global;
use std::process::Abort;
use std::test::Fail;

// The pawn in hand isn't needed: in version 2 what is listed stands for the problem.
const RICHER: &str =
    "certificate 2 mate 1\nproblem 4k4/9/4P4/9/9/9/9/9/9 b GP\n1 G*5b 4k4/9/4P4/9/9/9/9/9/9 b G\nend\n";

// The leaf is of version 2, so what it is listed in is.
const AS_RICHER: &str =
    "certificate 2 mate 1\nproblem 4k4/9/4P4/9/9/9/9/9/9 b G\n1 G*5b 4k4/9/4P4/9/9/9/9/9/9 b G\nend\n";

// One of the entries of two rooks, which needs no other.
const ROOK_AGAIN: &str =
    "certificate 1 mate 1\nproblem 4k4/R8/8R/9/9/9/9/9/9 b -\n1 1c1a 4k4/R8/8R/9/9/9/9/9/9 b -\nend\n";

// The chase from the other of its positions: all of them are needed.
const CHASE_ON: &str =
    "certificate 1 escape 6\nproblem 4k4/9/9/9/9/9/9/9/5R3 b -\n4k4/9/9/9/9/9/9/9/5R3 b -\n4k4/9/9/9/9/9/9/9/9 b r\n5k3/9/9/9/9/9/9/9/4R4 b -\n5k3/9/9/9/9/9/9/9/9 b r\n9/4k4/9/9/9/9/9/9/9 b r\n9/5k3/9/9/9/9/9/9/9 b r\nend\n";

// The leaves of what a certificate lists that is accepted.
fn leaves_in(alloc: Global, text: &str) -> Result<Vec<Note>, Fail> {
    let certificate = read_cert(alloc, text.as_bytes())?;
    match check(alloc, certificate.problem(), &certificate)? {
        Verdict::Accepted => Ok(leaves(alloc, &certificate)?),
        Verdict::Refused { .. } => Err(Fail::from("refused")),
    }
}

#[test]
fn a_leaf_is_extracted_with_what_stands_with_it(rt: HostRuntime) -> Result<(), Fail> {
    let alloc = rt.alloc();
    // What was listed, how many leaves that has, which of them, its height, the problem that it
    // answers, itself or carried, with so many entries at most, and the certificate.
    let rows = [
        (
            MATE_IN_ONE,
            1,
            0,
            2,
            "4k4/9/4P4/9/9/9/9/9/9 b G",
            1,
            MATE_IN_ONE,
        ),
        (
            MATE_IN_ONE,
            1,
            0,
            2,
            "4k4/9/4P4/9/9/9/9/9/9 b GP",
            1,
            RICHER,
        ),
        (RICHER, 1, 0, 2, "4k4/9/4P4/9/9/9/9/9/9 b G", 1, AS_RICHER),
        (TWO_ROOKS, 4, 3, 4, "9/4k4/8R/9/9/9/9/9/9 b R", 4, TWO_ROOKS),
        (TWO_ROOKS, 4, 3, 4, "9/4k4/8R/9/9/9/9/9/9 b R", 3, TOO_MANY),
        (
            TWO_ROOKS,
            4,
            1,
            2,
            "4k4/R8/8R/9/9/9/9/9/9 b -",
            1,
            ROOK_AGAIN,
        ),
        (CHASE, 6, 2, 1, "5k3/9/9/9/9/9/9/9/4R4 b -", 6, CHASE),
        (CHASE, 6, 0, 1, "4k4/9/9/9/9/9/9/9/5R3 b -", 6, CHASE_ON),
        (CHASE, 6, 0, 1, "4k4/9/9/9/9/9/9/9/5R3 b -", 5, TOO_MANY),
    ];
    for (listed, many, place, height, at, most, wanted) in rows {
        let notes = leaves_in(alloc, listed)?;
        let problem = problem(&rt, at);
        let leaf = notes.get(place).expect(&rt, listed);
        let about = leaf.position().is_same(&problem.position);
        let note = if about {
            leaf.share()?
        } else {
            carried(alloc, &problem, &problem.position, leaf)?
        };
        let text = text_of(alloc, &problem, &note, most)?;
        same(&rt, (listed, place), shown(&text), wanted);
        same(
            &rt,
            (at, place),
            (notes.len(), note.height()),
            (many, height),
        );
    }
    Ok(())
}
