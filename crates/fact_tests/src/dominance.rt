// Which entries a position dominates, and which positions dominate it.
ghost use Rattle.std.specs.Prelude.{IfOk, map};
ghost use Rattle.position_places.specs.Places.{AreBoardPlacesOf};

use crate::letters::problem;
use crate::same::same;
use board_core::{Side, key};
use cert_text::{Certificate, CertificateOf, Entry, read_cert};
use dominance_places::{is_dominated, least_dominated};
use hand_dominance::key_dominates;
use position_places::BoardPlaces;
use std::alloc::{AllocError, Global};
use std::test::Fail;

// Hands of one board with ranks of all kinds, and another board.
const MATE: &str =
    "certificate 1 mate 6\nproblem 4k4/9/4P4/9/9/9/9/9/4K4 b G\n3 G*5b 4k4/9/4P4/9/9/9/9/9/4K4 b 2G\n2 G*5b 4k4/9/4P4/9/9/9/9/9/4K4 b G\n2 G*5b 4k4/9/4P4/9/9/9/9/9/4K4 b GP\n1 G*5b 4k4/9/4P4/9/9/9/9/9/4K4 b GS\n2 G*5b 4k4/9/4P4/9/9/9/9/9/4K4 b Gp\n1 G*5b 4k4/9/9/4P4/9/9/9/9/4K4 b -\nend\n";

const ESCAPE: &str =
    "certificate 1 escape 3\nproblem 4k4/9/4P4/9/9/9/9/9/4K4 b G\n4k4/9/4P4/9/9/9/9/9/4K4 b G\n4k4/9/4P4/9/9/9/9/9/4K4 b Pp\n4k4/9/9/4P4/9/9/9/9/4K4 b R\nend\n";

// The places of a certificate's positions, by their boards.
fn boards_of<E: Entry>(
    alloc: Global,
    certificate: &CertificateOf<E>,
) -> Result<BoardPlaces, AllocError>
    ensures { IfOk result (λ boards. AreBoardPlacesOf boards
        (map (E.form certificate.now.problem).at certificate.now.entries)) }
{
    let mut boards = BoardPlaces::new(alloc);
    for entry in certificate.entries() {
        boards.add(entry.position())?;
    }
    Ok(boards)
}

// The place of the least entry that each position dominates.
#[test]
fn the_least_entry_below_is_found(rt: HostRuntime) -> Result<(), Fail> {
    let cases = [
        (Side::Black, "4k4/9/4P4/9/9/9/9/9/4K4 b G", Some(1)),
        (Side::Black, "4k4/9/4P4/9/9/9/9/9/4K4 b GSP", Some(3)),
        (Side::Black, "4k4/9/4P4/9/9/9/9/9/4K4 b 2GP", Some(1)),
        (Side::Black, "4k4/9/4P4/9/9/9/9/9/4K4 b Gp", Some(4)),
        (Side::Black, "4k4/9/4P4/9/9/9/9/9/4K4 b G2p", None),
        (Side::Black, "4k4/9/4P4/9/9/9/9/9/4K4 b SP", None),
        (Side::Black, "4k4/9/4P4/9/9/9/9/9/4K4 w G", None),
        (Side::Black, "4k4/9/9/4P4/9/9/9/9/4K4 b G", Some(5)),
        (Side::Black, "4k4/9/9/9/9/9/9/9/4K4 b 2G", None),
        (Side::White, "4k4/9/4P4/9/9/9/9/9/4K4 b -", Some(3)),
        (Side::White, "4k4/9/4P4/9/9/9/9/9/4K4 b GP", Some(2)),
    ];
    if let Certificate::Mate(mate) = &read_cert(rt.alloc(), MATE.as_bytes())? {
        let boards = boards_of(rt.alloc(), mate)?;
        let mut places = Vec::new(rt.alloc());
        for (attacker, text, wanted) in &cases {
            let position = problem(&rt, *text).position;
            let found = least_dominated(
                mate.entries(),
                &boards,
                *attacker,
                &position,
                &mut places,
            )?;
            same(&rt, text, found, *wanted);
        }
        return Ok(());
    }
    panic!(&rt; "no mate: {MATE}")
}

// Whether a listed position dominates each.
#[test]
fn what_is_dominated_is_found(rt: HostRuntime) -> Result<(), Fail> {
    let cases = [
        (Side::Black, "4k4/9/4P4/9/9/9/9/9/4K4 b G", true),
        (Side::Black, "4k4/9/4P4/9/9/9/9/9/4K4 b -", true),
        (Side::Black, "4k4/9/4P4/9/9/9/9/9/4K4 b Gp", true),
        (Side::Black, "4k4/9/4P4/9/9/9/9/9/4K4 b P", false),
        (Side::Black, "4k4/9/4P4/9/9/9/9/9/4K4 b Pp", true),
        (Side::Black, "4k4/9/4P4/9/9/9/9/9/4K4 b GP", false),
        (Side::Black, "4k4/9/4P4/9/9/9/9/9/4K4 w G", false),
        (Side::Black, "4k4/9/9/4P4/9/9/9/9/4K4 b 2R", false),
        (Side::White, "4k4/9/4P4/9/9/9/9/9/4K4 b GP", true),
        (Side::White, "4k4/9/4P4/9/9/9/9/9/4K4 b -", false),
    ];
    if let Certificate::Escape(escape) = &read_cert(rt.alloc(), ESCAPE.as_bytes())? {
        let boards = boards_of(rt.alloc(), escape)?;
        let mut places = Vec::new(rt.alloc());
        for (attacker, text, wanted) in &cases {
            let position = problem(&rt, *text).position;
            let found = is_dominated(escape.entries(), &boards, *attacker, &position, &mut places)?;
            same(&rt, text, found, *wanted);
        }
        return Ok(());
    }
    panic!(&rt; "no escape: {ESCAPE}")
}

// Whether the one position dominates the other for the attacker, told by their keys.
#[test]
fn keys_tell_which_position_dominates_which(rt: HostRuntime) {
    let cases = [
        (
            Side::Black,
            "4k4/9/4P4/9/9/9/9/9/4K4 b G",
            "4k4/9/4P4/9/9/9/9/9/4K4 b G",
            true,
        ),
        (
            Side::Black,
            "4k4/9/4P4/9/9/9/9/9/4K4 b GP",
            "4k4/9/4P4/9/9/9/9/9/4K4 b G",
            true,
        ),
        (
            Side::Black,
            "4k4/9/4P4/9/9/9/9/9/4K4 b G",
            "4k4/9/4P4/9/9/9/9/9/4K4 b GP",
            false,
        ),
        (
            Side::Black,
            "4k4/9/4P4/9/9/9/9/9/4K4 b G",
            "4k4/9/4P4/9/9/9/9/9/4K4 b Gp",
            true,
        ),
        (
            Side::Black,
            "4k4/9/4P4/9/9/9/9/9/4K4 b Gp",
            "4k4/9/4P4/9/9/9/9/9/4K4 b G",
            false,
        ),
        (
            Side::White,
            "4k4/9/4P4/9/9/9/9/9/4K4 b Gp",
            "4k4/9/4P4/9/9/9/9/9/4K4 b G",
            true,
        ),
        (
            Side::White,
            "4k4/9/4P4/9/9/9/9/9/4K4 b GP",
            "4k4/9/4P4/9/9/9/9/9/4K4 b G",
            false,
        ),
        (
            Side::Black,
            "4k4/9/4P4/9/9/9/9/9/4K4 w G",
            "4k4/9/4P4/9/9/9/9/9/4K4 b G",
            false,
        ),
        (
            Side::Black,
            "4k4/9/9/4P4/9/9/9/9/4K4 b G",
            "4k4/9/4P4/9/9/9/9/9/4K4 b G",
            false,
        ),
        // More of one kind don't make up for another, and each kind has bits of its own.
        (
            Side::Black,
            "4k4/9/4P4/9/9/9/9/9/4K4 b 2R2B4G4S4N4L16P",
            "4k4/9/4P4/9/9/9/9/9/4K4 b 17P",
            false,
        ),
        (
            Side::Black,
            "4k4/9/4P4/9/9/9/9/9/4K4 b 17P",
            "4k4/9/4P4/9/9/9/9/9/4K4 b 16P",
            true,
        ),
        (
            Side::Black,
            "4k4/9/4P4/9/9/9/9/9/4K4 b R2B4G4S4N4L17P",
            "4k4/9/4P4/9/9/9/9/9/4K4 b 2R",
            false,
        ),
        (
            Side::Black,
            "4k4/9/4P4/9/9/9/9/9/4K4 b 2RB4G4S4N4L17P",
            "4k4/9/4P4/9/9/9/9/9/4K4 b 2B",
            false,
        ),
        (
            Side::Black,
            "4k4/9/4P4/9/9/9/9/9/4K4 b 2R2B3G4S4N4L17P",
            "4k4/9/4P4/9/9/9/9/9/4K4 b 4G",
            false,
        ),
        (
            Side::Black,
            "4k4/9/4P4/9/9/9/9/9/4K4 b 2R2B4G3S4N4L17P",
            "4k4/9/4P4/9/9/9/9/9/4K4 b 4S",
            false,
        ),
        (
            Side::Black,
            "4k4/9/4P4/9/9/9/9/9/4K4 b 2R2B4G4S3N4L17P",
            "4k4/9/4P4/9/9/9/9/9/4K4 b 4N",
            false,
        ),
        (
            Side::Black,
            "4k4/9/4P4/9/9/9/9/9/4K4 b 2R2B4G4S4N3L17P",
            "4k4/9/4P4/9/9/9/9/9/4K4 b 4L",
            false,
        ),
        (
            Side::Black,
            "4k4/9/4P4/9/9/9/9/9/4K4 b 2R2B4G4S4N4L17P",
            "4k4/9/4P4/9/9/9/9/9/4K4 b 2R2B4G4S4N4L17P",
            true,
        ),
    ];
    for (attacker, over, under, wanted) in cases {
        let (high, low) = (
            key(&problem(&rt, over).position),
            key(&problem(&rt, under).position),
        );
        same(
            &rt,
            (over, under),
            key_dominates(attacker, &high, &low),
            wanted,
        );
    }
}
