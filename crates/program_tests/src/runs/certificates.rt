// Printed certificates: the checker accepts them, and none is larger than the room.
use super::examples::{GOLD, TWO_ROOKS};
use super::seen::seen_of;
use crate::same::same;
use std::test::Fail;

#[test]
fn a_printed_verdict_is_accepted(rt: HostRuntime) -> Result<(), Fail> {
    // A problem, and how the checker's answer to what is printed for it begins.
    let table = [
        (GOLD, "accepted mate 1\n"),
        ("9/9/9/9/9/9/4p4/9/4K4 w g 1\n", "accepted mate 1\n"),
        (
            "position sfen 4k4/9/22P4/9/9/9/9/9/9 b 1G",
            "accepted mate 1\n",
        ),
        (TWO_ROOKS, "accepted mate 4\n"),
        // A second pawn on the file is no drop; the pawn's own moves are answered.
        ("4k4/9/4P4/9/9/9/9/9/9 b P 1\n", "accepted escape "),
        // A lone rook checks without end, and chases the king round.
        ("4k4/9/9/9/9/9/9/9/R8 b - 1\n", "accepted escape "),
        ("5k3/9/9/9/9/9/9/9/4R4 b -\n", "accepted escape "),
    ];
    for (problem, verdict) in table {
        let solved = seen_of(&rt, "solve", problem, (7, 0), (11, 0))?;
        same(&rt, problem, solved.status, 0);
        let checked = seen_of(&rt, "check", solved.kept.as_str(), (5, 0), (3, 0))?;
        same(&rt, problem, checked.status, 0);
        let text = checked.kept.as_str();
        same(&rt, (problem, text), text.starts_with(verdict), true);
    }
    Ok(())
}

#[test]
fn no_certificate_has_more_entries_than_the_room(rt: HostRuntime) -> Result<(), Fail> {
    // A problem, and a room that is too small for it: none for a mate of one move; a mate of three
    // moves lists four positions.
    let table = [(GOLD, 0), (TWO_ROOKS, 3)];
    for (problem, least) in table {
        let mut too_small = 0;
        for room in 1..65usize {
            let words = format!(in rt.alloc(); "solve --rows 16 --room {room}")?;
            let seen = seen_of(&rt, words.as_str(), problem, (64, 0), (4096, 0))?;
            if seen.status == 0 {
                // Four lines more than entries.
                let lines = seen
                    .kept
                    .as_bytes()
                    .iter()
                    .filter(|byte| **byte == b'\n')
                    .count();
                same(&rt, (problem, room, lines), lines <= room + 4, true);
            } else {
                too_small = room;
                let told = format!(in rt.alloc(); "checkmate timeout\nunknown room {room}\n")?;
                same(&rt, (problem, room), seen.status, 1);
                same(&rt, (problem, room), seen.kept.as_str(), told.as_str());
            }
        }
        let is_between = least <= too_small && too_small < 64;
        same(&rt, (problem, too_small), is_between, true);
    }
    Ok(())
}
