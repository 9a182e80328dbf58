// Moves and the lines of answers as texts of the USI protocol, by examples.
ghost use Rattle.board_core.specs.Text.{HasText};

use crate::same::{same, shown};
use board_core::{Kind, Move, Square};
use std::process::Abort;
use std::test::Fail;
use usi_text::{mate_line, nomate_line, read_move, timeout_line, write_move};

// Texts, and the moves that they are by the USI protocol. A square's number is 9 * (file - 1) +
// (row - 1).
#[test]
fn moves_are_read_and_written(rt: HostRuntime) -> Result<(), Fail> {
    let table = [
        ("7g7f", board(&rt, 60, 59, false)),
        ("8h2b+", board(&rt, 70, 10, true)),
        ("1a9i", board(&rt, 0, 80, false)),
        ("G*5b", drop(&rt, Kind::Gold, 37)),
        ("P*9i", drop(&rt, Kind::Pawn, 80)),
        ("R*1a", drop(&rt, Kind::Rook, 0)),
    ];
    for (text, m) in table {
        let found = read(&rt, text.as_bytes());
        same(&rt, text, found, m);
        let written = format!(in rt.alloc(); "{}", write_move(found))?;
        same(&rt, text, written.as_str(), text);
    }
    Ok(())
}

#[test]
fn other_texts_are_no_moves(rt: HostRuntime) {
    let table = [
        "", "7", "7g7", "7g7g", "7g7f ", " 7g7f", "7g7f++", "7g7f=", "0g7f", "7j7f", "7G7f",
        "g*5b", "K*5b", "G*5j", "G*0a", "G*5b+", "+R*5b", "G5b", "resign",
    ];
    for text in table {
        same(&rt, text, read_move(text.as_bytes()), None);
    }
}

#[test]
fn the_three_lines(rt: HostRuntime) {
    let moves = [read(&rt, b"G*5b"), read(&rt, b"8h2b+")];
    let line = mate_line(rt.alloc(), &moves).expect(&rt, "memory");
    same(&rt, "line", shown(&line), "checkmate G*5b 8h2b+");
    let line = nomate_line(rt.alloc()).expect(&rt, "memory");
    same(&rt, "line", shown(&line), "checkmate nomate");
    let line = timeout_line(rt.alloc()).expect(&rt, "memory");
    same(&rt, "line", shown(&line), "checkmate timeout");
}

fn read(rt: &impl Abort, text: &[u8]) -> Move
    ensures { HasText result }
{
    read_move(text).expect(rt, "a move")
}

fn board(rt: &impl Abort, from: u8, to: u8, promote: bool) -> Move {
    let from = square(rt, from);
    let to = square(rt, to);
    Move::Board { from, to, promote }
}

fn drop(rt: &impl Abort, kind: Kind, to: u8) -> Move {
    let to = square(rt, to);
    Move::Drop { kind, to }
}

fn square(rt: &impl Abort, number: u8) -> Square {
    Square::numbered(number).expect(rt, "a square")
}
