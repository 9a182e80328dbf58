// Moves of KIF texts, by examples.
use crate::diagrams::DIAGRAM;
use crate::same::{same, shown};
use kif_moves::{KifMovesEnd, read_kif_moves};
use std::alloc::Global;
use std::process::Abort;
use std::test::Fail;
use usi_text::write_move;

// What a text stands for: each move behind a space, or the fault.
fn told(alloc: Global, text: &[u8]) -> Result<Vec<u8>, Fail> {
    let mut told = Vec::new(alloc);
    match read_kif_moves(alloc, text) {
        Ok(solution) => {
            for by in solution.moves.as_slice() {
                told.push(b' ')?;
                told.extend_from_slice(write_move(*by).as_bytes())?;
            }
        }
        Err(KifMovesEnd::Fault(fault)) => {
            let line = format!(in alloc; "{fault}")?;
            told.extend_from_slice(line.as_str().as_bytes())?;
        }
        Err(KifMovesEnd::NoMemory) => told.extend_from_slice(b"out of memory")?,
    }
    Ok(told)
}

// The lines stand behind the head of the moves, which is line 16.
fn check(rt: &impl Abort, alloc: Global, lines: &str, wanted: &str) -> Result<(), Fail> {
    let mut text = Vec::from_slice(alloc, DIAGRAM.as_bytes())?;
    text.extend_from_slice(lines.as_bytes())?;
    let found = told(alloc, text.as_slice())?;
    same(rt, lines, shown(found.as_slice()), wanted);
    Ok(())
}

// Lines, and the moves that they say. A pawn goes from 5c to 5b, the king from 5a to 4a, the pawn
// to 5a, and so on.
const WAYS: &[(&str, &str)] = &[
    ("", ""),
    ("   1 ５二金打   ( 0:00/00:00:00)\n", " G*5b"),
    ("1 ５二金打", " G*5b"),
    ("   007   ５二金打 x\r\n", " G*5b"),
    ("\n\r\n# x\n*y\n&z\n   1 ５二金打\n", " G*5b"),
    ("   1 ５二歩(53)\n", " 5c5b"),
    ("   1 ５二歩成(53)\n", " 5c5b+"),
    ("   1 ５二歩不成(53)\n", " 5c5b"),
    ("   1 ５二金打\n   2 詰み\nx", " G*5b"),
    ("   1 投了 x\nx", ""),
    ("   1 中断\nx", ""),
    ("まで0手で詰み\nx", ""),
    ("変化：1手\nx", ""),
    ("手数----\n", "bad move in line 17"),
    ("   1 ５二歩成(53)\n   2 同\u{3000}玉(51)\n", " 5c5b+ 5a5b"),
    ("   1 ５二歩成(53)\n   2 同玉(51)\n", " 5c5b+ 5a5b"),
    (
        "   1 ５二歩(53)\n   2 ４一玉(51)\n   3 ５一歩成(52)\n   4 同玉(41)\n   5 ５二金打\n",
        " 5c5b 5a4a 5b5a+ 4a5a G*5b",
    ),
    (
        "   1 ５二歩(53)\n   2 ４一王(51)\n   3 ５一歩成(52)\n   4 ４二玉(41)\n   5 ５二と(51)\n",
        " 5c5b 5a4a 5b5a+ 4a4b 5a5b",
    ),
];

#[test]
fn a_text_stands_for_its_moves(rt: HostRuntime) -> Result<(), Fail> {
    for (lines, wanted) in WAYS {
        check(&rt, rt.alloc(), lines, wanted)?;
    }
    Ok(())
}

// Lines, and their first fault.
const FAULTS: &[(&str, &str)] = &[
    ("   1 同\u{3000}金打\n", "bad move in line 17"),
    (
        "   1 ５二歩成(53)\n   2 同\u{3000}\u{3000}玉(51)\n",
        "bad move in line 18",
    ),
    ("  投了\n", "bad move in line 17"),
    ("1投了\n", "bad move in line 17"),
    (" \n", "bad move in line 17"),
    ("   1 詰みx\n", "bad move in line 17"),
    ("   1 ５二金打x\n", "bad move in line 17"),
    ("   1 ５二金\n", "bad move in line 17"),
    ("   1 ５二歩(05)\n", "bad move in line 17"),
    ("   1 ５二と打\n", "bad move in line 17"),
    ("   1 ５二成銀打\n", "bad move in line 17"),
    ("   1 ５二玉打\n", "bad move in line 17"),
    ("   1 5二金打\n", "bad move in line 17"),
    ("   1 ５十金打\n", "bad move in line 17"),
    ("   1 ５二 金打\n", "bad move in line 17"),
    ("\u{3000}1 ５二金打\n", "bad move in line 17"),
    ("   1\u{3000}５二金打\n", "bad move in line 17"),
    ("   1 ５二金打(52)\n", "bad move in line 17"),
    ("   1 ４二歩(53)\n", "illegal move in line 17"),
    ("   1 ５二歩(99)\n", "illegal move in line 17"),
    ("   1 ５二歩打\n", "illegal move in line 17"),
    ("   1 ５二金(53)\n", "wrong piece in line 17"),
    ("   1 ５二と(53)\n", "wrong piece in line 17"),
    ("   1 ５四金打\n", "no check in line 17"),
    ("\n# x\n   1 ５四金打\n", "no check in line 19"),
    ("   1 ５二歩(53)\n*\n   1 ５一玉(51)\n", "illegal move in line 19"),
    ("   1 ５二歩成(53)\n   2 同 玉(51)\n", "bad move in line 18"),
    (
        "   1 ５二歩成(53)\n   2 同玉(51)\n   3 同金打\n",
        "illegal move in line 19",
    ),
    ("   1 x\n   2 ４二歩(53)\n", "bad move in line 17"),
];

#[test]
fn the_first_fault_of_the_moves_is_named_with_its_line(rt: HostRuntime) -> Result<(), Fail> {
    for (lines, wanted) in FAULTS {
        check(&rt, rt.alloc(), lines, wanted)?;
    }
    Ok(())
}

#[test]
fn faults_of_the_header_come_first(rt: HostRuntime) -> Result<(), Fail> {
    let alloc = rt.alloc();
    let table = [
        ("手数", "後手番\n手数", "no defender king"),
        ("：金", "：玉", "bad hand at 15"),
        (
            "| ・ ・ ・ ・ ・ ・ ・ ・ ・|二",
            "| ・ ・ ・ ・ 金 ・ ・ ・ ・|二",
            "defender in check",
        ),
    ];
    for (old, new, wanted) in table {
        let mut text = DIAGRAM.replace(alloc, old, new)?;
        text.push_str("   1 x\n")?;
        let found = told(alloc, text.as_str().as_bytes())?;
        same(&rt, (old, new), shown(found.as_slice()), wanted);
    }
    Ok(())
}
