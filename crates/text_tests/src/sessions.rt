// Mate sessions of the USI protocol, by examples.
use crate::same::{same, shown};
use sfen_text::write_sfen;
use std::alloc::Global;
use std::process::Abort;
use std::test::Fail;
use usi_session::{Act, Session, Solve};

// What a session has solved: the limit, 0 where there is none, and the problem.
fn put_solve(alloc: Global, out: &mut Vec<u8>, solve: &Solve) -> Result<(), Fail> {
    let millis = match solve.millis {
        Some(millis) => millis,
        None => 0,
    };
    out.extend_from_slice(format!(in alloc; "solve {millis} ")?.as_bytes())?;
    out.extend_from_slice(write_sfen(alloc, &solve.problem.position)?.as_slice())?;
    out.push(b'\n')?;
    Ok(())
}

// With which numbers.
fn put_numbers(alloc: Global, out: &mut Vec<u8>, solve: &Solve) -> Result<(), Fail> {
    let by = &solve.settings;
    let line = format!(in alloc;
        "by {} {} {} {} {}\n",
        by.workers, by.expansions, by.room, by.rows, by.shards
    )?;
    out.extend_from_slice(line.as_bytes())?;
    Ok(())
}

// What a session does at lines, up to its end.
fn said(alloc: Global, lines: &[u8], numbers: bool) -> Result<Vec<u8>, Fail> {
    let mut out = Vec::new(alloc);
    let mut session = Session::make();
    for line in lines.split(|byte| *byte == b'\n') {
        match session.line(alloc, line)? {
            Act::Say(text) => out.extend_from_slice(text.as_slice())?,
            Act::Solve(solve) => {
                if numbers {
                    put_numbers(alloc, &mut out, &solve)?;
                } else {
                    put_solve(alloc, &mut out, &solve)?;
                }
            }
            Act::Quit => {
                out.extend_from_slice(b"quit\n")?;
                return Ok(out);
            }
            Act::Nothing => {}
        }
    }
    Ok(out)
}

fn check(
    rt: &impl Abort,
    alloc: Global,
    lines: &str,
    wanted: &str,
    numbers: bool,
) -> Result<(), Fail> {
    let found = said(alloc, lines.as_bytes(), numbers)?;
    same(rt, lines, shown(found.as_slice()), wanted);
    Ok(())
}

// Lines that say who the program is, that it is ready, and that it ends.
const HANDSHAKES: &[(&str, &str)] = &[
    (
        "usi\nisready\nquit",
        "id name tsume\nid author tsume\n\
         option name Workers type spin default 1 min 1 max 64\n\
         option name Expansions type spin default 1000000000 min 1 max 1000000000\n\
         option name Room type spin default 1000000000 min 1 max 1000000000\n\
         option name Rows type spin default 65536 min 16 max 16777216\n\
         option name Shards type spin default 64 min 1 max 256\n\
         usiok\nreadyok\nquit\n",
    ),
    ("quit \nisready", "quit\n"),
    (" quit x\nisready", "readyok\n"),
    ("\u{feff}usi\nisready", "readyok\n"),
    ("isready\r", "readyok\n"),
    ("isready\r\r", ""),
    ("isready\t", ""),
    ("isready x\nusi x\nIsready\nstop\nusinewgame\n\n \n", ""),
];

#[test]
fn a_session_says_who_it_is_and_that_it_is_ready(rt: HostRuntime) -> Result<(), Fail> {
    for (lines, wanted) in HANDSHAKES {
        check(&rt, rt.alloc(), lines, wanted, false)?;
    }
    Ok(())
}

// Position lines and what they make to be solved.
const POSITIONS: &[(&str, &str)] = &[
    (
        "position startpos\ngo mate infinite",
        "solve 0 lnsgkgsnl/1r5b1/ppppppppp/9/9/9/PPPPPPPPP/1B5R1/LNSGKGSNL b -\n",
    ),
    (
        "position startpos moves\ngo mate 5",
        "solve 5 lnsgkgsnl/1r5b1/ppppppppp/9/9/9/PPPPPPPPP/1B5R1/LNSGKGSNL b -\n",
    ),
    (
        "position startpos moves 7g7f\ngo mate infinite",
        "solve 0 lnsgkgsnl/1r5b1/ppppppppp/9/9/2P6/PP1PPPPPP/1B5R1/LNSGKGSNL w -\n",
    ),
    (
        "position startpos moves 7g7f 3c3d 8h2b+ 3a2b\ngo mate infinite",
        "solve 0 lnsgkg1nl/1r5s1/pppppp1pp/6p2/9/2P6/PP1PPPPPP/7R1/LNSGKGSNL b Bb\n",
    ),
    (
        "position sfen 4k4/9/4P4/9/9/9/9/9/9 b G 1\ngo mate infinite\nquit",
        "solve 0 4k4/9/4P4/9/9/9/9/9/9 b G\nquit\n",
    ),
    (
        "  position   sfen   4k4/9/4P4/9/9/9/9/9/9 b G   1  \r\n  go   mate   infinite  ",
        "solve 0 4k4/9/4P4/9/9/9/9/9/9 b G\n",
    ),
    (
        "position sfen 4k4/9/4P4/9/9/9/9/9/9 b G 7 moves\ngo mate infinite",
        "solve 0 4k4/9/4P4/9/9/9/9/9/9 b G\n",
    ),
    (
        "position sfen 4k4/9/4P4/9/9/9/9/9/9 b G moves 5c5b 5a4a\ngo mate infinite",
        "solve 0 5k3/4P4/9/9/9/9/9/9/9 b G\n",
    ),
    (
        "position sfen 4k4/9/4P4/9/9/9/9/9/9 b G\ngo mate infinite\nposition\ngo mate infinite\n\
         position x\ngo mate infinite\nposition startpos x\nfoo\n\n  \ngo mate infinite",
        "solve 0 4k4/9/4P4/9/9/9/9/9/9 b G\nsolve 0 4k4/9/4P4/9/9/9/9/9/9 b G\n\
         solve 0 4k4/9/4P4/9/9/9/9/9/9 b G\nsolve 0 4k4/9/4P4/9/9/9/9/9/9 b G\n",
    ),
];

#[test]
fn a_position_after_its_moves_is_to_be_solved(rt: HostRuntime) -> Result<(), Fail> {
    for (lines, wanted) in POSITIONS {
        check(&rt, rt.alloc(), lines, wanted, false)?;
    }
    Ok(())
}

// What stands behind `position sfen ` and makes no problem, and what a session says of it.
const FAULTS: &[(&str, &str)] = &[
    ("", "bad row at 0"),
    ("moves 5c5b", "bad row at 0"),
    ("x", "bad piece at 0"),
    ("4k4/9/4P5/9/9/9/9/9/9 b G 1", "bad row at 8"),
    ("4k4/9/4X4/9/9/9/9/9/9 b G", "bad piece at 7"),
    ("4k4/9/4P4/9/9/9/9/9/9 x G", "bad side at 22"),
    ("  4k4/9/4P4/9/9/9/9/9/9  x G", "bad side at 23"),
    ("4k4/9/4P4/9/9/9/9/9/9 b GG", "hand twice at 25"),
    ("4k4/9/4P4/9/9/9/9/9/9 b 19P", "bad hand at 24"),
    ("4k4/9/4P4/9/9/9/9/9/9 b G x", "trailing at 26"),
    ("4k4/9/4P4/9/9/9/9/9/9 b G 1 2", "trailing at 28"),
    ("4k4/9/4P4/9/9/9/9/9/9 b 18P 1", "too many P"),
    ("9/9/9/9/9/9/9/9/9 b - 1", "no defender king"),
    ("kk7/9/9/9/9/9/9/9/9 b - 1", "two kings"),
    ("4k4/9/9/9/9/9/9/9/p8 b - 1", "dead piece at 9i"),
    ("4k4/9/4P4/4P4/9/9/9/9/9 b - 1", "two pawns on file 5"),
    ("4k4/9/9/9/9/9/9/9/4R4 b - 1", "defender in check"),
    ("4k4/9/4P4/9/9/9/9/9/9 w G 1", "no defender king"),
    (
        "4k4/9/4P4/9/9/9/9/9/9 b G 1 moves 5c5d",
        "illegal move 1 5c5d",
    ),
    ("4k4/9/4P4/9/9/9/9/9/9 b G moves G*5b x", "illegal move 2 x"),
    (
        "4k4/9/4P4/9/9/9/9/9/9 b G moves K*5e",
        "illegal move 1 K*5e",
    ),
    (
        "4k4/9/4P4/9/9/9/9/9/9 b G moves 5c5b 5a4a 5b5c",
        "illegal move 3 5b5c",
    ),
    (
        "4k4/9/4P4/9/9/9/9/9/9 b G moves 5c5b 5a4a 5b5a+ 4a5a moves",
        "illegal move 5 moves",
    ),
    ("4k4/9/4P4/9/9/9/9/9/9 b G moves G*5b", "no defender king"),
    (
        "9/4k4/8R/9/9/9/9/9/9 b R  1  moves  1c1b  ",
        "no defender king",
    ),
];

#[test]
fn a_faulty_position_is_told_and_leaves_no_problem(rt: HostRuntime) -> Result<(), Fail> {
    let alloc = rt.alloc();
    for (sfen, fault) in FAULTS {
        let lines = format!(in alloc; "position startpos\nposition sfen {sfen}\ngo mate 1000")?;
        let wanted = format!(in alloc; "info string {fault}\ncheckmate notimplemented\n")?;
        check(&rt, alloc, lines.as_str(), wanted.as_str(), false)?;
    }
    Ok(())
}

#[test]
fn the_field_of_an_illegal_move_comes_back_as_it_came(rt: HostRuntime) -> Result<(), Fail> {
    let found = said(rt.alloc(), b"position startpos moves 7g7f \xff\xfe", false)?;
    same(
        &rt,
        "bytes",
        found.as_slice(),
        b"info string illegal move 2 \xff\xfe\n",
    );
    Ok(())
}

// Lines that ask for something, with a problem.
const QUESTIONS: &[(&str, &str)] = &[
    ("go", "info string only go mate\n"),
    ("go mate", "info string only go mate\n"),
    ("go mate 0", "info string only go mate\n"),
    ("go mate -1", "info string only go mate\n"),
    ("go mate x", "info string only go mate\n"),
    ("go mate 86400001", "info string only go mate\n"),
    ("go mate 5 5", "info string only go mate\n"),
    ("go mate infinite 5", "info string only go mate\n"),
    ("go ponder", "info string only go mate\n"),
    ("go infinite", "info string only go mate\n"),
    (
        "go btime 0 wtime 0 byoyomi 1000",
        "info string only go mate\n",
    ),
    (
        "go mate 86400000",
        "solve 86400000 4k4/9/4P4/9/9/9/9/9/9 b G\n",
    ),
    ("go mate +1000", "solve 1000 4k4/9/4P4/9/9/9/9/9/9 b G\n"),
    ("go mate 01000", "solve 1000 4k4/9/4P4/9/9/9/9/9/9 b G\n"),
    ("Go mate infinite", ""),
    ("gomate", ""),
];

#[test]
fn a_question_for_a_mate_has_a_time_or_none(rt: HostRuntime) -> Result<(), Fail> {
    let alloc = rt.alloc();
    for (line, wanted) in QUESTIONS {
        let lines = format!(in alloc; "position sfen 4k4/9/4P4/9/9/9/9/9/9 b G 1\n{line}")?;
        check(&rt, alloc, lines.as_str(), wanted, false)?;
    }
    check(
        &rt,
        alloc,
        "go\ngo mate\ngo mate 5\ngo mate infinite",
        "info string only go mate\ninfo string only go mate\n\
         checkmate notimplemented\ncheckmate notimplemented\n",
        false,
    )
}

// Options that are given, and the numbers by which a problem is to be solved then.
const OPTIONS: &[(&str, &str)] = &[
    ("", "by 1 1000000000 1000000000 65536 64\n"),
    (
        "setoption name Workers value 64\nsetoption name Expansions value 1\n\
         setoption name Room value 1\nsetoption name Rows value 16\nsetoption name Shards value 1",
        "by 64 1 1 16 1\n",
    ),
    (
        "setoption name USI_Hash value 1024\nsetoption name USI_Ponder value true\n\
         setoption name USI_x",
        "by 1 1000000000 1000000000 65536 64\n",
    ),
    // A number may have a plus and zeros in front.
    (
        "setoption name Room value +5\nsetoption name Workers value 02",
        "by 2 1000000000 5 65536 64\n",
    ),
    // Where nothing is said of the shards, there are as many as rows where these are few.
    (
        "setoption name Rows value 16",
        "by 1 1000000000 1000000000 16 16\n",
    ),
    (
        "setoption name Shards value 32\nsetoption name Rows value 16\nsetoption name Rows value 32\n\
         setoption name Shards value 64\nsetoption name Rows value 64\nsetoption name Shards value 64",
        "info string bad option\ninfo string bad option\nby 1 1000000000 1000000000 64 64\n",
    ),
];

#[test]
fn options_are_the_numbers_of_a_search(rt: HostRuntime) -> Result<(), Fail> {
    let alloc = rt.alloc();
    for (options, wanted) in OPTIONS {
        let lines = format!(in alloc; "{options}\nposition startpos\ngo mate infinite")?;
        check(&rt, alloc, lines.as_str(), wanted, true)?;
    }
    Ok(())
}

// What stands behind `setoption` and is refused.
const REFUSED: &[&str] = &[
    " name Workers value 0",
    " name Workers value 65",
    " name Workers value 4294967297",
    " name Expansions value 1000000001",
    " name Room value 1000000001",
    " name Rows value 24",
    " name Rows value 8",
    " name Rows value 33554432",
    " name Shards value 3",
    " name Shards value 0",
    " name Shards value 512",
    " name Ponder value true",
    " name workers value 1",
    " name Room value x",
    " name Room value -1",
    " name Room value 18446744073709551616",
    " name Room value",
    " name Room",
    " name Room Room value 1",
    " Room value 1",
    "",
    " name Room value 1 2",
];

#[test]
fn a_refused_option_changes_nothing(rt: HostRuntime) -> Result<(), Fail> {
    let alloc = rt.alloc();
    for option in REFUSED {
        let lines = format!(in alloc; "position startpos\nsetoption{option}\ngo mate infinite")?;
        let wanted = "info string bad option\nby 1 1000000000 1000000000 65536 64\n";
        check(&rt, alloc, lines.as_str(), wanted, true)?;
    }
    Ok(())
}
