// The lines of an input.
use crate::same::same;
use input_lines::{InputLines, LineEnd, MOST_LINE_BYTES};
use std::alloc::Global;
use std::test::Fail;
use tsume_io::MemSource;

// The lines of a text that comes in such pieces, whose calls of these numbers fail, each in
// brackets, and behind them why there is no further one.
fn lines_of(alloc: Global, text: &[u8], piece: usize, failing: Vec<u64>) -> Result<String, Fail> {
    let mut source = MemSource::make(Vec::from_slice(alloc, text)?, piece.max(1), failing);
    let mut lines = InputLines::new(alloc);
    let mut told = String::new(alloc);
    for _ in 0..100 {
        match lines.next(alloc, &mut source) {
            Ok(Some(line)) => {
                let line = String::from_utf8(line)?;
                told.push_str(format!(in alloc; "[{}]", line.as_str())?.as_str())?;
            }
            Ok(None) => {
                told.push_str(" over")?;
                return Ok(told);
            }
            Err(end) => {
                told.push_str(format!(in alloc; " {end:?}")?.as_str())?;
                return Ok(told);
            }
        }
    }
    Ok(told)
}

#[test]
fn any_pieces_make_the_same_lines(rt: HostRuntime) -> Result<(), Fail> {
    let rows = [
        ("", " over"),
        ("\n", "[] over"),
        ("usi\nisready\n", "[usi][isready] over"),
        ("usi\r\n\nquit", "[usi\r][][quit] over"),
    ];
    for (text, wanted) in rows {
        for piece in [1, 2, 7, 5_000] {
            let alloc = rt.alloc();
            let found = lines_of(alloc, text.as_bytes(), piece, Vec::new(alloc))?;
            same(&rt, (text, piece), found.as_str(), wanted);
        }
    }
    Ok(())
}

#[test]
fn a_read_that_fails_is_told_behind_whole_lines(rt: HostRuntime) -> Result<(), Fail> {
    let alloc = rt.alloc();
    let rows = [
        (1, " Fault"),
        (2, "[ab] Fault"),
        (3, "[ab][c] Fault"),
        (9, "[ab][c] over"),
    ];
    for (call, wanted) in rows {
        let found = lines_of(alloc, b"ab\nc\n", 3, vec![in alloc; call]?)?;
        same(&rt, call, found.as_str(), wanted);
    }
    Ok(())
}

#[test]
fn a_line_of_too_many_bytes_is_told(rt: HostRuntime) -> Result<(), Fail> {
    let alloc = rt.alloc();
    for (more, wanted) in [(0, (1, None)), (1, (0, Some(LineEnd::TooLong)))] {
        let mut text = vec![in alloc; b' '; MOST_LINE_BYTES]?;
        for _ in 0..more {
            text.push(b' ')?;
        }
        text.push(b'\n')?;
        let mut source = MemSource::make(text, 4_096, Vec::new(alloc));
        let mut lines = InputLines::new(alloc);
        let found = match lines.next(alloc, &mut source) {
            Ok(Some(_)) => (1, None),
            Ok(None) => (0, None),
            Err(end) => (0, Some(end)),
        };
        same(&rt, more, found, wanted);
    }
    Ok(())
}
