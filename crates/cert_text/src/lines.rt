// Lines as entries: all that a certificate has, or a stretch of them.
ghost use Rattle.std.specs.Prelude.{◌≡◌, ◌++◌, ◌↔◌, IfOk, IsTrue, codes};
ghost use Rattle.cert_text.specs.Lines.{IsReadOf, IsStopAtEnd};
ghost use Rattle.cert_text.specs.UpToEnd.{IsUpToEnd};

use crate::Entry;
use crate::parts::{cut, is_before};
use sfen_text::sfen_laws;
use shogi_rules::Problem;
use std::alloc::{AllocError, Global};

/// Why the reading of lines stopped.
#[derive(Clone, Copy, PartialEq, Eq, Debug)]
pub enum LinesStop {
    /// No further line comes.
    NoLine,
    /// The line `end` comes, and nothing behind it.
    End,
    /// The line `end` comes, and bytes behind it.
    Behind,
    /// A line comes that is neither `end` nor an entry of this certificate's kind.
    BadLine,
    /// An entry comes whose SFEN text doesn't come behind that of the line before.
    NotRising,
}

/// What was read of lines: the entries before the line at which the reading stopped.
#[derive(Drop)]
pub struct ReadLines<'a, E> {
    /// The entries, in the order of their lines.
    pub entries: Vec<E>,
    /// The SFEN text in the last entry's line; empty where there is none.
    pub last: &'a [u8],
    /// Why the reading stopped behind them.
    pub stop: LinesStop,
}

fn is_end(line: &[u8]) -> bool
    ensures { IsTrue result ↔ (line.now ≡ codes "end") }
{
    line == b"end".as_slice()
}

/// The text up to and with its first line `end`, and what stands behind; all of the text, and
/// nothing, where it has no such line. Takes no memory.
pub fn up_to_end(text: &[u8]) -> (&[u8], &[u8])
    ensures parts { text.now ≡ result.0.now ++ result.1.now }
    ensures ends { IsUpToEnd result.0.now result.1.now }
{
    let mut rest = text;
    while let Some((line, more)) = cut(rest, b'\n') {
        if is_end(line) {
            let length = text.len() - more.len();
            return (&text[..length], more);
        }
        rest = more;
    }
    (text, b"".as_slice())
}

// Why the reading stops where the line `end` comes, and this behind it.
fn stop_at_end(behind: &[u8]) -> LinesStop
    ensures { IsStopAtEnd behind.now result }
{
    if behind.is_empty() {
        LinesStop::End
    } else {
        LinesStop::Behind
    }
}

/// Reads lines behind a certificate's head by themselves, one after the other, up to the first that
/// is no entry rising behind those before it: all the lines that a certificate has, or a stretch of
/// them. Keeps the entries in a vector that doubles. Errors: want of memory alone.
pub fn read_lines<'a, E: Entry>(
    alloc: Global,
    text: &'a [u8],
    problem: &Problem,
) -> Result<ReadLines<'a, E>, AllocError>
    ensures { IfOk result (λ lines. IsReadOf (E.form problem.now.position) lines text.now) }
{
    // The empty text comes before every text of a position.
    sfen_laws();
    // Room for each position's text, in which it is written for the comparison.
    let mut spelled = Vec::new(alloc);
    let mut entries = Vec::new(alloc);
    let mut last: &[u8] = b"";
    let mut rest = text;
    while let Some((line, more)) = cut(rest, b'\n') {
        if is_end(line) {
            let stop = stop_at_end(more);
            return Ok(ReadLines {
                entries,
                last,
                stop,
            });
        }
        let Some((entry, sfen)) = E::of_line(line, problem, &mut spelled)? else {
            let stop = LinesStop::BadLine;
            return Ok(ReadLines {
                entries,
                last,
                stop,
            });
        };
        if !is_before(last, sfen) {
            let stop = LinesStop::NotRising;
            return Ok(ReadLines {
                entries,
                last,
                stop,
            });
        }
        entries.push(entry)?;
        last = sfen;
        rest = more;
    }
    let stop = LinesStop::NoLine;
    Ok(ReadLines {
        entries,
        last,
        stop,
    })
}
