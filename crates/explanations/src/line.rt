// Lines of a text, and how one is shown.
ghost use Rattle.std.specs.Prelude.{◌≡◌, true, OnOk};
ghost use Rattle.explanations.specs.Shown.{is_plain, IsPlain};

use std::alloc::{AllocError, Global};

// The most bytes of a line that are shown.
const MOST_SHOWN: usize = 64;

/// A line of a text.
#[derive(Clone, Copy)]
pub(crate) struct Line<'a> {
    /// Its bytes, without its end.
    pub(crate) bytes: &'a [u8],
    /// Its number in the text, from 1.
    pub(crate) number: usize,
}

/// The line with this number, from 1; an empty one where there are fewer.
pub(crate) fn line_of(text: &[u8], number: usize) -> Line<'_> {
    let mut lines = text.split(|byte| *byte == b'\n');
    let bytes = lines.nth(number.saturating_sub(1)).unwrap_or(b"");
    Line { bytes, number }
}

/// The line on which this byte of the text stands, from 0, and how many bytes of the line stand
/// before it.
pub(crate) fn line_at(text: &[u8], at: usize) -> (Line<'_>, usize) {
    let mut before = at;
    let mut number: usize = 1;
    for bytes in text.split(|byte| *byte == b'\n') {
        if before <= bytes.len() {
            return (Line { bytes, number }, before);
        }
        before = before.saturating_sub(bytes.len()).saturating_sub(1);
        number = number.saturating_add(1);
    }
    (line_of(text, number), before)
}

// A byte as it is shown: a character of one column.
fn shown(byte: u8) -> u8
    ensures { is_plain result ≡ true }
{
    if byte.is_ascii_graphic() || byte == b' ' {
        byte
    } else {
        b'?'
    }
}

/// Writes plain text.
#[tactic(auto, using(crate::proofs::Plain::plain_append))]
pub(crate) fn append(out: &mut Vec<u8>, text: &[u8]) -> Result<(), AllocError>
    requires text { IsPlain text.now }
    requires plain { IsPlain out.now.items }
    ensures plain { OnOk result (IsPlain out.new.items) }
{
    out.extend_from_slice(text)
}

// Writes the part of a line that begins with this byte, and `..` where it is cut.
fn append_part(out: &mut Vec<u8>, bytes: &[u8], from: usize) -> Result<(), AllocError>
    requires plain { IsPlain out.now.items }
    ensures plain { OnOk result (IsPlain out.new.items) }
{
    append(out, b"    ")?;
    if from > 0 {
        append(out, b"..")?;
    }
    for byte in bytes.iter().skip(from).take(MOST_SHOWN) {
        append(out, &[shown(*byte)])?;
    }
    if bytes.len().saturating_sub(from) > MOST_SHOWN {
        append(out, b"..")?;
    }
    append(out, b"\n")
}

/// Writes a line and its number.
#[tactic(auto, using(crate::proofs::Plain::plain_append, crate::proofs::Plain::plain_decimal))]
pub(crate) fn append_line(
    alloc: Global,
    out: &mut Vec<u8>,
    line: Line<'_>,
) -> Result<(), AllocError>
    requires plain { IsPlain out.now.items }
    ensures plain { OnOk result (IsPlain out.new.items) }
{
    let number = line.number;
    append(out, format!(in alloc; "line {number}:\n")?.as_bytes())?;
    append_part(out, line.bytes, 0)
}

/// Writes so many spaces, and a mark.
pub(crate) fn append_mark(out: &mut Vec<u8>, spaces: usize) -> Result<(), AllocError>
    requires plain { IsPlain out.now.items }
    ensures plain { OnOk result (IsPlain out.new.items) }
{
    for _ in 0..spaces {
        append(out, b" ")?;
    }
    append(out, b"^")
}

/// Writes the line on which this byte of the text stands, from 0, cut around it where it is long,
/// and marks the byte.
#[tactic(auto, using(crate::proofs::Plain::plain_append, crate::proofs::Plain::plain_decimal))]
pub(crate) fn append_place(
    alloc: Global,
    out: &mut Vec<u8>,
    text: &[u8],
    at: usize,
) -> Result<(), AllocError>
    requires plain { IsPlain out.now.items }
    ensures plain { OnOk result (IsPlain out.new.items) }
{
    let (line, before) = line_at(text, at);
    let number = line.number;
    let column = before.saturating_add(1);
    append(
        out,
        format!(in alloc; "line {number}, column {column}:\n")?.as_bytes(),
    )?;
    let from = first_shown(line.bytes.len(), before);
    append_part(out, line.bytes, from)?;
    append_mark(out, columns_before(before, from))?;
    append(out, format!(in alloc; " byte {at}\n")?.as_bytes())
}

// The first byte that is shown of a line so long, so that this one is.
fn first_shown(len: usize, at: usize) -> usize {
    if len <= MOST_SHOWN {
        return 0;
    }
    at.saturating_sub(MOST_SHOWN / 2)
}

// How many columns stand before this byte of a line that is shown from there.
fn columns_before(at: usize, from: usize) -> usize {
    let cut = if from > 0 { 2 } else { 0 };
    at.saturating_sub(from)
        .saturating_add(4)
        .saturating_add(cut)
}
