// What is told of a fault of a KIF text behind its first line.
ghost use Rattle.std.specs.Prelude.{◌≡◌, true, OnOk};
ghost use Rattle.explanations.specs.Shown.{is_readable, IsPlain, IsReadable};

use crate::advice::{ON_SFEN_WITH_KIF, advice_on_diagram, advice_on_diagram_look};
use crate::line::{append_mark, append_place};
use crate::look::{Look, holds, look_of};
use kif_text::KifFault;
use std::alloc::{AllocError, Global};

// The most characters of a line that are shown: where each takes two columns, they take less than
// 80 behind four spaces.
const MOST_CHARACTERS: usize = 36;

// The text whose lines are counted: without the byte-order mark in front.
fn text_of(input: &[u8]) -> &str {
    let text = str::from_utf8(input).unwrap_or("");
    text.strip_prefix("\u{feff}").unwrap_or(text)
}

// A character as it is shown: one in which diagrams are written, which is printable, or else `?`.
fn shown(character: char) -> char
    ensures { is_readable result ≡ true }
{
    match character {
        ' '..='~' | '\u{3000}'..='\u{30ff}' | '\u{4e00}'..='\u{9fff}' | '\u{ff01}'..='\u{ff5e}' => {
            character
        }
        _ => '?',
    }
}

// Writes readable text.
#[tactic(auto, using(crate::proofs::Readable::readable_append))]
fn append_readable(out: &mut Vec<u8>, text: &[u8]) -> Result<(), AllocError>
    requires text { IsReadable text.now }
    requires readable { IsReadable out.now.items }
    ensures readable { OnOk result (IsReadable out.new.items) }
{
    out.extend_from_slice(text)
}

// Writes plain text.
#[tactic(auto, using(crate::proofs::Readable::readable_plain))]
fn append_plain(out: &mut Vec<u8>, text: &[u8]) -> Result<(), AllocError>
    requires text { IsPlain text.now }
    requires readable { IsReadable out.now.items }
    ensures readable { OnOk result (IsReadable out.new.items) }
{
    append_readable(out, text)
}

// Writes a character.
#[tactic(auto, using(crate::proofs::Readable::readable_character))]
fn append_character(alloc: Global, out: &mut Vec<u8>, character: char) -> Result<(), AllocError>
    requires character { is_readable character ≡ true }
    requires readable { IsReadable out.now.items }
    ensures readable { OnOk result (IsReadable out.new.items) }
{
    let mut text = String::new(alloc);
    text.push(character)?;
    append_readable(out, text.as_bytes())
}

// Writes the line with this number, from 1, and `..` where it is cut.
fn append_text(
    alloc: Global,
    out: &mut Vec<u8>,
    input: &[u8],
    number: usize,
) -> Result<(), AllocError>
    requires readable { IsReadable out.now.items }
    ensures readable { OnOk result (IsReadable out.new.items) }
{
    let mut lines = text_of(input).lines();
    let line = lines.nth(number.saturating_sub(1)).unwrap_or("");
    append_plain(out, b"    ")?;
    for character in line.chars().take(MOST_CHARACTERS) {
        append_character(alloc, out, shown(character))?;
    }
    if line.chars().count() > MOST_CHARACTERS {
        append_plain(out, b"..")?;
    }
    append_plain(out, b"\n")
}

// Writes a line and its number.
#[tactic(auto, using(crate::proofs::Plain::plain_append, crate::proofs::Plain::plain_decimal))]
fn append_text_line(
    alloc: Global,
    out: &mut Vec<u8>,
    input: &[u8],
    number: usize,
) -> Result<(), AllocError>
    requires readable { IsReadable out.now.items }
    ensures readable { OnOk result (IsReadable out.new.items) }
{
    append_plain(out, format!(in alloc; "line {number}:\n")?.as_bytes())?;
    append_text(alloc, out, input, number)
}

// The number of the line with this row of the diagram, both from 1; of the last line where there
// are fewer rows.
fn number_of_row(text: &str, row: u8) -> usize {
    let mut left = row;
    let mut number: usize = 0;
    for line in text.lines() {
        number = number.saturating_add(1);
        if line.starts_with("|") {
            left = left.saturating_sub(1);
            if left == 0 {
                return number;
            }
        }
    }
    number
}

// Writes the line with this row of the diagram, and marks the cell in this column. The bar takes
// one column of the line, and each cell three: its second character is a wide one.
#[tactic(auto, using(crate::proofs::Plain::plain_append, crate::proofs::Plain::plain_decimal))]
fn append_cell(
    alloc: Global,
    out: &mut Vec<u8>,
    input: &[u8],
    row: u8,
    column: u8,
) -> Result<(), AllocError>
    requires readable { IsReadable out.now.items }
    ensures readable { OnOk result (IsReadable out.new.items) }
{
    let number = number_of_row(text_of(input), row);
    append_plain(
        out,
        format!(in alloc; "line {number}, row {row}, column {column}:\n")?.as_bytes(),
    )?;
    append_text(alloc, out, input, number)?;
    let cells = usize::from(column).saturating_sub(1);
    let mut mark = Vec::new(alloc);
    append_mark(&mut mark, cells.saturating_mul(3).saturating_add(5))?;
    append_plain(out, &mark)?;
    append_plain(out, b"\n")
}

// Writes what the text has where its fault is.
fn append_fault(
    alloc: Global,
    out: &mut Vec<u8>,
    fault: KifFault,
    input: &[u8],
) -> Result<(), AllocError>
    requires readable { IsReadable out.now.items }
    ensures readable { OnOk result (IsReadable out.new.items) }
{
    match fault {
        KifFault::NotUtf8(at) => {
            let mut place = Vec::new(alloc);
            append_place(alloc, &mut place, input, at)?;
            append_plain(out, &place)
        }
        KifFault::BadCell(row, column) => append_cell(alloc, out, input, row, column),
        KifFault::HandicapName(line)
        | KifFault::BadHand(line)
        | KifFault::BadCount(line)
        | KifFault::HandTwice(line) => append_text_line(alloc, out, input, line),
        KifFault::NoDiagram | KifFault::BadPosition(_) => Ok(()),
    }
}

// Whether a text without a diagram looks like an SFEN.
fn is_sfen(input: &[u8]) -> bool {
    input.is_ascii() && holds(input, b"/")
}

/// Writes what is told of the first fault of a KIF text.
pub(crate) fn append_diagram_explanation(
    alloc: Global,
    out: &mut Vec<u8>,
    fault: KifFault,
    input: &[u8],
) -> Result<(), AllocError>
    requires readable { IsReadable out.now.items }
    ensures readable { OnOk result (IsReadable out.new.items) }
{
    let look = look_of(input);
    if let Some(advice) = advice_on_diagram_look(look) {
        return append_plain(out, advice.as_bytes());
    }
    if fault == KifFault::NoDiagram && look != Look::Record && is_sfen(input) {
        return append_plain(out, ON_SFEN_WITH_KIF.as_bytes());
    }
    append_fault(alloc, out, fault, input)?;
    append_readable(out, advice_on_diagram(fault).as_bytes())
}
