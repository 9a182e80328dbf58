// What is told of a fault behind its first line.
ghost use Rattle.std.specs.Prelude.{IfOk, OnOk};
ghost use Rattle.explanations.specs.Shown.{IsPlain, IsHarmless};

use crate::advice::{
    ON_ASKED, ON_DEFENDER_IN_CHECK, ON_LENGTH, ON_NO_BLACK_KING, ON_NO_DEFENDER_KING, ON_NO_MEMORY,
    ON_PROBLEM_TO_CHECK, ON_RECORD_TO_COLLECT, ON_SEVERAL_LINES, ON_TABS, ON_WRITE,
    advice_on_certificate, advice_on_certificate_look, advice_on_problem, advice_on_problem_look,
};
use crate::diagram::append_diagram_explanation;
use crate::line::{append, append_line, append_place, line_of};
use crate::look::{Look, has_line_of_record, holds, is_like_problem, look_of};
use crate::trouble::Trouble;
use crate::words::advice_on_words;
use board_core::BadPosition;
use cert_text::CertFault;
use sfen_text::{TextFault, read_sfen};
use std::alloc::{AllocError, Global};

// The byte at which the text stops being a position's; none where it is one's.
fn place_of(fault: TextFault) -> Option<usize> {
    match fault {
        TextFault::BadRow(at)
        | TextFault::BadPiece(at)
        | TextFault::BadSide(at)
        | TextFault::BadHand(at)
        | TextFault::HandTwice(at)
        | TextFault::Trailing(at) => Some(at),
        TextFault::BadPosition(_) => None,
    }
}

// Whether the rest of the field at this byte has that one.
fn field_holds(text: &[u8], at: usize, byte: u8) -> bool {
    let mut rest = text
        .trim_ascii_end()
        .iter()
        .skip(at)
        .take_while(|found| **found != b' ');
    rest.any(|found| *found == byte)
}

// Whether the field at this byte stands on more than one line, or behind the first.
fn is_behind_a_line(text: &[u8], at: usize) -> bool {
    let front = text.get(..at).unwrap_or(text);
    holds(front.trim_ascii(), b"\n") || field_holds(text, at, b'\n')
}

// Whether the line with a fault is of use to the reader of a text that looks so.
fn is_worth_showing(look: Look) -> bool {
    !matches!(
        look,
        Look::Blank | Look::Utf16 | Look::Record | Look::Collection | Look::GaveUp
    )
}

fn advice_at(fault: TextFault, text: &[u8], at: usize) -> &'static str
    ensures { IsPlain result.now }
{
    if let Some(advice) = advice_on_problem_look(look_of(text)) {
        return advice;
    }
    if is_behind_a_line(text, at) {
        return ON_SEVERAL_LINES;
    }
    if field_holds(text, at, b'\t') {
        return ON_TABS;
    }
    advice_on_problem(fault)
}

// What is said of a text that is well formed and no position's. White is to move where the second
// field says so.
fn advice_on_whole(fault: TextFault, text: &[u8]) -> &'static str
    ensures { IsPlain result.now }
{
    if fault == TextFault::BadPosition(BadPosition::NoDefenderKing) && holds(text, b" w ") {
        return ON_NO_BLACK_KING;
    }
    advice_on_problem(fault)
}

fn append_problem_explanation(
    alloc: Global,
    out: &mut Vec<u8>,
    fault: TextFault,
    text: &[u8],
) -> Result<(), AllocError>
    requires plain { IsPlain out.now.items }
    ensures plain { OnOk result (IsPlain out.new.items) }
{
    let Some(at) = place_of(fault) else {
        return append(out, advice_on_whole(fault, text).as_bytes());
    };
    if is_worth_showing(look_of(text)) {
        append_place(alloc, out, text, at)?;
    }
    append(out, advice_at(fault, text, at).as_bytes())
}

// The number of the line `certificate ..`, from 1: a line of an answer may stand before it.
fn number_of_claim(text: &[u8]) -> usize {
    if line_of(text, 1).bytes.starts_with(b"checkmate") {
        return 2;
    }
    1
}

// Whether it is a number of entries: digits, of which the first is no zero.
fn is_number(text: &[u8]) -> bool {
    !text.is_empty() && !text.starts_with(b"0") && text.iter().all(u8::is_ascii_digit)
}

fn is_claim(line: &[u8]) -> bool {
    let version = line
        .strip_prefix(b"certificate 1 ")
        .or(line.strip_prefix(b"certificate 2 "));
    let Some(claim) = version else {
        return false;
    };
    let count = claim
        .strip_prefix(b"mate ")
        .or(claim.strip_prefix(b"escape "));
    count.is_some_and(is_number)
}

// The line of the head that isn't as it has to be: the one with the claim; else the problem's,
// where no line stands before these or it isn't an SFEN's; else the first of all.
fn number_of_bad_line(text: &[u8]) -> usize {
    let claim = number_of_claim(text);
    if !is_claim(line_of(text, claim).bytes) {
        return claim;
    }
    let problem = claim.saturating_add(1);
    let sfen = line_of(text, problem).bytes.strip_prefix(b"problem ");
    if claim == 1 || !sfen.is_some_and(|sfen| read_sfen(sfen).is_ok()) {
        return problem;
    }
    1
}

// What is said where the head is none.
fn advice_on_head(text: &[u8]) -> &'static str
    ensures { IsPlain result.now }
{
    if let Some(advice) = advice_on_certificate_look(look_of(text)) {
        return advice;
    }
    if number_of_claim(text) == 1 && is_like_problem(line_of(text, 1).bytes) {
        return ON_PROBLEM_TO_CHECK;
    }
    advice_on_certificate(CertFault::BadHead)
}

fn append_head_explanation(alloc: Global, out: &mut Vec<u8>, text: &[u8]) -> Result<(), AllocError>
    requires plain { IsPlain out.now.items }
    ensures plain { OnOk result (IsPlain out.new.items) }
{
    if is_worth_showing(look_of(text)) {
        append_line(alloc, out, line_of(text, number_of_bad_line(text)))?;
    }
    append(out, advice_on_head(text).as_bytes())
}

// What is said of a line behind the problem's.
fn advice_on_line(fault: CertFault, line: &[u8]) -> &'static str
    ensures { IsPlain result.now }
{
    if line.ends_with(b"\r")
        && let Some(advice) = advice_on_certificate_look(Look::AnswerWithReturns)
    {
        return advice;
    }
    advice_on_certificate(fault)
}

fn append_line_explanation(
    alloc: Global,
    out: &mut Vec<u8>,
    fault: CertFault,
    behind: u64,
    text: &[u8],
) -> Result<(), AllocError>
    requires plain { IsPlain out.now.items }
    ensures plain { OnOk result (IsPlain out.new.items) }
{
    let behind = usize::try_from(behind).unwrap_or(usize::MAX);
    let number = number_of_claim(text)
        .saturating_add(1)
        .saturating_add(behind);
    let line = line_of(text, number);
    append_line(alloc, out, line)?;
    append(out, advice_on_line(fault, line.bytes).as_bytes())
}

fn append_certificate_explanation(
    alloc: Global,
    out: &mut Vec<u8>,
    fault: CertFault,
    text: &[u8],
) -> Result<(), AllocError>
    requires plain { IsPlain out.now.items }
    ensures plain { OnOk result (IsPlain out.new.items) }
{
    match fault {
        CertFault::BadHead => append_head_explanation(alloc, out, text),
        CertFault::BadLine(behind) | CertFault::NotRising(behind) => {
            append_line_explanation(alloc, out, fault, behind, text)
        }
        CertFault::WrongCount | CertFault::NoEnd => append(
            out,
            advice_on_certificate(fault).as_bytes(),
        ),
    }
}

fn append_words_explanation(out: &mut Vec<u8>, told: &[u8]) -> Result<(), AllocError>
    requires plain { IsPlain out.now.items }
    ensures plain { OnOk result (IsPlain out.new.items) }
{
    let Some(advice) = advice_on_words(told) else {
        return Ok(());
    };
    append(out, advice.as_bytes())
}

// What is said of a text that the words give for a certificate's problem.
fn advice_on_asked(fault: TextFault) -> &'static str
    ensures { IsPlain result.now }
{
    if place_of(fault).is_some() {
        return ON_ASKED;
    }
    if fault == TextFault::BadPosition(BadPosition::NoDefenderKing) {
        return ON_NO_DEFENDER_KING;
    }
    advice_on_problem(fault)
}

fn append_collection_explanation(out: &mut Vec<u8>, front: &[u8]) -> Result<(), AllocError>
    requires plain { IsPlain out.now.items }
    ensures plain { OnOk result (IsPlain out.new.items) }
{
    if !has_line_of_record(front) {
        return Ok(());
    }
    append(out, ON_RECORD_TO_COLLECT.as_bytes())
}

/// What is told of a trouble behind its first line: where a line of the input is at fault, that
/// line with its number, and with the place marked where there is one, unless the text looks like
/// something else; then what was expected, or what to do. The input is the whole text at fault; of
/// a trouble that isn't a text's it doesn't count. Lines are of some 80 columns at most, and end
/// with a line feed. They are of printable ASCII, but of a KIF text, where they also have the
/// Japanese characters that such texts are written in. Errors: want of memory alone.
pub fn explain(alloc: Global, trouble: Trouble, input: &[u8]) -> Result<Vec<u8>, AllocError>
    // Whatever the input's bytes are, what is told of them is of printable ASCII and line feeds,
    // and of a diagram's of Japanese characters too.
    ensures harmless { IfOk result (λ explanation. IsHarmless trouble explanation.items) }
{
    let mut out = Vec::new(alloc);
    match trouble {
        Trouble::Problem(fault) => append_problem_explanation(alloc, &mut out, fault, input)?,
        Trouble::Diagram(fault) => append_diagram_explanation(alloc, &mut out, fault, input)?,
        Trouble::DefenderInCheck => append(&mut out, ON_DEFENDER_IN_CHECK.as_bytes())?,
        Trouble::Certificate(fault) => append_certificate_explanation(
            alloc, &mut out, fault, input,
        )?,
        Trouble::TooLong => append(&mut out, ON_LENGTH.as_bytes())?,
        Trouble::Write => append(&mut out, ON_WRITE.as_bytes())?,
        Trouble::NoMemory => append(&mut out, ON_NO_MEMORY.as_bytes())?,
        Trouble::Words => append_words_explanation(&mut out, input)?,
        Trouble::Asked(fault) => append(&mut out, advice_on_asked(fault).as_bytes())?,
        Trouble::Collection => append_collection_explanation(&mut out, input)?,
    }
    Ok(out)
}
