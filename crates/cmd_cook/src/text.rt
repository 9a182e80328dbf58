// The text of an answer. Each part is appended to the one text.
ghost use Rattle.std.specs.Prelude.{◌≡◌, ◌<◌, ◌^◌, ◌++◌, ◌∷◌, OnOk, IfOk, codes, length, take};
ghost use Rattle.std.specs.Fmt.{decimal};
ghost use Rattle.std.specs.List.{flat_map};
ghost use Rattle.usi_text.specs.Lines.{spaced_move};
ghost use Rattle.usi_text.specs.MoveText.{move_text};
ghost use Rattle.cert_text.specs.Entries.{line};
ghost use Rattle.cert_text.specs.Text.{entries_text};
ghost use Rattle.cook_report.specs.Report.{word_of};
ghost use Rattle.cook_line.specs.Stages.{word_along};
ghost use Rattle.cmd_cook.specs.Text.{along_text, answer_text, line_text, listed_text, report_text, stage_text, stages_text, version_text, word_text};

use crate::{CookAnswer, ToldLine};
use app_texts::append_cause;
use board_core::Move;
use cert_text::{CertificateOf, Entry, append_number};
use cook_line::{Stage, line_word};
use cook_report::{Line, Report, Word};
use hand_dominance::Version;
use std::alloc::{AllocError, Global};
use usi_text::write_move;

fn text_of_word(word: Word) -> &'static [u8]
    ensures { result.now ≡ word_text word }
{
    match word {
        Word::Sound => b"sound",
        Word::Cooked => b"cooked",
        Word::Open => b"open",
        Word::NoMate => b"nomate",
    }
}

fn text_of_version(version: Version) -> &'static [u8]
    ensures { result.now ≡ version_text version }
{
    match version {
        Version::One => b"1 ",
        Version::Two => b"2 ",
    }
}

// The words of a line and the move that they are about.
fn append_move(out: &mut Vec<u8>, words: &[u8], named: Move) -> Result<(), AllocError>
    ensures { OnOk result (out.new.items ≡ out.old.items ++ (words.now ++ move_text named)) }
{
    out.extend_from_slice(words)?;
    out.extend_from_slice(write_move(named).as_bytes())?;
    Ok(())
}

fn append_entries<E: Entry>(out: &mut Vec<u8>, listed: &CertificateOf<E>) -> Result<(), AllocError>
    ensures { OnOk result (out.new.items
        ≡ out.old.items ++ entries_text (E.form listed.now.problem) listed.now.entries) }
{
    let entries = listed.entries();
    for entry in entries {
        entry.append(out)?;
    }
    Ok(())
}

// What ends a line that lists something, behind the words that it begins with; and the entries.
fn append_listed<E: Entry>(out: &mut Vec<u8>, listed: &CertificateOf<E>) -> Result<(), AllocError>
    ensures { OnOk result (out.new.items ≡ out.old.items
        ++ (line (version_text listed.now.version ++ decimal (length listed.now.entries))
        ++ entries_text (E.form listed.now.problem) listed.now.entries)) }
{
    out.extend_from_slice(text_of_version(listed.version()))?;
    append_number(out, listed.entries().len() as u64)?;
    out.push(b'\n')?;
    append_entries(out, listed)
}

fn append_line(out: &mut Vec<u8>, told: &Line) -> Result<(), AllocError>
    ensures { OnOk result (out.new.items ≡ out.old.items ++ line_text told.now) }
{
    append_move(out, b"check ", told.check())?;
    match told {
        Line::Mate(_, listed) => {
            out.extend_from_slice(b" mate ")?;
            append_listed(out, listed)
        }
        Line::Escape(_, evasion, listed) => {
            append_move(out, b" escape ", *evasion)?;
            out.push(b' ')?;
            append_listed(out, listed)
        }
        Line::Unknown(_, _, cause) => {
            out.extend_from_slice(b" unknown ")?;
            append_cause(out, *cause)?;
            out.push(b'\n')?;
            Ok(())
        }
    }
}

// The texts of the lines, one behind the other.
fn append_lines(out: &mut Vec<u8>, lines: &[Line]) -> Result<(), AllocError>
    ensures { OnOk result (out.new.items ≡ out.old.items ++ flat_map line_text lines.now) }
{
    for told in lines {
        append_line(out, told)?;
    }
    Ok(())
}

fn append_first_line(out: &mut Vec<u8>, report: &Report) -> Result<(), AllocError>
    ensures { OnOk result (out.new.items ≡ out.old.items
        ++ line (codes "cook " ++ word_text (word_of report.now)
        ++ 32 ∷ decimal (length report.now))) }
{
    out.extend_from_slice(b"cook ")?;
    out.extend_from_slice(text_of_word(report.word()))?;
    out.push(b' ')?;
    append_number(out, report.lines().len() as u64)?;
    out.push(b'\n')?;
    Ok(())
}

fn append_report(out: &mut Vec<u8>, report: &Report) -> Result<(), AllocError>
    ensures { OnOk result (out.new.items ≡ out.old.items ++ report_text report.now) }
{
    append_first_line(out, report)?;
    append_lines(out, report.lines())?;
    out.extend_from_slice(b"end\n")?;
    Ok(())
}

// So many of the moves, from the first on; all where there are no more.
fn first_moves(moves: &[Move], count: usize) -> &[Move]
    ensures { result.now ≡ take count moves.now }
{
    if count < moves.len() {
        &moves[..count]
    } else {
        moves
    }
}

fn append_moves(out: &mut Vec<u8>, moves: &[Move]) -> Result<(), AllocError>
    ensures { OnOk result (out.new.items ≡ out.old.items ++ flat_map spaced_move moves.now) }
{
    for by in moves {
        append_move(out, b" ", *by)?;
    }
    Ok(())
}

fn append_stage(
    out: &mut Vec<u8>,
    moves: &[Move],
    turn: usize,
    stage: &Stage,
) -> Result<(), AllocError>
    requires { turn < 2 ^ 63 }
    ensures { OnOk result (out.new.items ≡ out.old.items ++ stage_text moves.now turn stage.now) }
{
    out.extend_from_slice(b"at ")?;
    append_number(out, turn as u64 + 1)?;
    append_moves(out, first_moves(moves, 2 * turn))?;
    out.push(b'\n')?;
    append_report(out, &stage.report)
}

fn append_stages(out: &mut Vec<u8>, moves: &[Move], stages: &[Stage]) -> Result<(), AllocError>
    ensures { OnOk result (out.new.items ≡ out.old.items ++ stages_text moves.now 0 stages.now) }
{
    for (turn, stage) in stages.iter().enumerate() {
        append_stage(out, moves, turn, stage)?;
    }
    Ok(())
}

fn append_last_line(out: &mut Vec<u8>, stages: &[Stage]) -> Result<(), AllocError>
    ensures { OnOk result (out.new.items ≡ out.old.items
        ++ line (codes "line " ++ word_text (word_along stages.now)
        ++ 32 ∷ decimal (length stages.now))) }
{
    out.extend_from_slice(b"line ")?;
    out.extend_from_slice(text_of_word(line_word(stages)))?;
    out.push(b' ')?;
    append_number(out, stages.len() as u64)?;
    out.push(b'\n')?;
    Ok(())
}

/// The whole text of a report: the line `cook WORD K`, with its word and how many first checks
/// there are; for each a line `check M mate V N`, `check M escape A V N` or `check M unknown C`,
/// and behind the first two the N entries that show it, of version V, in the form of a
/// certificate's; and the line `end`. Errors: want of memory alone.
pub fn report_text(alloc: Global, report: &Report) -> Result<Vec<u8>, AllocError>
    ensures { IfOk result (λ text. text.items ≡ report_text report.now) }
{
    let mut text = Vec::new(alloc);
    append_report(&mut text, report)?;
    Ok(text)
}

/// The whole text of what is told along a line: for each report the line `at K`, with its number
/// from 1 and the moves of the line before it, a space before each, and its text; and the line
/// `line WORD P`, with the line's word and how many reports there are. Errors: want of memory
/// alone.
pub fn along_text(alloc: Global, told: &ToldLine) -> Result<Vec<u8>, AllocError>
    ensures { IfOk result (λ text. text.items
        ≡ along_text told.now.moves.items told.now.stages.items) }
{
    let mut text = Vec::new(alloc);
    append_stages(&mut text, &told.moves, &told.stages)?;
    append_last_line(&mut text, &told.stages)?;
    Ok(text)
}

/// The whole text of an answer: of a report, or of what is told along a line. Errors: want of
/// memory alone.
pub fn answer_text(alloc: Global, answer: &CookAnswer) -> Result<Vec<u8>, AllocError>
    ensures { IfOk result (λ text. text.items ≡ answer_text answer.now) }
{
    match answer {
        CookAnswer::Report(told) => report_text(alloc, &told.report),
        CookAnswer::Lines(told) => along_text(alloc, told),
    }
}
