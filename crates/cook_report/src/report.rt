// Cook reports as values.
ghost use Rattle.std.specs.Prelude.{◌≡◌, ℕ, count_by};
ghost use Rattle.cook_report.specs.Report.{check_of, says_mate, says_unknown, word_by, word_of};

use crate::Word;
use board_core::Move;
use cert_text::{EscapeCertificate, MateCertificate};
use search_limits::Cause;
use std::marker::Model;

/// What a report says of one first check, which is named first.
#[derive(Drop)]
pub enum Line {
    /// It mates: each evasion to it leads to a position for which a listed one stands. The list is
    /// about the report's problem, which it need not list; it may be empty.
    Mate(Move, MateCertificate),
    /// It doesn't mate: this evasion leads to a position that is no mate, and the certificate is
    /// about that.
    Escape(Move, Move, EscapeCertificate),
    /// Neither was found: the first evasion after which a search ended without an answer, and why
    /// that one did.
    Unknown(Move, Move, Cause),
}

impl Line {
    /// The first check of which it speaks. Takes no memory.
    pub fn check(&self) -> Move
        ensures { result ≡ check_of self.now }
    {
        match self {
            Line::Mate(check, _) => *check,
            Line::Escape(check, _, _) => *check,
            Line::Unknown(check, _, _) => *check,
        }
    }
}

/// A cook report of a problem: a line for each first check. Contracts see the list of its lines.
/// Whether it is valid is for [`check_report`](crate::check_report) to say.
#[derive(Drop)]
pub struct Report {
    lines: Vec<Line>,
}

impl Model for Report {
    ghost use Rattle.std.specs.Prelude.{List};
    ghost use Rattle.cook_report.specs.declared.report.Line.{Line};

    ghost Value = { List Line };

    ghost view = { λ report. report.lines.items };
}

fn says_mate(line: &Line) -> bool
    ensures { result ≡ says_mate line.now }
{
    match line {
        Line::Mate(_, _) => true,
        Line::Escape(_, _, _) | Line::Unknown(_, _, _) => false,
    }
}

fn says_unknown(line: &Line) -> bool
    ensures { result ≡ says_unknown line.now }
{
    match line {
        Line::Unknown(_, _, _) => true,
        Line::Mate(_, _) | Line::Escape(_, _, _) => false,
    }
}

// How many of the lines are mates.
fn mates(lines: &[Line]) -> usize
    ensures { result ≡ count_by says_mate lines.now }
{
    let mut count = 0;
    for line in lines {
        if says_mate(line) {
            count += 1;
        }
    }
    count
}

// How many of the lines are unknown.
fn unknown(lines: &[Line]) -> usize
    ensures { result ≡ count_by says_unknown lines.now }
{
    let mut count = 0;
    for line in lines {
        if says_unknown(line) {
            count += 1;
        }
    }
    count
}

// The word for so many mates and so many unknown.
fn word_by(mates: usize, unknown: usize) -> Word
    ensures { result ≡ word_by mates unknown }
{
    if mates > 1 {
        return Word::Cooked;
    }
    if unknown > 0 {
        return Word::Open;
    }
    if mates > 0 {
        return Word::Sound;
    }
    Word::NoMate
}

impl Report {
    /// The report of these lines. Takes no memory.
    pub fn new(lines: Vec<Line>) -> Report
        ensures { result ≡ lines.items }
    {
        Report { lines }
    }

    /// Its lines, in order. Takes no memory.
    pub fn lines(&self) -> &[Line]
        ensures { result.now ≡ self.now }
    {
        &self.lines
    }

    /// Its word: cooked where two lines or more are mates, else open where one is unknown, else
    /// sound where one is a mate, else no mate. Takes no memory.
    pub fn word(&self) -> Word
        ensures { result ≡ word_of self.now }
    {
        word_by(mates(&self.lines), unknown(&self.lines))
    }
}
