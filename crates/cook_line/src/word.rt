// The word of a line.
ghost use Rattle.std.specs.Prelude.{◌≡◌};
ghost use Rattle.std.specs.List.{list_any};
ghost use Rattle.cook_report.specs.Report.{says_mate, says_unknown};
ghost use Rattle.cook_line.specs.Stages.{is_cooked, is_open, lacks_mate, tells_other, word_along};

use crate::Stage;
use board_core::Move;
use cook_report::{Line, Word};

fn says_mate(line: &Line) -> bool
    ensures { result ≡ says_mate line.now }
{
    match line {
        Line::Mate(_, _) => true,
        Line::Escape(_, _, _) | Line::Unknown(_, _, _) => false,
    }
}

fn says_unknown(line: &Line) -> bool
    ensures { result ≡ says_unknown line.now }
{
    match line {
        Line::Unknown(_, _, _) => true,
        Line::Mate(_, _) | Line::Escape(_, _, _) => false,
    }
}

// Whether a report's line says that another check than this one mates.
fn tells_other(check: Move, line: &Line) -> bool
    ensures { result ≡ tells_other check line.now }
{
    says_mate(line) && !line.check().is_same(check)
}

fn has_other_mate(check: Move, lines: &[Line]) -> bool
    ensures { result ≡ list_any (tells_other check) lines.now }
{
    lines.iter().any(|line| tells_other(check, line))
}

fn has_mate(lines: &[Line]) -> bool
    ensures { result ≡ list_any says_mate lines.now }
{
    lines.iter().any(|line| says_mate(line))
}

fn has_unknown_check(lines: &[Line]) -> bool
    ensures { result ≡ list_any says_unknown lines.now }
{
    lines.iter().any(|line| says_unknown(line))
}

fn is_cooked(stage: &Stage) -> bool
    ensures { result ≡ is_cooked stage.now }
{
    stage.evaded && has_other_mate(stage.check, stage.report.lines())
}

fn is_open(stage: &Stage) -> bool
    ensures { result ≡ is_open stage.now }
{
    has_unknown_check(stage.report.lines())
}

fn lacks_mate(stage: &Stage) -> bool
    ensures { result ≡ lacks_mate stage.now }
{
    stage.evaded && !has_mate(stage.report.lines())
}

fn has_cooked(stages: &[Stage]) -> bool
    ensures { result ≡ list_any is_cooked stages.now }
{
    stages.iter().any(|stage| is_cooked(stage))
}

fn has_lacking(stages: &[Stage]) -> bool
    ensures { result ≡ list_any lacks_mate stages.now }
{
    stages.iter().any(|stage| lacks_mate(stage))
}

/// Whether it is unknown of a check at one of these stages whether it mates. Takes no memory.
pub fn has_unknown(stages: &[Stage]) -> bool
    ensures { result ≡ list_any is_open stages.now }
{
    stages.iter().any(|stage| is_open(stage))
}

/// The word of a line with these stages: cooked where at one whose check has an evasion another
/// check mates, else open where of a check at one it is unknown whether it mates, else no mate
/// where at one whose check has an evasion no check mates, else sound. Takes no memory.
///
/// (Where a line ends in mate, its last check has no evasion: that a mate can be given in more ways
/// than one at the very end is no cook by the composers' convention.)
pub fn line_word(stages: &[Stage]) -> Word
    ensures { result ≡ word_along stages.now }
{
    if has_cooked(stages) {
        return Word::Cooked;
    }
    if has_unknown(stages) {
        return Word::Open;
    }
    if has_lacking(stages) {
        return Word::NoMate;
    }
    Word::Sound
}
