// The lines of a text, one after another.
ghost use Rattle.std.specs.Prelude.{◌≡◌, ◌≤◌, ◌∷◌, ◌++◌, ◌^◌, [], filter, length, map, MatchOption};
ghost use Rattle.std.specs.List.{AllByRecursion};
ghost use Rattle.std.specs.List.Sorted.{IsStrictlyIncreasing};
ghost use Rattle.std.specs.Str.Lines.{lines};
ghost use Rattle.problem_lines.specs.Lines.{is_problem, problem_lines, seen};
ghost use Rattle.problem_lines.specs.Written.{ListsWhatIsWritten, HoldsProblem};

use crate::cut::{is_skipped, split_first, split_remark};
use crate::{Line, MOST_PROBLEM_BYTES};
use std::marker::Model;

/// Goes over the lines of a text. Contracts see the lines that hold a problem and are still to
/// come.
#[derive(Clone, Drop)]
pub struct Lines<'a> {
    rest: &'a [u8],
    // The number of the line with which the rest begins.
    number: u64,
}

impl<'a> Model for Lines<'a> {
    ghost use Rattle.std.specs.Prelude.{List, ◌+◌, ◌<◌, ◌^◌, length};
    ghost use Rattle.std.specs.Str.Lines.{lines};
    ghost use Rattle.problem_lines.specs.Lines.{NumberedLine, problems_among};

    ghost Value = { List NumberedLine };

    ghost view = { λ here. problems_among here.number (lines here.rest.now) };

    ghost invariant = { λ here. here.number + length here.rest.now < 2 ^ 64 };
}

impl<'a> Lines<'a> {
    /// The lines of a text, of which the first has this number. Takes no memory.
    pub fn new(text: &'a [u8], first: u64) -> Lines<'a>
        requires { first ≤ 2 ^ 63 }
        ensures lines { result ≡ problem_lines first text.now }

        // However the text is written in lines, these are those of them that hold a problem. Their
        // numbers rise, and none is skipped.
        ensures written { ListsWhatIsWritten first text.now result }
        ensures rising { IsStrictlyIncreasing (map (λ line. line.number) result) }
        ensures problems { AllByRecursion HoldsProblem result }

        // The problem of a line and its remark are the whole line.
        ensures whole { map (λ line. line.content ++ line.remark) result
            ≡ filter is_problem (lines text.now) }

        // There are no more of them than the text has bytes.
        ensures few { length result ≤ length text.now }
    {
        Lines {
            rest: text,
            number: first,
        }
    }

    /// The next line that holds a problem; none where there is none left. Takes no memory.
    pub fn next(&mut self) -> Option<Line<'a>>
        ensures { MatchOption result ((self.old ≡ []) × (self.new ≡ [])) (λ line. self.old
            ≡ seen line ∷ self.new) }
    {
        while !self.rest.is_empty() {
            let (whole, rest) = split_first(self.rest);
            let number = self.number;
            self.rest = rest;
            self.number += 1;
            let (content, remark) = split_remark(whole);
            if !is_skipped(content) {
                return Some(Line {
                    number,
                    content,
                    remark,
                    is_too_long: whole.len() > MOST_PROBLEM_BYTES,
                });
            }
        }
        None
    }
}
