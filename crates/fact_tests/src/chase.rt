// The chase of a king by a rook.
use crate::checked::{Unmade, ended_escape, escaped_all, escaped_by, repeated};
use crate::letters::{by, moved, problem};
use crate::same::same;
use board_core::{Move, Position};
use notes::{Note, Rule};
use shogi_rules::Problem;
use std::alloc::Global;
use std::process::Abort;
use std::test::Fail;

/// A rook chases a king round two positions. In each it has four checks; after three of them the
/// king takes it.
#[derive(Drop)]
pub struct Chase {
    /// The problem, whose position is the first.
    pub problem: Problem,
    /// One position of the round.
    pub first: Position,
    first_checked: Position,
    first_taken: Vec<Note>,
    /// The other position of the round.
    pub second: Position,
    second_checked: Position,
    second_taken: Vec<Note>,
    /// From the first position in check to the second.
    pub there: Move,
    /// From the second position in check to the first.
    pub back: Move,
}

// Notes of escapes after checks of a rook that is then taken.
fn taken(
    rt: &impl Abort,
    alloc: Global,
    problem: &Problem,
    position: &Position,
    lines: [(&str, &str); 3],
) -> Result<Vec<Note>, Fail> {
    let mut notes = Vec::new(alloc);
    for (check, evasion) in lines {
        let checked = moved(rt, position, by(rt, check));
        let evasion = by(rt, evasion);
        let end = ended_escape(alloc, problem, &moved(rt, &checked, evasion))?;
        let note = escaped_by(alloc, problem, &checked, evasion, &end)?;
        let found = (end.rule(), end.height());
        same(rt, check, found, (Rule::EscapeEnd, 1));
        let found = (note.height(), note.is_closed());
        same(rt, check, found, (2, true));
        notes.push(note)?;
    }
    Ok(notes)
}

impl Chase {
    /// The problem and its positions, with the notes where the king takes the rook.
    pub fn begun(rt: &impl Abort, alloc: Global) -> Result<Chase, Fail> {
        let problem = problem(rt, "5k3/9/9/9/9/9/9/9/4R4 b -");
        let first = problem.position;
        let (there, back) = (by(rt, "4a5a"), by(rt, "5a4a"));
        let first_checked = moved(rt, &first, by(rt, "5i4i"));
        let second = moved(rt, &first_checked, there);
        Ok(Chase {
            problem,
            first,
            first_checked,
            first_taken: taken(
                rt,
                alloc,
                &problem,
                &first,
                [("5i5a", "4a5a"), ("5i5a+", "4a5a"), ("5i5b+", "4a5b")],
            )?,
            second,
            second_checked: moved(rt, &second, by(rt, "4i5i")),
            second_taken: taken(
                rt,
                alloc,
                &problem,
                &second,
                [("4i4a", "5a4a"), ("4i4a+", "5a4a"), ("4i4b+", "5a4b")],
            )?,
            there,
            back,
        })
    }

    /// The escape from all checks of the first position, over one after the check that goes on.
    pub fn first_escaped(&self, alloc: Global, on: &Note) -> Result<Note, Unmade> {
        let mut notes = Vec::new(alloc);
        notes.push(on.share()?)?;
        for note in &self.first_taken {
            notes.push(note.share()?)?;
        }
        escaped_all(alloc, &self.problem, &self.first, &notes)
    }

    /// The escape from all checks of the second position, over one after the check that goes on.
    pub fn second_escaped(&self, alloc: Global, on: &Note) -> Result<Note, Unmade> {
        let mut notes = Vec::new(alloc);
        for note in &self.second_taken {
            notes.push(note.share()?)?;
        }
        notes.push(on.share()?)?;
        escaped_all(alloc, &self.problem, &self.second, &notes)
    }

    /// The escape after the check that goes on from the first position, over one of the second.
    pub fn gone_there(&self, alloc: Global, second: &Note) -> Result<Note, Unmade> {
        escaped_by(
            alloc,
            &self.problem,
            &self.first_checked,
            self.there,
            second,
        )
    }

    /// The escape after the check that goes on from the second position, over one of the first.
    pub fn gone_back(&self, alloc: Global, first: &Note) -> Result<Note, Unmade> {
        escaped_by(alloc, &self.problem, &self.second_checked, self.back, first)
    }

    /// The escape after the check that goes on from the second position, which gets back to the
    /// first.
    pub fn repeated(&self, alloc: Global) -> Result<Note, Unmade> {
        repeated(alloc, &self.problem, &self.second_checked, self.back)
    }
}
