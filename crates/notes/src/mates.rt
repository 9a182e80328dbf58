// The three rules that make a mate.
ghost use Rattle.std.specs.Prelude.{◌≡◌, ◌+◌, ◌<◌, ◌↔◌, ℕ, [], ◌∷◌, IfOk, Err};
ghost use Rattle.board_core.specs.declared.moves.Move.{Move};
ghost use Rattle.shogi_rules.specs.Rules.{after};
ghost use Rattle.shogi_rules.specs.Tsume.{IsCheck};
ghost use Rattle.notes.specs.Derivation.{note_over, height_of, highest};
ghost use Rattle.notes.specs.Valid.{IsInPlay, EndsInMate, MatesAfterAll, Says};
ghost use Rattle.notes.specs.declared.rule.Rule.TheVariants.{MateEnd, MateAll, MateBy};
ghost use Rattle.notes.specs.declared.rule.Conclusion.TheVariants.{Mate};
ghost use Rattle.notes.specs.declared.note.NoteEnd.TheVariants.{TooHigh};

use crate::lists::{height_over, shared};
use crate::{Note, NoteEnd, Rule};
use board_core::{Move, Position};
use path_tags::Tag;
use shogi_rules::Problem;
use std::alloc::Global;
use std::slice;

/// A mate where the defender is in check and has no evasion, of height 1 and without a tag. The
/// defender has a king, and the side not to move isn't in check. Errors: want of memory alone.
/// (Rules of shogi: mate.)
pub fn mate_end(alloc: Global, problem: &Problem, position: &Position) -> Result<Note, NoteEnd>
    requires play { IsInPlay problem.now.position.side position.now }
    requires end { EndsInMate problem.now.position.side position.now }
    ensures note { IfOk result (λ note. note
        ≡ note_over MateEnd problem.now.position.side position.now [] 1 []) }
    ensures high { ¬ (result ≡ Err TooHigh) }
{
    let tag = Tag::empty(alloc);
    Ok(Note::made(
        alloc,
        Rule::MateEnd,
        problem.attacker(),
        position,
        tag,
        1,
        Vec::new(alloc),
    )?)
}

/// A mate where the defender has evasions and each leads to a mate; a note for each, in the order
/// of moves. Its height is 1 more than the greatest of theirs. The notes stay, with one more owner
/// each. The defender has a king, and the side not to move isn't in check. Errors: TooHigh exactly
/// where the height would be above 4,096; else want of memory alone.
pub fn mate_all(
    alloc: Global,
    problem: &Problem,
    position: &Position,
    notes: &[Note],
) -> Result<Note, NoteEnd>
    requires play { IsInPlay problem.now.position.side position.now }
    requires all { MatesAfterAll problem.now.position.side position.now notes.now }
    ensures note { IfOk result (λ note. note
        ≡ note_over MateAll problem.now.position.side position.now [] (highest notes.now + 1)
        notes.now) }
    ensures high { (result ≡ Err TooHigh) ↔ (4096 < highest notes.now + 1) }
{
    let height = height_over(notes)?;
    let under = shared(alloc, notes)?;
    let tag = Tag::empty(alloc);
    Ok(Note::made(
        alloc,
        Rule::MateAll,
        problem.attacker(),
        position,
        tag,
        height,
        under,
    )?)
}

/// A mate by a check that leads to a mate. Its height is 1 more than that note's. The note stays,
/// with one more owner. The defender has a king, and the side not to move isn't in check. Errors:
/// TooHigh exactly where the height would be above 4,096; else want of memory alone.
pub fn mate_by(
    alloc: Global,
    problem: &Problem,
    position: &Position,
    check: Move,
    note: &Note,
) -> Result<Note, NoteEnd>
    requires play { IsInPlay problem.now.position.side position.now }
    requires check { IsCheck problem.now.position.side position.now check }
    requires mate { Says Mate problem.now.position.side (after position.now check) note.now }
    ensures note { IfOk result (λ made. made
        ≡ note_over (MateBy check) problem.now.position.side position.now []
        (height_of note.now + 1) (note.now ∷ [])) }
    ensures high { (result ≡ Err TooHigh) ↔ (4096 < height_of note.now + 1) }
{
    let notes = slice::from_ref(note);
    let height = height_over(notes)?;
    let under = shared(alloc, notes)?;
    let tag = Tag::empty(alloc);
    Ok(Note::made(
        alloc,
        Rule::MateBy(check),
        problem.attacker(),
        position,
        tag,
        height,
        under,
    )?)
}
