// The four rules that make an escape.
ghost use Rattle.std.specs.Prelude.{◌≡◌, ◌+◌, ◌<◌, ◌↔◌, ℕ, [], ◌∷◌, IfOk, Err};
ghost use Rattle.board_core.specs.declared.keys.Key.{Key};
ghost use Rattle.board_core.specs.declared.moves.Move.{Move};
ghost use Rattle.board_core.specs.Key.{key_of};
ghost use Rattle.shogi_rules.specs.Rules.{after};
ghost use Rattle.shogi_rules.specs.Tsume.{IsEvasion};
ghost use Rattle.path_tags.specs.Tag.{IsRising};
ghost use Rattle.notes.specs.Derivation.{note_over, rule_of, attacker_of, position_of, tag_of, under_of, height_of, highest};
ghost use Rattle.notes.specs.Valid.{IsInPlay, EndsInEscape, EscapesAfterAll, JoinsTags, Says};
ghost use Rattle.notes.specs.declared.rule.Rule.TheVariants.{EscapeEnd, EscapeBy, EscapeRepeat, EscapeAll};
ghost use Rattle.notes.specs.declared.rule.Conclusion.TheVariants.{Escape};
ghost use Rattle.notes.specs.declared.note.NoteEnd.TheVariants.{TooHigh};

use crate::lists::{height_over, joined_tags, shared};
use crate::{Note, NoteEnd, Rule};
use board_core::{Key, Move, Position};
use path_tags::Tag;
use shogi_rules::Problem;
use std::alloc::Global;
use std::slice;

/// An escape where the attacker is to move and has no check, of height 1 and without a tag. The
/// defender has a king, and isn't in check. Errors: want of memory alone.
pub fn escape_end(alloc: Global, problem: &Problem, position: &Position) -> Result<Note, NoteEnd>
    requires play { IsInPlay problem.now.position.side position.now }
    requires end { EndsInEscape problem.now.position.side position.now }
    ensures note { IfOk result (λ note. note
        ≡ note_over EscapeEnd problem.now.position.side position.now [] 1 []) }
    ensures high { ¬ (result ≡ Err TooHigh) }
{
    let tag = Tag::empty(alloc);
    Ok(Note::made(
        alloc,
        Rule::EscapeEnd,
        problem.attacker(),
        position,
        tag,
        1,
        Vec::new(alloc),
    )?)
}

/// An escape by an evasion that leads to an escape, with that note's tag. Its height is 1 more than
/// that note's. The note stays, with one more owner. The defender has a king, and the side not to
/// move isn't in check. Errors: TooHigh exactly where the height would be above 4,096; else want of
/// memory alone.
pub fn escape_by(
    alloc: Global,
    problem: &Problem,
    position: &Position,
    evasion: Move,
    note: &Note,
) -> Result<Note, NoteEnd>
    requires play { IsInPlay problem.now.position.side position.now }
    requires evasion { IsEvasion problem.now.position.side position.now evasion }
    requires escape { Says Escape problem.now.position.side (after position.now evasion) note.now }
    ensures note { IfOk result (λ made. made
        ≡ note_over (EscapeBy evasion) problem.now.position.side position.now (tag_of note.now)
        (height_of note.now + 1) (note.now ∷ [])) }
    ensures high { (result ≡ Err TooHigh) ↔ (4096 < height_of note.now + 1) }
{
    let notes = slice::from_ref(note);
    let height = height_over(notes)?;
    let under = shared(alloc, notes)?;
    let tag = note.tag().copied(alloc)?;
    Ok(Note::made(
        alloc,
        Rule::EscapeBy(evasion),
        problem.attacker(),
        position,
        tag,
        height,
        under,
    )?)
}

/// An escape by an evasion that leads to a position that is taken to stand on the path: `key` is
/// its key, and the note's tag. Its height is 1. The defender has a king, and the side not to move
/// isn't in check. Errors: want of memory alone. (Kishimoto and Müller 2004: a disproof that
/// depends on the path.)
pub fn escape_repeat(
    alloc: Global,
    problem: &Problem,
    position: &Position,
    evasion: Move,
    key: Key,
) -> Result<Note, NoteEnd>
    requires play { IsInPlay problem.now.position.side position.now }
    requires evasion { IsEvasion problem.now.position.side position.now evasion }
    requires key { key.0 ≡ key_of (after position.now evasion) }
    ensures note { IfOk result (λ note. note
        ≡ note_over (EscapeRepeat evasion) problem.now.position.side position.now (key ∷ []) 1 []) }
    ensures high { ¬ (result ≡ Err TooHigh) }
{
    // No other position has the key of the one that the evasion leads to: every position keeps what
    // tells it by its key.
    position.laws();
    let tag = Tag::one(alloc, key)?;
    Ok(Note::made(
        alloc,
        Rule::EscapeRepeat(evasion),
        problem.attacker(),
        position,
        tag,
        1,
        Vec::new(alloc),
    )?)
}

/// An escape where the attacker has checks and each leads to an escape; a note for each, in the
/// order of moves. Its tag has the keys of their tags, but for the position's own: who is back at
/// it goes on as before. Its height is 1 more than the greatest of theirs. The notes stay, with one
/// more owner each. The defender has a king, and isn't in check. Errors: TooHigh exactly where the
/// height would be above 4,096; else want of memory alone.
pub fn escape_all(
    alloc: Global,
    problem: &Problem,
    position: &Position,
    notes: &[Note],
) -> Result<Note, NoteEnd>
    requires play { IsInPlay problem.now.position.side position.now }
    requires all { EscapesAfterAll problem.now.position.side position.now notes.now }
    ensures rule { IfOk result (λ note. rule_of note ≡ EscapeAll) }
    ensures attacker { IfOk result (λ note. attacker_of note ≡ problem.now.position.side) }
    ensures position { IfOk result (λ note. position_of note ≡ position.now) }
    ensures tag { IfOk result (λ note. JoinsTags (tag_of note) position.now notes.now) }
    ensures rises { IfOk result (λ note. IsRising (tag_of note)) }
    ensures height { IfOk result (λ note. height_of note ≡ highest notes.now + 1) }
    ensures under { IfOk result (λ note. under_of note ≡ notes.now) }
    ensures high { (result ≡ Err TooHigh) ↔ (4096 < highest notes.now + 1) }
{
    let height = height_over(notes)?;
    let under = shared(alloc, notes)?;
    let tag = joined_tags(alloc, position, notes)?;
    Ok(Note::made(
        alloc,
        Rule::EscapeAll,
        problem.attacker(),
        position,
        tag,
        height,
        under,
    )?)
}
