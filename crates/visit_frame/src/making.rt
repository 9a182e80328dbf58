// The note of a solved node, from those of its children.
ghost use Rattle.std.specs.Prelude.{◌≡◌, ◌<◌, ◌+◌, ◌↔◌, ℕ, List, IfOk, Err, IsTrue, max, true};
ghost use Rattle.board_core.specs.declared.keys.Key.{Key};
ghost use Rattle.pn_numbers.specs.declared.node.Node.TheVariants.{Attacker, Defender};
ghost use Rattle.shogi_rules.specs.Tsume.{IsCheck, IsEvasion};
ghost use Rattle.notes.specs.Derivation.{highest};
ghost use Rattle.notes.specs.declared.note.NoteEnd.TheVariants.{TooHigh};
ghost use Rattle.visit_log.specs.Frame.{task_for};
ghost use Rattle.visit_log.specs.Children.{decides, deciding, is_solved, note_list, notes_in, rule_by, rule_of_all, rule_with, notes_with};
ghost use Rattle.visit_log.specs.Machine.{IsPlayed};
ghost use Rattle.visit_log.specs.Sound.{IsSoundChild};
ghost use Rattle.visit_frame.specs.Making.{IsNoteFor, IsKnown, AllSay};

use crate::reckoning::deciding;
use board_core::Position;
use notes::{
    HEIGHT_LIMIT, Note, NoteEnd, escape_all, escape_by, escape_end, escape_repeat, mate_all,
    mate_by, mate_end,
};
use pn_numbers::Node;
use shogi_rules::Problem;
use std::alloc::{AllocError, Global};
use visit_log::Child;

// The notes of the children, with one more owner each.
fn notes_of(alloc: Global, children: &[Child]) -> Result<Vec<Note>, AllocError>
    ensures { IfOk result (λ notes. notes.items ≡ notes_in children.now) }
{
    let mut notes = Vec::new(alloc);
    for child in children {
        match &child.note {
            Some(note) => notes.push(note.share()?)?,
            None => {}
        }
    }
    Ok(notes)
}

// The greater of two heights.
fn greater(one: u32, another: u32) -> u32
    ensures { result ≡ max one another }
{
    if one < another { another } else { one }
}

// Whether a note over those of the children would be higher than notes can be.
fn too_high(children: &[Child]) -> bool
    ensures { IsTrue result ↔ (4096 < highest (notes_in children.now) + 1) }
{
    let mut greatest = 0;
    for child in children {
        match &child.note {
            Some(note) => greatest = greater(greatest, note.height()),
            None => {}
        }
    }
    greatest >= HEIGHT_LIMIT
}

// The note of an attacker's node by a check that mates.
fn mate_by_child(
    alloc: Global,
    problem: &Problem,
    position: &Position,
    child: &Child,
) -> Result<Note, NoteEnd>
    requires played { IsPlayed problem.now.position.side position.now }
    requires check { IsCheck problem.now.position.side position.now child.now.by }
    requires sound { (worker : ℕ) × (path : List Key)
        × IsSoundChild (task_for problem.now.position worker) position.now path child.now }
    requires decides { decides Attacker child.now ≡ true }
    ensures made { IfOk result
        (IsNoteFor (rule_by Attacker child.now) problem.now.position.side position.now
        (note_list child.now.note)) }
    ensures high { (result ≡ Err TooHigh) ↔ (4096 < highest (note_list child.now.note) + 1) }
{
    match &child.note {
        Some(under) => {
            let note = mate_by(alloc, problem, position, child.by, under)?;
            note.laws();
            Ok(note)
        }
        None => unreachable!(),
    }
}

// The note of a defender's node by an evasion that escapes.
fn escape_by_child(
    alloc: Global,
    problem: &Problem,
    position: &Position,
    child: &Child,
) -> Result<Note, NoteEnd>
    requires played { IsPlayed problem.now.position.side position.now }
    requires evasion { IsEvasion problem.now.position.side position.now child.now.by }
    requires sound { (worker : ℕ) × (path : List Key)
        × IsSoundChild (task_for problem.now.position worker) position.now path child.now }
    requires decides { decides Defender child.now ≡ true }
    ensures made { IfOk result
        (IsNoteFor (rule_by Defender child.now) problem.now.position.side position.now
        (note_list child.now.note)) }
    ensures high { (result ≡ Err TooHigh) ↔ (4096 < highest (note_list child.now.note) + 1) }
{
    if child.on_path {
        let note = escape_repeat(alloc, problem, position, child.by, child.key)?;
        note.laws();
        return Ok(note);
    }
    match &child.note {
        Some(under) => {
            let note = escape_by(alloc, problem, position, child.by, under)?;
            note.laws();
            Ok(note)
        }
        None => unreachable!(),
    }
}

// The note of an attacker's node all of whose checks let the defender escape.
fn escape_from_all(
    alloc: Global,
    problem: &Problem,
    position: &Position,
    children: &[Child],
) -> Result<Note, NoteEnd>
    requires played { IsPlayed problem.now.position.side position.now }
    requires all { AllSay Attacker problem.now.position.side position.now children.now }
    ensures made { IfOk result
        (IsNoteFor (rule_of_all Attacker children.now) problem.now.position.side position.now
        (notes_in children.now)) }
    ensures high { (result ≡ Err TooHigh) ↔ (4096 < highest (notes_in children.now) + 1) }
{
    if children.is_empty() {
        let note = escape_end(alloc, problem, position)?;
        note.laws();
        return Ok(note);
    }
    if too_high(children) {
        return Err(NoteEnd::TooHigh);
    }
    let notes = notes_of(alloc, children)?;
    let note = escape_all(alloc, problem, position, &notes)?;
    note.laws();
    Ok(note)
}

// The note of a defender's node all of whose evasions lead to a mate.
fn mate_from_all(
    alloc: Global,
    problem: &Problem,
    position: &Position,
    children: &[Child],
) -> Result<Note, NoteEnd>
    requires played { IsPlayed problem.now.position.side position.now }
    requires all { AllSay Defender problem.now.position.side position.now children.now }
    ensures made { IfOk result
        (IsNoteFor (rule_of_all Defender children.now) problem.now.position.side position.now
        (notes_in children.now)) }
    ensures high { (result ≡ Err TooHigh) ↔ (4096 < highest (notes_in children.now) + 1) }
{
    if children.is_empty() {
        let note = mate_end(alloc, problem, position)?;
        note.laws();
        return Ok(note);
    }
    if too_high(children) {
        return Err(NoteEnd::TooHigh);
    }
    let notes = notes_of(alloc, children)?;
    let note = mate_all(alloc, problem, position, &notes)?;
    note.laws();
    Ok(note)
}

// The note of a solved node.
pub(crate) fn note_of(
    alloc: Global,
    problem: &Problem,
    position: &Position,
    node: Node,
    children: &[Child],
) -> Result<Note, NoteEnd>
    requires known { (worker : ℕ) × (path : List Key)
        × IsKnown (task_for problem.now.position worker) path node position.now children.now }
    requires solved { is_solved node children.now ≡ true }
    ensures made { IfOk result
        (IsNoteFor (rule_with node children.now (deciding node children.now))
        problem.now.position.side position.now
        (notes_with children.now (deciding node children.now))) }
    ensures high { (result ≡ Err TooHigh)
        ↔ (4096 < highest (notes_with children.now (deciding node children.now)) + 1) }
{
    match (node, deciding(node, children)) {
        (Node::Attacker, Some(child)) => mate_by_child(alloc, problem, position, child),
        (Node::Defender, Some(child)) => escape_by_child(alloc, problem, position, child),
        (Node::Attacker, None) => escape_from_all(alloc, problem, position, children),
        (Node::Defender, None) => mate_from_all(alloc, problem, position, children),
    }
}
