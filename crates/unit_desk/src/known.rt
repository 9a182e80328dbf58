// What notes that are known before a search begins say of its problem.
ghost use Rattle.std.specs.Prelude.{◌≡◌, ◌<◌, ◌↔◌, ℕ, IfOk, IfSome, IfNone, IsTrue, All, length};
ghost use Rattle.notes.specs.Derivation.{position_of};
ghost use Rattle.notes.specs.Valid.{MayBeCarried};
ghost use Rattle.unit_desk.specs.Desk.{IsAnswerTo};
ghost use Rattle.unit_desk.specs.Known.{IsKnown, Reaches, ReachesAt, IsFirstReaching, IsSaidBy, IsFirstSaid};

use board_core::{Position, key};
use notes::{Note, carry, lending_laws, may_be_lent};
use shogi_rules::Problem;
use std::alloc::{AllocError, Global};

// Whether the note is about the position.
fn is_about(note: &Note, position: &Position) -> bool
    ensures { IsTrue result ↔ (position_of note.now ≡ position.now) }
{
    key(note.position()) == key(position)
}

// Whether the note may be carried to the problem's position.
fn may_carry(problem: &Problem, note: &Note) -> bool
    ensures { IsTrue result
        ↔ MayBeCarried problem.now.position.side problem.now.position note.now }
{
    note.laws();
    lending_laws();
    let from = key(note.position());
    let to = key(&problem.position);
    may_be_lent(note, problem.attacker(), &from, &to)
}

// Whether the note reaches the problem: it is about its position, or may be carried to it.
fn reaches(problem: &Problem, note: &Note) -> bool
    ensures { IsTrue result ↔ Reaches problem.now.position note.now }
{
    is_about(note, &problem.position) || may_carry(problem, note)
}

// The place of the first note that reaches the problem.
fn first_reaching(problem: &Problem, notes: &[Note]) -> Option<usize>
    ensures there { IfSome result (λ place. place < length notes.now) }
    ensures some { IfSome result (IsFirstReaching problem.now.position notes.now) }
    ensures none { IfNone result ((place : ℕ) → ¬ ReachesAt problem.now.position notes.now place) }
{
    for (place, note) in notes.iter().enumerate() {
        if reaches(problem, note) {
            return Some(place);
        }
    }
    None
}

// What a note that reaches the problem says of it.
fn said_by(alloc: Global, problem: &Problem, note: &Note) -> Result<Note, AllocError>
    requires known { IsKnown problem.now.position.side note.now }
    requires reaches { Reaches problem.now.position note.now }
    ensures said { IfOk result (IsSaidBy problem.now.position note.now) }
    ensures answers { IfOk result (IsAnswerTo problem.now.position) }
{
    if is_about(note, &problem.position) {
        return note.share();
    }
    carry(alloc, problem, &problem.position, note)
}

/// What notes say of a problem that are known before its search begins: the first that is about its
/// position, or that may be carried to it, says the note that is answered, in the latter case by
/// [`carry`](notes::carry); none where there is no such note. The notes hold on every path, and are
/// for the problem's attacker. Takes memory where a note is carried. Errors: want of memory alone.
pub fn known_answer(
    alloc: Global,
    problem: &Problem,
    notes: &[Note],
) -> Result<Option<Note>, AllocError>
    requires { All (IsKnown problem.now.position.side) notes.now }
    ensures said { IfOk result (IsFirstSaid problem.now.position notes.now) }
    ensures answers { IfOk result (λ said. IfSome said (IsAnswerTo problem.now.position)) }
{
    let Some(place) = first_reaching(problem, notes) else {
        return Ok(None);
    };
    Ok(Some(said_by(alloc, problem, &notes[place])?))
}
