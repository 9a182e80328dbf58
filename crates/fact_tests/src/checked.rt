// The rules of notes, with the conditions that each asks for tested as it runs.
ghost use Rattle.std.specs.Prelude.{◌≡◌, IsTrue, IfOk};
ghost use Rattle.bit_boards.specs.Kind.{other};
ghost use Rattle.shogi_rules.specs.Rules.{IsInCheck, IsQuiet, after};
ghost use Rattle.hand_dominance.specs.Dominance.{Dominates};
ghost use Rattle.notes.specs.Valid.{IsInPlay, EndsInMate, EndsInEscape, MatesAfterAll, EscapesAfterAll, MayBeCarried, Says, SayEach};

use board_core::{Move, Position, Side, key};
use check_moves::checks;
use dominance_places::is_dominated;
use evasions::answers;
use notes::{
    Conclusion, Note, NoteEnd, carry, escape_all, escape_by, escape_end, escape_repeat, mate_all,
    mate_by, mate_end,
};
use position_places::BoardPlaces;
use shogi_rules::{Problem, apply, in_check, is_check, is_evasion, legal};
use std::alloc::{AllocError, AllocFailed, Global};
use std::slice;

/// Why a rule made no note.
#[derive(Clone, Copy, PartialEq, Eq, Debug)]
pub enum Unmade {
    /// One of its conditions doesn't hold.
    Unmet,
    /// All of them hold.
    Ended(NoteEnd),
}

impl From<AllocError> for Unmade {
    fn from(_: AllocError) -> Unmade {
        Unmade::Ended(NoteEnd::NoMemory)
    }
}

impl<T: Drop> From<AllocFailed<T>> for Unmade {
    fn from(_: AllocFailed<T>) -> Unmade {
        Unmade::Ended(NoteEnd::NoMemory)
    }
}

impl From<NoteEnd> for Unmade {
    fn from(end: NoteEnd) -> Unmade {
        Unmade::Ended(end)
    }
}

fn is_in_play(problem: &Problem, position: &Position) -> bool
    ensures play { IsTrue result → IsInPlay problem.now.position.side position.now }
    ensures quiet { IsTrue result → IsQuiet position.now }
{
    if position.king_square(problem.attacker().other()).is_none() {
        return false;
    }
    !in_check(position, position.side().other())
}

// Whether the move is legal and the note concludes this about the position after it.
fn says(
    conclusion: Conclusion,
    problem: &Problem,
    position: &Position,
    by: Move,
    note: &Note,
) -> bool
    requires { IsQuiet position.now }
    ensures { IsTrue result
        → Says conclusion problem.now.position.side (after position.now by) note.now }
{
    if legal(position, by).is_err() {
        return false;
    }
    if note.conclusion() != conclusion {
        return false;
    }
    if note.attacker() != problem.attacker() {
        return false;
    }
    note.position().is_same(&apply(position, by))
}

// Whether there is a note for each of the moves, in their order, which concludes this about the
// position after it.
fn say_each(
    conclusion: Conclusion,
    problem: &Problem,
    position: &Position,
    moves: &[Move],
    notes: &[Note],
) -> bool
    requires { IsQuiet position.now }
    ensures { IsTrue result
        → SayEach conclusion problem.now.position.side position.now moves.now notes.now }
{
    if moves.len() != notes.len() {
        return false;
    }
    for at in 0..moves.len() {
        if !says(conclusion, problem, position, moves[at], &notes[at]) {
            return false;
        }
    }
    true
}

fn is_attackers(problem: &Problem, position: &Position) -> bool
    ensures { IsTrue result → position.now.side ≡ problem.now.position.side }
{
    position.side() == problem.attacker()
}

fn is_defender_in_check(problem: &Problem, position: &Position) -> bool
    ensures turn { IsTrue result → position.now.side ≡ other problem.now.position.side }
    ensures check { IsTrue result → IsInCheck position.now.cells (other problem.now.position.side) }
{
    let defender = problem.attacker().other();
    if position.side() != defender {
        return false;
    }
    in_check(position, defender)
}

// Whether the attacker is to move and has no check.
fn ends_in_escape(alloc: Global, problem: &Problem, position: &Position) -> Result<bool, AllocError>
    requires { IsQuiet position.now }
    ensures { IfOk result (λ ends. IsTrue ends
        → EndsInEscape problem.now.position.side position.now) }
{
    if !is_attackers(problem, position) {
        return Ok(false);
    }
    let checks = checks(alloc, problem, position)?;
    if checks.len() > 0 {
        return Ok(false);
    }
    Ok(true)
}

// Whether the defender is in check and has no evasion.
fn ends_in_mate(alloc: Global, problem: &Problem, position: &Position) -> Result<bool, AllocError>
    requires { IsQuiet position.now }
    ensures { IfOk result (λ ends. IsTrue ends
        → EndsInMate problem.now.position.side position.now) }
{
    if !is_defender_in_check(problem, position) {
        return Ok(false);
    }
    let evasions = answers(alloc, problem, position)?;
    if evasions.len() > 0 {
        return Ok(false);
    }
    Ok(true)
}

// Whether the attacker has a check, and there is a note of an escape after each.
fn escapes_after_all(
    alloc: Global,
    problem: &Problem,
    position: &Position,
    notes: &[Note],
) -> Result<bool, AllocError>
    requires { IsQuiet position.now }
    ensures { IfOk result (λ all. IsTrue all
        → EscapesAfterAll problem.now.position.side position.now notes.now) }
{
    let checks = checks(alloc, problem, position)?;
    if checks.len() == 0 {
        return Ok(false);
    }
    Ok(say_each(
        Conclusion::Escape,
        problem,
        position,
        checks.as_slice(),
        notes,
    ))
}

// Whether the defender has an evasion, and there is a note of a mate after each.
fn mates_after_all(
    alloc: Global,
    problem: &Problem,
    position: &Position,
    notes: &[Note],
) -> Result<bool, AllocError>
    requires { IsQuiet position.now }
    ensures { IfOk result (λ all. IsTrue all
        → MatesAfterAll problem.now.position.side position.now notes.now) }
{
    let evasions = answers(alloc, problem, position)?;
    if evasions.len() == 0 {
        return Ok(false);
    }
    Ok(say_each(
        Conclusion::Mate,
        problem,
        position,
        evasions.as_slice(),
        notes,
    ))
}

/// The escape where the attacker has no check.
pub fn ended_escape(alloc: Global, problem: &Problem, position: &Position) -> Result<Note, Unmade> {
    if !is_in_play(problem, position) || !ends_in_escape(alloc, problem, position)? {
        return Err(Unmade::Unmet);
    }
    Ok(escape_end(alloc, problem, position)?)
}

/// The escape by an evasion, over one of the position after it.
pub fn escaped_by(
    alloc: Global,
    problem: &Problem,
    position: &Position,
    evasion: Move,
    note: &Note,
) -> Result<Note, Unmade> {
    if !is_in_play(problem, position)
        || !is_evasion(problem, position, evasion)
        || !says(Conclusion::Escape, problem, position, evasion, note)
    {
        return Err(Unmade::Unmet);
    }
    Ok(escape_by(alloc, problem, position, evasion, note)?)
}

/// The escape by an evasion to a position that the note depends on.
pub fn repeated(
    alloc: Global,
    problem: &Problem,
    position: &Position,
    evasion: Move,
) -> Result<Note, Unmade> {
    if !is_in_play(problem, position) || !is_evasion(problem, position, evasion) {
        return Err(Unmade::Unmet);
    }
    let repeat = key(&apply(position, evasion));
    Ok(escape_repeat(alloc, problem, position, evasion, repeat)?)
}

/// The escape from all checks, over one after each.
pub fn escaped_all(
    alloc: Global,
    problem: &Problem,
    position: &Position,
    notes: &[Note],
) -> Result<Note, Unmade> {
    if !is_in_play(problem, position) || !escapes_after_all(alloc, problem, position, notes)? {
        return Err(Unmade::Unmet);
    }
    Ok(escape_all(alloc, problem, position, notes)?)
}

/// The mate where the defender has no evasion.
pub fn ended_mate(alloc: Global, problem: &Problem, position: &Position) -> Result<Note, Unmade> {
    if !is_in_play(problem, position) || !ends_in_mate(alloc, problem, position)? {
        return Err(Unmade::Unmet);
    }
    Ok(mate_end(alloc, problem, position)?)
}

/// The mate by a check, over one of the position after it.
pub fn mated_by(
    alloc: Global,
    problem: &Problem,
    position: &Position,
    check: Move,
    note: &Note,
) -> Result<Note, Unmade> {
    if !is_in_play(problem, position)
        || !is_check(problem, position, check)
        || !says(Conclusion::Mate, problem, position, check, note)
    {
        return Err(Unmade::Unmet);
    }
    Ok(mate_by(alloc, problem, position, check, note)?)
}

/// The mate whatever the evasion, over one after each.
pub fn mated_all(
    alloc: Global,
    problem: &Problem,
    position: &Position,
    notes: &[Note],
) -> Result<Note, Unmade> {
    if !is_in_play(problem, position) || !mates_after_all(alloc, problem, position, notes)? {
        return Err(Unmade::Unmet);
    }
    Ok(mate_all(alloc, problem, position, notes)?)
}

// Whether the one position dominates the other, for this attacker.
fn dominates(
    alloc: Global,
    attacker: Side,
    over: &Position,
    under: &Position,
) -> Result<bool, AllocError>
    ensures { IfOk result (λ found. IsTrue found → Dominates attacker over.now under.now) }
{
    let mut boards = BoardPlaces::new(alloc);
    boards.add(over)?;
    let mut places = Vec::new(alloc);
    is_dominated(slice::from_ref(over), &boards, attacker, under, &mut places)
}

// Whether the note may be carried to the position.
fn may_be_carried(
    alloc: Global,
    problem: &Problem,
    position: &Position,
    note: &Note,
) -> Result<bool, AllocError>
    ensures { IfOk result (λ may. IsTrue may
        → MayBeCarried problem.now.position.side position.now note.now) }
{
    if note.attacker() != problem.attacker() {
        return Ok(false);
    }
    if !note.is_closed() {
        return Ok(false);
    }
    match note.conclusion() {
        Conclusion::Mate => dominates(alloc, problem.attacker(), position, note.position()),
        Conclusion::Escape => dominates(alloc, problem.attacker(), note.position(), position),
    }
}

/// What a note concludes, of another position of its board.
pub fn carried(
    alloc: Global,
    problem: &Problem,
    position: &Position,
    note: &Note,
) -> Result<Note, Unmade> {
    if !may_be_carried(alloc, problem, position, note)? {
        return Err(Unmade::Unmet);
    }
    Ok(carry(alloc, problem, position, note)?)
}
