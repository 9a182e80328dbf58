// Searches that are told what another one found.
ghost use Rattle.std.specs.Prelude.{◌≡◌, ℕ, IfOk};
ghost use Rattle.notes.specs.Derivation.{attacker_of};
ghost use Rattle.visit_log.specs.Run.{WorkerView};
ghost use Rattle.worker_core.specs.Port.{Suits};
ghost use Rattle.lone_port.specs.Lone.{worker_at_first, book_of};

use board_core::key;
use lone_port::LonePort;
use notes::{Note, Update};
use pn_numbers::Numbers;
use search_limits::Settings;
use shogi_rules::Problem;
use std::alloc::{AllocError, Global};
use visit_log::WorkEnd;
use worker_core::{Port, Worker, work};

// Tells the table a note, as a worker does that leaves its position.
fn learn(port: &mut LonePort, problem: &Problem, note: Note)
    requires some { (worker : WorkerView) × Suits worker (book_of port.old) }
    requires suits { (number : ℕ)
        → Suits (worker_at_first problem.now.position number) (book_of port.old) }
    requires first { (book_of port.old).visits ≡ 0 }
    requires attacker { attacker_of note ≡ (book_of port.old).problem.side }
    ensures { (number : ℕ)
        → Suits (worker_at_first problem.now.position number) (book_of port.new) }
{
    let key = key(note.position());
    let kept = port.enter(&key, Numbers::ONE);
    port.leave(kept, &key, Update::Note(note));
}

// The table and the desk of a problem, where a note is known, if it is one for the attacker.
fn told(
    alloc: Global,
    problem: &Problem,
    settings: &Settings,
    known: Option<Note>,
) -> Result<LonePort, AllocError>
    ensures suits { IfOk result (λ port. (number : ℕ)
        → Suits (worker_at_first problem.now.position number) (book_of port)) }
{
    let mut port = LonePort::make(alloc, problem, settings)?;
    let Some(note) = known else {
        return Ok(port);
    };
    if note.attacker() == problem.attacker() {
        learn(&mut port, problem, note);
        return Ok(port);
    }
    Ok(port)
}

// How a search ends that is told a note, and what it posts.
pub(crate) fn chased(
    alloc: Global,
    problem: &Problem,
    settings: &Settings,
    known: Option<Note>,
) -> Result<(WorkEnd, Option<Note>), AllocError> {
    let mut port = told(alloc, problem, settings, known)?;
    let mut worker = Worker::make(alloc, problem, 1);
    let end = work(alloc, &mut worker, &mut port);
    Ok((end, port.into_note()))
}
