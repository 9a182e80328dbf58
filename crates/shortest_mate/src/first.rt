// The first search: by proof numbers, with half of the expansions.
ghost use Rattle.std.specs.Prelude.{◌≡◌, ◌≤◌, IfOk};
ghost use Rattle.board_core.specs.Board.{Board};
ghost use Rattle.cert_check.specs.Valid.{IsValid};
ghost use Rattle.search_gate.specs.Polls.{IsPolledForEach};
ghost use Rattle.search_gate.specs.Stop.{Signal};
ghost use Rattle.shortest_mate.specs.First.{IsFirst, HeedsFirst};

use cert_extract::{ExtractEnd, extract};
use cert_text::Certificate;
use hand_dominance::Version;
use search_gate::{Gate, Stop};
use search_limits::{Cause, Settings};
use search_pool::{SearchEnd, search_alone_counted};
use shogi_rules::Problem;
use std::alloc::{AllocError, Global};

/// What the first search came to.
#[derive(Drop)]
pub(crate) enum First {
    /// It answered the problem, by this certificate.
    Answered(Certificate),
    /// It gave up.
    Unanswered,
    /// It was stopped.
    Stopped,
}

// What a certificate answers: nothing, where it isn't of version 1, of which the mate and the bound
// of a text about the shortest mate are.
fn answered(certificate: Certificate) -> First
    ensures first { (problem : Board) → IsValid certificate problem
        → IsFirst problem result }
    ensures quiet { (before after_it : Signal) → after_it.raised ≡ before.raised
        → HeedsFirst before after_it result }
{
    match certificate.version() {
        Version::One => First::Answered(certificate),
        Version::Two => First::Unanswered,
    }
}

/// Searches the problem with one worker, and says how many visits it took. Errors: want of memory
/// alone.
pub(crate) fn search_first<G: Gate, T: Stop>(
    alloc: Global,
    problem: &Problem,
    settings: &Settings,
    gate: &G,
    stop: &mut T,
) -> Result<(First, u64), AllocError>
    ensures first { IfOk result (λ found. IsFirst problem.now.position found.0) }
    ensures heeds { IfOk result
        (λ found. HeedsFirst (T.signal stop.old) (T.signal stop.new) found.0) }
    ensures few { IfOk result (λ found. found.1 ≤ settings.now.expansions) }
    ensures polled { IfOk result (λ found. IsPolledForEach 0 found.1 (T.signal stop.old)
        (T.signal stop.new)) }
    ensures armed { (T.signal stop.new).armed ≡ (T.signal stop.old).armed }
    ensures arms { (T.signal stop.new).arms ≡ (T.signal stop.old).arms }
    ensures early { (T.signal stop.new).early ≡ (T.signal stop.old).early }
{
    let (end, drawn) = search_alone_counted(alloc, problem, settings, gate, stop)?;
    match end {
        SearchEnd::Unknown(Cause::Stopped(_), _) => Ok((First::Stopped, drawn)),
        SearchEnd::Unknown(_, _) => Ok((First::Unanswered, drawn)),
        SearchEnd::Solved(note) => match extract(alloc, problem, &note, usize::MAX) {
            Ok(certificate) => Ok((answered(certificate), drawn)),
            Err(ExtractEnd::TooMany) => Ok((First::Unanswered, drawn)),
            Err(ExtractEnd::NoMemory) => Err(AllocError),
        },
    }
}
