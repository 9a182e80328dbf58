// What is told of a check.
ghost use Rattle.std.specs.Prelude.{◌≡◌, ◌≤◌, IfOk, IfSome, IsNone, List, Some, length, map};
ghost use Rattle.shogi_rules.specs.Rules.{after};
ghost use Rattle.shogi_rules.specs.Tsume.{IsCheck, IsEvasion};
ghost use Rattle.mate_def.specs.Mate.{after_both};
ghost use Rattle.search_gate.specs.Polls.{ArePolled};
ghost use Rattle.search_limits.specs.Settings.{settings_in};
ghost use Rattle.cook_report.specs.declared.report.Line.TheVariants.{Unknown};
ghost use Rattle.cook_search.specs.Found.{IsLineFound};
ghost use Rattle.cook_search.specs.Inside.{AreShown, IsMated};
ghost use Rattle.cook_search.specs.Search.{Searched};

use crate::Ground;
use crate::deciding::{Finding, Means, decide};
use board_core::{Move, order_laws};
use cert_check::valid_is_accepted;
use cert_text::{MOST_ENTRIES, MateCertificate};
use cook_report::{JoinEnd, Line, join_mates, report_laws};
use evasions::answers;
use search_gate::{Gate, Stop};
use search_limits::Cause;
use shogi_rules::{Problem, accept_problem, apply};
use std::alloc::{AllocError, Global};
use std::sync::Wait;
use std::thread::Threads;

// The first evasion whose position stays open, and why.
#[derive(Clone, Copy)]
struct FirstOpen {
    evasion: Move,
    cause: Cause,
}

// The first that stays open, where this one does, too.
fn first_open(opened: Option<FirstOpen>, evasion: Move, cause: Cause) -> Option<FirstOpen>
    ensures kept { IfSome opened (λ first. result ≡ Some first) }
    ensures new { IsNone opened → result ≡ Some (record { evasion = evasion; cause = cause }) }
{
    match opened {
        Some(first) => Some(first),
        None => Some(FirstOpen { evasion, cause }),
    }
}

/// The problem behind a check and an evasion to it: the attacker is to move again, and the defender
/// has left the check. Takes no memory.
pub fn behind(problem: &Problem, check: Move, evasion: Move) -> Problem
    requires check { IsCheck problem.now.position.side problem.now.position check }
    requires evasion { IsEvasion problem.now.position.side
        (after problem.now.position check) evasion }
    ensures { result.position ≡ after_both problem.now.position check evasion }
{
    let checked = apply(&problem.position, check);
    match accept_problem(apply(&checked, evasion)) {
        Ok(behind) => behind,
        Err(_) => unreachable!(),
    }
}

// What is told of a check behind each of whose evasions stands a mate with its certificate: they
// are joined, unless they list too many positions. Errors: want of memory alone.
fn mated(
    alloc: Global,
    problem: &Problem,
    check: Move,
    evasions: &[Move],
    mates: &[MateCertificate],
) -> Result<Line, AllocError>
    requires shown { (searches : List Searched)
        × AreShown problem.now.position searches check evasions.now mates.now }
    ensures { (searches : List Searched)
        → AreShown problem.now.position searches check evasions.now mates.now
        → IfOk result (IsMated problem.now.position searches check) }
{
    match join_mates(alloc, problem, mates, MOST_ENTRIES as usize) {
        Ok(joined) => Ok(Line::Mate(check, joined)),
        Err(JoinEnd::NoMemory) => Err(AllocError),
        Err(JoinEnd::TooMany) => {
            let Some(evasion) = evasions.last() else {
                unreachable!();
            };
            Ok(Line::Unknown(check, *evasion, Cause::Entries(MOST_ENTRIES)))
        }
    }
}

// What is told of a check whose evasions were all walked. Errors: want of memory alone.
fn told(
    alloc: Global,
    problem: &Problem,
    check: Move,
    evasions: &[Move],
    mates: &[MateCertificate],
    opened: Option<FirstOpen>,
) -> Result<Line, AllocError>
    requires shown { IsNone opened → (searches : List Searched)
        × AreShown problem.now.position searches check evasions.now mates.now }
    ensures mated { IsNone opened → (searches : List Searched)
        → AreShown problem.now.position searches check evasions.now mates.now
        → IfOk result (IsMated problem.now.position searches check) }
    ensures unknown { IfSome opened (λ first. IfOk result
        (λ line. line ≡ Unknown check first.evasion first.cause)) }
{
    match opened {
        Some(first) => Ok(Line::Unknown(check, first.evasion, first.cause)),
        None => mated(alloc, problem, check, evasions, mates),
    }
}

/// Tells of a check whether it mates: searches the position behind each evasion, in the order of
/// moves, till one is no mate. Errors: want of memory alone.
pub(crate) fn line_on<R: Threads + Wait + AllocGlobal + Sync, G: Gate, T: Stop + Drop>(
    ground: &Ground<'_, R, G>,
    check: Move,
    means: &mut Means<T>,
) -> Result<Line, AllocError>
    requires check { IsCheck ground.now.problem.now.position.side
        ground.now.problem.now.position check }
    requires stops { ground.now.settings.now.workers ≤ length means.old.stops.items }
    ensures found { IfOk result
        (IsLineFound ground.now.problem.now.position (settings_in ground.now.settings.now)
        (map T.signal means.old.stops.items) (map T.signal means.new.stops.items)
        means.old.crews.items means.new.crews.items check) }
    ensures polled { ArePolled ground.now.settings.now.workers
        (map T.signal means.old.stops.items) (map T.signal means.new.stops.items) }
{
    // In a list in the order of moves, what comes sooner stands sooner; what a valid certificate
    // shows; and that what an escape lists that can be read is kept.
    order_laws();
    valid_is_accepted();
    report_laws();
    let alloc = ground.rt.alloc();
    let problem = ground.problem;
    let evasions = answers(alloc, problem, &apply(&problem.position, check))?;
    let mut mates = Vec::new(alloc);
    let mut opened = None;
    for evasion in evasions.as_slice() {
        let position = behind(problem, check, *evasion);
        match decide(ground, &position, means)? {
            Finding::Mate(certificate) => mates.push(certificate)?,
            Finding::Escape(certificate) => return Ok(Line::Escape(check, *evasion, certificate)),
            Finding::Open(cause) => opened = first_open(opened, *evasion, cause),
        }
    }
    told(alloc, problem, check, evasions.as_slice(), &mates, opened)
}
