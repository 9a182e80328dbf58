// What is found of a text about the shortest mate.
ghost use Rattle.std.specs.Prelude.{◌≡◌, ◌↔◌, ℕ, List, Option, IsTrue, IfOk};
ghost use Rattle.mate_facts.specs.Entries.{IsListedWith};
ghost use Rattle.one_run.specs.Command.{IsAnswer};
ghost use Rattle.one_run.specs.Stops.{Signals, AreUnused};
ghost use Rattle.cmd_check.specs.Asked.{IsProblemInWords};
ghost use Rattle.cmd_bound.specs.Answer.{IsJudgedFor, IsJudgementOn, IsTrueOfBound};
ghost use Rattle.cmd_bound.specs.Meaning.{bound_meaning};
ghost use Rattle.cmd_bound.specs.Told.{SaysOfMate, TellsVerdict, why_of};

use crate::{BoundJudgement, BoundWhy};
use board_core::{Move, Position};
use bound_check::{BoundVerdict, check_bound, valid_bound_is_accepted};
use bound_text::Bound;
use cert_check::Verdict;
use cert_text::{Certificate, MateCertificate};
use mate_facts::{MateEntry, Rank};
use one_run::Unanswered;
use shogi_rules::Problem;
use shortest_text::{ShortestEnd, ShortestFault, ShortestText, read_shortest, shortest_laws};
use side_by_side::MOST_MEMBERS;
use std::alloc::{AllocError, Global};
use std::thread::Threads;
use wide_check::check_wide;

// The problem for which a text is judged: the one that is asked about, else its own.
fn problem_for(asked: &Option<Problem>, own: &Problem) -> Problem
    ensures { (text : Option (List ℕ)) → IsProblemInWords text asked.now
        → IsJudgedFor text own.now.position result.position }
{
    match asked {
        Some(problem) => *problem,
        None => *own,
    }
}

fn is_with(entry: &MateEntry, rank: Rank, position: &Position) -> bool
    ensures { IsTrue result
        ↔ ((entry.now.at ≡ position.now) × (entry.now.rank.number ≡ rank.number)) }
{
    entry.at.is_same(position) && entry.rank.number == rank.number
}

// Whether an entry lists the position with this rank.
fn lists_with(entries: &[MateEntry], rank: Rank, position: &Position) -> bool
    ensures { IsTrue result ↔ IsListedWith entries.now rank.number position.now }
{
    for entry in entries {
        if is_with(entry, rank, position) {
            return true;
        }
    }
    false
}

// What speaks against a mate that is said to take so many moves, if anything does. The entries are
// checked in so many pieces.
fn mate_refusal<R: Threads + Sync>(
    rt: &R,
    alloc: Global,
    problem: &Problem,
    pieces: usize,
    rank: Rank,
    certificate: MateCertificate,
) -> Result<Option<BoundJudgement>, AllocError>
    ensures { IfOk result (SaysOfMate problem.now.position rank.number certificate) }
{
    let listed = lists_with(certificate.entries(), rank, &problem.position);
    match check_wide(rt, alloc, problem, &Certificate::Mate(certificate), pieces)? {
        Verdict::Refused { entry, why } => Ok(Some(BoundJudgement::MateRefused { entry, why })),
        Verdict::Accepted => {
            if listed {
                return Ok(None);
            }
            Ok(Some(BoundJudgement::Refused {
                entry: 0,
                why: BoundWhy::Rank,
            }))
        }
    }
}

// The reason that the checker of bounds names: a check, or the bound as a whole.
fn why_of(check: Option<Move>) -> BoundWhy
    ensures { result ≡ why_of check }
{
    match check {
        Some(check) => BoundWhy::Check(check),
        None => BoundWhy::Root,
    }
}

// What is found of a bound where all else is right.
fn bounded(
    alloc: Global,
    problem: &Problem,
    bound: &Bound,
    within: u32,
    accepted: BoundJudgement,
) -> Result<BoundJudgement, AllocError>
    ensures { IfOk result (TellsVerdict bound.now.entries problem.now.position within accepted) }
{
    match check_bound(alloc, problem, bound, within)? {
        BoundVerdict::Accepted => Ok(accepted),
        BoundVerdict::Refused { entry, check } => Ok(BoundJudgement::Refused {
            entry,
            why: why_of(check),
        }),
    }
}

// What is found of a bound alone, for a problem.
fn bound_judged(
    alloc: Global,
    problem: &Problem,
    limit: Rank,
    bound: &Bound,
) -> Result<BoundJudgement, AllocError>
    ensures { IfOk result (IsTrueOfBound problem.now.position limit.number bound.now) }
{
    // What a valid bound shows.
    valid_bound_is_accepted();
    if !bound.problem().position.is_same(&problem.position) {
        return Ok(BoundJudgement::Refused {
            entry: 0,
            why: BoundWhy::Root,
        });
    }
    let accepted = BoundJudgement::NoneWithin(limit.number);
    bounded(alloc, problem, bound, limit.number, accepted)
}

fn judgement_of<R: Threads + Sync>(
    rt: &R,
    alloc: Global,
    asked: &Option<Problem>,
    pieces: usize,
    text: ShortestText,
) -> Result<BoundJudgement, AllocError>
    ensures { (words : Option (List ℕ)) → IsProblemInWords words asked.now
        → IfOk result (IsJudgementOn words text) }
{
    // What a valid bound shows.
    valid_bound_is_accepted();
    match text {
        ShortestText::Found {
            rank,
            certificate,
            bound,
        } => {
            let problem = problem_for(asked, certificate.problem());
            if let Some(refused) = mate_refusal(rt, alloc, &problem, pieces, rank, certificate)? {
                return Ok(refused);
            }
            let accepted = BoundJudgement::Shortest(rank.number);
            bounded(alloc, &problem, &bound, rank.number - 1, accepted)
        }
        ShortestText::NoneWithin { limit, bound } => {
            let problem = problem_for(asked, bound.problem());
            bound_judged(alloc, &problem, limit, &bound)
        }
    }
}

// How many pieces the entries of a mate are checked in: as many as the words say, or else as many
// as there can be.
fn pieces(workers: Option<u32>) -> usize {
    match workers {
        Some(workers) => workers as usize,
        None => MOST_MEMBERS,
    }
}

/// What is answered to the bytes of a text about the shortest mate: the judgement on what it says,
/// for the problem that is asked about, or for its own; or its first fault. So many workers check
/// the mate.
pub(crate) fn answer<R: Threads + Sync>(
    rt: &R,
    alloc: Global,
    asked: &Option<Problem>,
    workers: Option<u32>,
    input: &[u8],
) -> Result<BoundJudgement, Unanswered<ShortestFault>>
    ensures { (text : Option (List ℕ)) (stops : Signals) → IsProblemInWords text asked.now
        → AreUnused stops → IsAnswer (bound_meaning text) stops input.now result }
{
    // No text has two first faults.
    shortest_laws();
    let text = match read_shortest(alloc, input) {
        Ok(text) => text,
        Err(ShortestEnd::Fault(fault)) => return Err(Unanswered::Text(fault)),
        Err(ShortestEnd::NoMemory) => return Err(Unanswered::NoMemory),
    };
    match judgement_of(rt, alloc, asked, pieces(workers), text) {
        Ok(judgement) => Ok(judgement),
        Err(_) => Err(Unanswered::NoMemory),
    }
}
