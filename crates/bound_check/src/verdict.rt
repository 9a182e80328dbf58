// The verdict on a bound.
ghost use Rattle.std.specs.Prelude.{◌≡◌, ◌<◌, ◌↔◌, ℕ, List, IsTrue, IfOk, false};
ghost use Rattle.board_core.specs.Board.{Board};
ghost use Rattle.mate_def.specs.Mate.{RankAtMost};
ghost use Rattle.position_places.specs.Places.{ArePlacesOf};
ghost use Rattle.bound_text.specs.Bound.{bounded_in};
ghost use Rattle.bound_text.specs.declared.entry.BoundEntry.{BoundEntry};
ghost use Rattle.bound_check.specs.Valid.{IsListedFrom, IsValidBound, ShowsBound};
ghost use Rattle.bound_check.specs.Reasons.{IsRootMissing, IsVerdict};
ghost use Rattle.bound_check.specs.declared.verdict.BoundVerdict.{BoundVerdict};
ghost use Rattle.bound_check.specs.declared.verdict.BoundVerdict.TheVariants.{Accepted};

use crate::evading::{Lists, first_unkept, is_listed_from};
use board_core::{Move, Position};
use bound_text::{Bound, BoundEntry};
use cert_check::places_of;
use move_lists::Moves;
use position_places::Places;
use shogi_rules::Problem;
use std::alloc::{AllocError, Global};

/// What the checker says of a bound.
#[derive(Clone, Copy, PartialEq, Eq, Debug)]
pub enum BoundVerdict {
    /// The bound is valid for the problem and the number of moves.
    Accepted,
    /// It isn't.
    Refused {
        /// 0 where the number of moves is above 0 and the problem isn't listed with it or more;
        /// else the first entry with a check that lacks its evasion, counted from 1.
        entry: u64,
        /// The first such check of that entry's position, in the order of moves; none where `entry`
        /// is 0.
        check: Option<Move>,
    },
}

// Whether the number of moves is 0, or the position is listed with it or a greater one.
fn lists_root(entries: &[BoundEntry], places: &Places, within: u32, position: &Position) -> bool
    requires { ArePlacesOf places.now (bounded_in entries.now) }
    ensures yes { IsTrue result → 0 < within → IsListedFrom entries.now within position.now }
    ensures no { result ≡ false → IsRootMissing entries.now position.now within }
{
    if within == 0 {
        return true;
    }
    is_listed_from(entries, places, within, position)
}

fn verdict_on(
    alloc: Global,
    problem: &Problem,
    bound: &Bound,
    within: u32,
) -> Result<BoundVerdict, AllocError>
    ensures { IfOk result
        (λ verdict. IsVerdict bound.now.entries problem.now.position within verdict) }
{
    let entries = bound.entries();
    let places = places_of(alloc, bound)?;
    if !lists_root(entries, &places, within, &problem.position) {
        return Ok(BoundVerdict::Refused {
            entry: 0,
            check: None,
        });
    }
    let mut lists = Lists {
        checks: Moves::new(alloc),
        evasions: Moves::new(alloc),
    };
    for (place, entry) in entries.iter().enumerate() {
        if let Some(check) = first_unkept(problem, entries, &places, entry, &mut lists)? {
            return Ok(BoundVerdict::Refused {
                entry: place as u64 + 1,
                check: Some(check),
            });
        }
    }
    Ok(BoundVerdict::Accepted)
}

/// What a valid bound is worth, a law: every verdict on it is that it is accepted, and it shows
/// that the position is no mate within the number of moves, nor any listed position within its own.
/// Does nothing; whoever makes a bound calls it to know this.
pub fn valid_bound_is_accepted()
    ensures accepted { (entries : List BoundEntry) (p : Board) (within : ℕ) (verdict : BoundVerdict)
        → IsVerdict entries p within verdict → IsValidBound entries p within → verdict ≡ Accepted }
    ensures shows { (entries : List BoundEntry) (p : Board) (within : ℕ)
        → IsValidBound entries p within → ShowsBound entries p within }
{}

/// Whether the bound is valid for the problem and this number of moves; else the first reason
/// against it. Errors: want of memory alone.
///
/// What is accepted is so, whoever wrote the bound: the problem is no mate within so many of the
/// attacker's moves. Where the number is 0 that says nothing, and the entries are judged all the
/// same.
pub fn check_bound(
    alloc: Global,
    problem: &Problem,
    bound: &Bound,
    within: u32,
) -> Result<BoundVerdict, AllocError>
    // Accepted exactly where the bound is valid, refused exactly with the first reason against it.
    ensures verdict { IfOk result
        (λ verdict. IsVerdict bound.now.entries problem.now.position within verdict) }
    ensures accepted { IfOk result (λ verdict. (verdict ≡ Accepted)
        ↔ IsValidBound bound.now.entries problem.now.position within) }

    // Where it is accepted, the problem is no mate within that many of the attacker's moves.
    ensures no_mate { IfOk result (λ verdict. verdict ≡ Accepted
        → ¬ RankAtMost problem.now.position.side within problem.now.position) }
{
    verdict_on(alloc, problem, bound, within)
}
