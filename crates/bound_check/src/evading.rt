// Whether the checks of an entry have the evasions that its number asks for.
ghost use Rattle.std.specs.Prelude.{◌↔◌, IsTrue, IfOk};
ghost use Rattle.shogi_rules.specs.Rules.{IsQuiet};
ghost use Rattle.shogi_rules.specs.Tsume.{IsCheck};
ghost use Rattle.mate_def.specs.Mate.{HasEvasionTo};
ghost use Rattle.position_places.specs.Places.{ArePlacesOf};
ghost use Rattle.bound_text.specs.Bound.{bounded_in};
ghost use Rattle.bound_check.specs.Valid.{IsListedFrom, Keeps};
ghost use Rattle.bound_check.specs.Reasons.{IsFirstUnkept};

use board_core::{Move, Position, order_laws};
use bound_text::BoundEntry;
use check_moves::checks_into;
use evasions::answers_into;
use move_lists::Moves;
use position_places::Places;
use shogi_rules::{Problem, apply};
use std::alloc::AllocError;

/// Whether the position is listed with this number or a greater one.
pub(crate) fn is_listed_from(
    entries: &[BoundEntry],
    places: &Places,
    least: u32,
    position: &Position,
) -> bool
    requires { ArePlacesOf places.now (bounded_in entries.now) }
    ensures { IsTrue result ↔ IsListedFrom entries.now least position.now }
{
    match places.find(position) {
        None => false,
        Some(place) => entries[place].bound.number >= least,
    }
}

// Whether an evasion that leads to the position keeps this number of moves.
fn keeps(entries: &[BoundEntry], places: &Places, number: u32, position: &Position) -> bool
    requires { ArePlacesOf places.now (bounded_in entries.now) }
    ensures { IsTrue result ↔ Keeps entries.now number position.now }
{
    if number <= 1 {
        return true;
    }
    is_listed_from(entries, places, number - 1, position)
}

// Whether an evasion to this check of the entry's position keeps its number. The list is filled
// again.
fn is_kept(
    problem: &Problem,
    entries: &[BoundEntry],
    places: &Places,
    entry: &BoundEntry,
    check: Move,
    evasions: &mut Moves,
) -> Result<bool, AllocError>
    requires places { ArePlacesOf places.now (bounded_in entries.now) }
    requires quiet { IsQuiet entry.now.at }
    requires check { IsCheck problem.now.position.side entry.now.at check }
    ensures { IfOk result (λ kept. IsTrue kept
        ↔ HasEvasionTo problem.now.position.side (Keeps entries.now entry.now.bound.number)
        entry.now.at check) }
{
    let checked = apply(&entry.at, check);
    answers_into(problem, &checked, evasions)?;
    for evasion in evasions.as_slice() {
        let next = apply(&checked, *evasion);
        if keeps(entries, places, entry.bound.number, &next) {
            return Ok(true);
        }
    }
    Ok(false)
}

// Lists that are filled again for each entry.
#[derive(Drop)]
pub(crate) struct Lists {
    pub(crate) checks: Moves,
    pub(crate) evasions: Moves,
}

/// The first check of the entry's position to which no evasion keeps its number. The lists are
/// filled again.
pub(crate) fn first_unkept(
    problem: &Problem,
    entries: &[BoundEntry],
    places: &Places,
    entry: &BoundEntry,
    lists: &mut Lists,
) -> Result<Option<Move>, AllocError>
    requires places { ArePlacesOf places.now (bounded_in entries.now) }
    requires quiet { IsQuiet entry.now.at }
    ensures { IfOk result
        (λ found. IsFirstUnkept entries.now problem.now.position.side entry.now found) }
{
    // In a list in the order of moves, what comes sooner stands sooner.
    order_laws();
    checks_into(problem, &entry.at, &mut lists.checks)?;
    for check in lists.checks.as_slice() {
        if !is_kept(problem, entries, places, entry, *check, &mut lists.evasions)? {
            return Ok(Some(*check));
        }
    }
    Ok(None)
}
