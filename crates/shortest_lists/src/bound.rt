// The bound that facts show.
ghost use Rattle.std.specs.Prelude.{◌≡◌, ◌<◌, ◌≤◌, ℕ, Some, IfOk, IfErr, OnOk, IsTrue, Contains, length, slice_get};
ghost use Rattle.bit_boards.specs.Kind.{other};
ghost use Rattle.shogi_rules.specs.Rules.{IsQuiet};
ghost use Rattle.shogi_rules.specs.Tsume.{IsCheck};
ghost use Rattle.mate_def.specs.Mate.{HasEvasionTo, CanEvadeTo};
ghost use Rattle.mate_facts.specs.declared.rank.TheConstants.{MOST_RANK};
ghost use Rattle.position_places.specs.Places.{ArePlacesOf};
ghost use Rattle.bound_text.specs.declared.entry.BoundEntry.{BoundEntry};
ghost use Rattle.bound_text.specs.Bound.{bounded_in};
ghost use Rattle.bound_text.specs.Reading.{IsReadable};
ghost use Rattle.bound_check.specs.Valid.{IsValidBound, IsListedFrom, IsHeld};
ghost use Rattle.cert_order.specs.Entries.{HaveSame};
ghost use Rattle.shortest_facts.specs.Facts.{AreBorneOut, HoldsOut};
ghost use Rattle.shortest_facts.specs.Keys.{known_of};
ghost use Rattle.shortest_lists.specs.Reached.{IsReached, IsBoundStep};
ghost use Rattle.shortest_lists.specs.Ends.{IsEndFor};
ghost use Rattle.shortest_lists.specs.Placing.{StandOn};
ghost use Rattle.shortest_lists.specs.BoundWalk.{IsBoundWalk, AreBoundEntries};

use crate::ListEnd;
use crate::placing::takes_place;
use board_core::{Move, Position};
use bound_text::{Bound, BoundEntry};
use cert_order::{items_at, text_order};
use check_moves::checks;
use evasions::answers;
use hand_dominance::Version;
use mate_facts::Rank;
use position_places::Places;
use shogi_rules::{Problem, apply};
use shortest_facts::Facts;
use std::alloc::{AllocError, Global};

// The entries that are listed, and where their positions stand.
#[derive(Drop)]
struct BoundWalk {
    entries: Vec<BoundEntry>,
    places: Places,
}

// Whether an evasion leads to a listed position.
fn leads_back(
    alloc: Global,
    problem: &Problem,
    walk: &BoundWalk,
    checked: &Position,
) -> Result<bool, AllocError>
    requires quiet { IsQuiet checked.now }
    requires placed { ArePlacesOf walk.now.places (bounded_in walk.now.entries.items) }
    ensures { IfOk result (λ leads. IsTrue leads → CanEvadeTo problem.now.position.side
        (Contains (bounded_in walk.now.entries.items)) checked.now) }
{
    let evasions = answers(alloc, problem, checked)?;
    for evasion in evasions.as_slice() {
        if walk.places.holds(&apply(checked, *evasion)) {
            return Ok(true);
        }
    }
    Ok(false)
}

// The evasion by which the facts say that the defender holds out.
fn holding_out(facts: &Facts, checked: &Position) -> Move
    requires borne_out { AreBorneOut (known_of facts.now) }
    requires turn { checked.now.side ≡ other (known_of facts.now).attacker }
    requires known { 1 < ((known_of facts.now).at checked.now).least }
    ensures by { ((known_of facts.now).at checked.now).by ≡ Some result }
    ensures holds_out { HoldsOut (known_of facts.now) checked.now result }
{
    checked.laws();
    match facts.fact(checked).by {
        Some(evasion) => evasion,
        None => unreachable!(),
    }
}

// Sees to it that an evasion to a check of a listed position leads to one, with a number one less
// at least.
fn answer(
    alloc: Global,
    problem: &Problem,
    facts: &Facts,
    walk: &mut BoundWalk,
    place: usize,
    check: Move,
    most: usize,
) -> Result<(), ListEnd>
    requires same { (known_of facts.now).attacker ≡ problem.now.position.side }
    requires borne_out { AreBorneOut (known_of facts.now) }
    requires walk { IsBoundWalk (known_of facts.now) problem.now.position most place walk.old }
    requires place { place < length walk.old.entries.items }
    requires above { (entry : BoundEntry) → slice_get walk.old.entries.items place ≡ Some entry
        → 1 < entry.bound.number }
    requires is_check { (entry : BoundEntry) → slice_get walk.old.entries.items place ≡ Some entry
        → IsCheck (known_of facts.now).attacker entry.at check }
    ensures walk { OnOk result
        (IsBoundWalk (known_of facts.now) problem.now.position most place walk.new) }
    ensures stand { OnOk result (StandOn walk.old.entries.items walk.new.entries.items) }
    ensures answered { OnOk result ((entry : BoundEntry)
        → slice_get walk.old.entries.items place ≡ Some entry
        → HasEvasionTo (known_of facts.now).attacker
        (Contains (bounded_in walk.new.entries.items)) entry.at check) }
    ensures too_many { IfErr result
        (IsEndFor (IsBoundStep (known_of facts.now)) problem.now.position most) }
{
    let entry = &walk.entries[place];
    let number = entry.bound.number;
    let checked = apply(&entry.at, check);
    if leads_back(alloc, problem, walk, &checked)? {
        return Ok(());
    }
    let next = apply(&checked, holding_out(facts, &checked));
    next.laws();
    if takes_place(&mut walk.places, walk.entries.len(), &next, most)? {
        walk.entries.push(BoundEntry {
            bound: Rank { number: number - 1 },
            at: next,
        })?;
    }
    Ok(())
}

// Sees to it that a listed entry is held.
fn hold(
    alloc: Global,
    problem: &Problem,
    facts: &Facts,
    walk: &mut BoundWalk,
    place: usize,
    most: usize,
) -> Result<(), ListEnd>
    requires same { (known_of facts.now).attacker ≡ problem.now.position.side }
    requires borne_out { AreBorneOut (known_of facts.now) }
    requires walk { IsBoundWalk (known_of facts.now) problem.now.position most place walk.old }
    requires place { place < length walk.old.entries.items }
    ensures walk { OnOk result
        (IsBoundWalk (known_of facts.now) problem.now.position most place walk.new) }
    ensures stand { OnOk result (StandOn walk.old.entries.items walk.new.entries.items) }
    ensures held { OnOk result ((entry : BoundEntry)
        → slice_get walk.old.entries.items place ≡ Some entry
        → IsHeld walk.new.entries.items (known_of facts.now).attacker entry) }
    ensures too_many { IfErr result
        (IsEndFor (IsBoundStep (known_of facts.now)) problem.now.position most) }
{
    let entry = &walk.entries[place];
    if entry.bound.number == 1 {
        return Ok(());
    }
    let checks = checks(alloc, problem, &entry.at)?;
    for check in checks.as_slice() {
        answer(alloc, problem, facts, walk, place, *check, most)?;
    }
    Ok(())
}

// The walk at its beginning: the problem is listed, where the number of moves is above 0.
fn begun(
    alloc: Global,
    problem: &Problem,
    facts: &Facts,
    within: u32,
    most: usize,
) -> Result<BoundWalk, ListEnd>
    requires known { within < ((known_of facts.now).at problem.now.position).least }
    requires small { within ≤ MOST_RANK }
    ensures walk { IfOk result
        (λ walk. IsBoundWalk (known_of facts.now) problem.now.position most 0 walk) }
    ensures root { IfOk result (λ walk. 0 < within
        → IsListedFrom walk.entries.items within problem.now.position) }
    ensures too_many { IfErr result
        (IsEndFor (IsBoundStep (known_of facts.now)) problem.now.position most) }
{
    let mut walk = BoundWalk {
        entries: Vec::new(alloc),
        places: Places::new(alloc),
    };
    if within == 0 {
        return Ok(walk);
    }
    problem.position.laws();
    if takes_place(&mut walk.places, 0, &problem.position, most)? {
        walk.entries.push(BoundEntry {
            bound: Rank { number: within },
            at: problem.position,
        })?;
    }
    Ok(walk)
}

// The entries of the bound that the facts show of the problem.
fn bound_entries(
    alloc: Global,
    problem: &Problem,
    facts: &Facts,
    within: u32,
    most: usize,
) -> Result<Vec<BoundEntry>, ListEnd>
    requires same { (known_of facts.now).attacker ≡ problem.now.position.side }
    requires borne_out { AreBorneOut (known_of facts.now) }
    requires known { within < ((known_of facts.now).at problem.now.position).least }
    requires small { within ≤ MOST_RANK }
    ensures entries { IfOk result (λ entries. AreBoundEntries problem.now.position entries.items) }
    ensures valid { IfOk result
        (λ entries. IsValidBound entries.items problem.now.position within) }
    ensures reached { IfOk result (λ entries. (entry : BoundEntry) → Contains entries.items entry
        → IsReached (IsBoundStep (known_of facts.now)) problem.now.position entry.at) }
    ensures few { IfOk result (λ entries. length entries.items ≤ most) }
    ensures too_many { IfErr result
        (IsEndFor (IsBoundStep (known_of facts.now)) problem.now.position most) }
{
    let mut walk = begun(alloc, problem, facts, within, most)?;
    let mut place = 0;
    while place < walk.entries.len() {
        hold(alloc, problem, facts, &mut walk, place, most)?;
        place += 1;
    }
    Ok(walk.entries)
}

// The bound of these entries, in the order of their texts.
fn bound_of_entries(
    alloc: Global,
    problem: &Problem,
    entries: &[BoundEntry],
) -> Result<Bound, AllocError>
    requires { AreBoundEntries problem.now.position entries.now }
    ensures valid { IfOk result (λ bound. (within : ℕ)
        → IsValidBound entries.now problem.now.position within
        → IsValidBound bound.entries problem.now.position within) }
    ensures same { IfOk result (λ bound. HaveSame bound.entries entries.now) }
    ensures readable { IfOk result (λ bound. IsReadable problem.now.position bound) }
    ensures count { IfOk result (λ bound. length bound.entries ≡ length entries.now) }
{
    let mut positions = Vec::new(alloc);
    for entry in entries {
        positions.push(entry.at)?;
    }
    let order = text_order(alloc, &positions)?;
    let sorted = items_at(alloc, entries, &order)?;
    Ok(Bound::new(Version::One, *problem, sorted))
}

/// The bound that the facts show of the problem: that there is no mate within so many moves. It
/// lists the problem with that number and, from each listed position with a number above 1 on, for
/// each check to which no evasion leads to a listed position, what the facts' evasion leads to,
/// with one less (no clause says that it lists no more). Where the number is 0, it lists nothing.
/// Errors: these positions are more than `most`; want of memory.
pub fn bound_of(
    alloc: Global,
    problem: &Problem,
    facts: &Facts,
    within: u32,
    most: usize,
) -> Result<Bound, ListEnd>
    requires same { (known_of facts.now).attacker ≡ problem.now.position.side }
    requires borne_out { AreBorneOut (known_of facts.now) }
    requires known { within < ((known_of facts.now).at problem.now.position).least }
    requires small { within ≤ MOST_RANK }

    // It is valid for the problem and the number of moves, and about the problem.
    ensures valid { IfOk result
        (λ bound. IsValidBound bound.entries problem.now.position within) }
    ensures about { IfOk result (λ bound. bound.problem ≡ problem.now.position) }

    // Whatever it lists is reached by checks and the facts' evasions.
    ensures reached { IfOk result (λ bound. (entry : BoundEntry) → Contains bound.entries entry
        → IsReached (IsBoundStep (known_of facts.now)) problem.now.position entry.at) }

    // It lists no more than asked for, and can be read once it is written.
    ensures count { IfOk result (λ bound. length bound.entries ≤ most) }
    ensures readable { IfOk result (λ bound. IsReadable problem.now.position bound) }

    // It is refused only where the facts lead to more positions than that.
    ensures too_many { IfErr result
        (IsEndFor (IsBoundStep (known_of facts.now)) problem.now.position most) }
{
    let entries = bound_entries(alloc, problem, facts, within, most)?;
    Ok(bound_of_entries(alloc, problem, &entries)?)
}
