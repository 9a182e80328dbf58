// The reasons against one entry.
ghost use Rattle.std.specs.Prelude.{◌≡◌, ◌<◌, ◌↔◌, length, IsTrue, IfOk, IfSome};
ghost use Rattle.bit_boards.specs.declared.piece.Side.{Side};
ghost use Rattle.board_core.specs.Board.{Board};
ghost use Rattle.shogi_rules.specs.Rules.{IsQuiet};
ghost use Rattle.shogi_rules.specs.Tsume.{IsCheck};
ghost use Rattle.mate_def.specs.Mate.{HasEvasionTo};
ghost use Rattle.mate_facts.specs.Entries.{positions_of};
ghost use Rattle.hand_dominance.specs.declared.version.Version.{Version};
ghost use Rattle.hand_dominance.specs.BorneOut.{IsBorneOut, IsCovered, IsHeld};
ghost use Rattle.dominance_places.specs.Covering.{AreCoverPlacesOf, version_of};
ghost use Rattle.cert_check.specs.Reached.{IsFoundFor};
ghost use Rattle.cert_check.specs.Reasons.{MateReason, EscapeReason, IsFirstReason, IsEvasionJudged};

use crate::reached::covered_after;
use crate::verdict::Why;
use board_core::{Move, Position, key, order_laws};
use check_moves::checks_into;
use dominance_places::CoverPlaces;
use evasions::answers_into;
use hand_dominance::listing_laws;
use mate_facts::MateEntry;
use move_lists::Moves;
use shogi_rules::{Problem, apply, is_check, key_after};
use std::alloc::{AllocError, Global};

/// Lists that are filled again for each entry, and working room.
#[derive(Drop)]
pub(crate) struct Lists {
    checks: Moves,
    evasions: Moves,
    room: Vec<usize>,
}

impl Lists {
    /// Empty ones. Takes no memory.
    pub(crate) fn new(alloc: Global) -> Lists {
        Lists {
            checks: Moves::new(alloc),
            evasions: Moves::new(alloc),
            room: Vec::new(alloc),
        }
    }
}

// What speaks against an evasion from an entry of this rank, by the place of an entry that the
// position after it covers, found for this rank.
fn evasion_reason(
    entries: &[MateEntry],
    covered: Option<usize>,
    rank: u32,
    evasion: Move,
) -> Option<Why>
    requires { IfSome covered (λ place. place < length entries.now) }
    ensures { (version : Version) (attacker : Side) (position : Board)
        → IsFoundFor version entries.now attacker rank position covered
        → IsEvasionJudged version entries.now attacker rank position evasion result }
{
    match covered {
        None => Some(Why::EvasionOutside(evasion)),
        Some(place) => {
            if entries[place].rank.number < rank {
                None
            } else {
                Some(Why::RankNotLower(evasion))
            }
        }
    }
}

/// The first reason against an entry of a mate. The lists are filled again.
pub(crate) fn mate_reason(
    problem: &Problem,
    entries: &[MateEntry],
    places: &CoverPlaces,
    entry: &MateEntry,
    lists: &mut Lists,
) -> Result<Option<Why>, AllocError>
    requires quiet { IsQuiet entry.now.at }
    requires places { AreCoverPlacesOf places.now (positions_of entries.now) }
    ensures { IfOk result (λ reason. IsFirstReason
        (IsBorneOut (version_of places.now) entries.now problem.now.position.side entry.now)
        (MateReason (version_of places.now) entries.now problem.now.position.side entry.now)
        reason) }
{
    // In a list in the order of moves, what comes sooner stands sooner.
    order_laws();
    if !is_check(problem, &entry.at, entry.by) {
        return Ok(Some(Why::NotACheck(entry.by)));
    }
    let attacker = problem.attacker();
    let checked = apply(&entry.at, entry.by);
    let known = key(&checked);
    answers_into(problem, &checked, &mut lists.evasions)?;
    for evasion in lists.evasions.as_slice() {
        let (room, rank) = (&mut lists.room, entry.rank.number);
        let covered = covered_after(
            places, entries, attacker, rank, &checked, &known, *evasion, room,
        )?;
        if let Some(why) = evasion_reason(entries, covered, entry.rank.number, *evasion) {
            return Ok(Some(why));
        }
    }
    Ok(None)
}

// Whether an evasion to the check leads to a position that one of the positions covers: to one that
// is listed itself, which is found by its key and isn't made, or to another. The list of evasions
// is filled again.
fn has_evasion_back(
    problem: &Problem,
    positions: &[Position],
    places: &CoverPlaces,
    position: &Position,
    check: Move,
    evasions: &mut Moves,
    room: &mut Vec<usize>,
) -> Result<bool, AllocError>
    requires quiet { IsQuiet position.now }
    requires check { IsCheck problem.now.position.side position.now check }
    requires places { AreCoverPlacesOf places.now positions.now }
    ensures { IfOk result (λ found. IsTrue found
        ↔ HasEvasionTo problem.now.position.side
        (IsCovered (version_of places.now) positions.now problem.now.position.side)
        position.now check) }
{
    // What is listed covers itself.
    listing_laws();
    let attacker = problem.attacker();
    let checked = apply(position, check);
    let known = key(&checked);
    answers_into(problem, &checked, evasions)?;
    for evasion in evasions.as_slice() {
        if let Some(_) = places.find_key(&key_after(&checked, &known, *evasion)) {
            return Ok(true);
        }
    }
    for evasion in evasions.as_slice() {
        if places.is_covered(positions, attacker, &apply(&checked, *evasion), room)? {
            return Ok(true);
        }
    }
    Ok(false)
}

/// The first reason against an entry of an escape. The lists are filled again.
pub(crate) fn escape_reason(
    problem: &Problem,
    positions: &[Position],
    places: &CoverPlaces,
    position: &Position,
    lists: &mut Lists,
) -> Result<Option<Why>, AllocError>
    requires quiet { IsQuiet position.now }
    requires places { AreCoverPlacesOf places.now positions.now }
    ensures { IfOk result (λ reason. IsFirstReason
        (IsHeld (version_of places.now) positions.now problem.now.position.side position.now)
        (EscapeReason (version_of places.now) positions.now problem.now.position.side position.now)
        reason) }
{
    // In a list in the order of moves, what comes sooner stands sooner.
    order_laws();
    checks_into(problem, position, &mut lists.checks)?;
    for check in lists.checks.as_slice() {
        let (evasions, room) = (&mut lists.evasions, &mut lists.room);
        if !has_evasion_back(problem, positions, places, position, *check, evasions, room)? {
            return Ok(Some(Why::CheckUnanswered(*check)));
        }
    }
    Ok(None)
}
