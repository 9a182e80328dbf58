// The certificate of the mate that facts show.
ghost use Rattle.std.specs.Prelude.{◌≡◌, ◌<◌, ◌≤◌, ◌↔◌, Some, IfOk, IfErr, OnOk, Contains, length, slice_get};
ghost use Rattle.board_core.specs.Board.{Board};
ghost use Rattle.board_core.specs.Kept.{IsKept};
ghost use Rattle.mate_facts.specs.declared.entry.MateEntry.{MateEntry};
ghost use Rattle.mate_facts.specs.Entries.{IsListedWith, positions_of};
ghost use Rattle.cert_text.specs.declared.limits.TheConstants.{MOST_ENTRIES};
ghost use Rattle.cert_text.specs.Certificate.{mate_form};
ghost use Rattle.cert_text.specs.Reading.{IsReadableOf};
ghost use Rattle.cert_check.specs.Valid.{ValidMate};
ghost use Rattle.cert_order.specs.Entries.{AreMateEntries};
ghost use Rattle.hand_dominance.specs.declared.version.Version.TheVariants.{One};
ghost use Rattle.shortest_facts.specs.declared.fact.TheConstants.{NEVER};
ghost use Rattle.shortest_facts.specs.Facts.{AreBorneOut, Mates};
ghost use Rattle.shortest_facts.specs.Keys.{known_of};
ghost use Rattle.shortest_lists.specs.Reached.{IsReached, IsMateStep, IsOfFact};
ghost use Rattle.shortest_lists.specs.Ends.{IsEndFor};
ghost use Rattle.shortest_lists.specs.Placing.{StandOn};
ghost use Rattle.shortest_lists.specs.MateWalk.{IsMateWalk, IsMateListed, IsFollowed, HasRankIn};

use crate::ListEnd;
use crate::placing::takes_place;
use board_core::Position;
use cert_order::mate_certificate;
use cert_text::MateCertificate;
use evasions::answers;
use hand_dominance::Version;
use mate_facts::{MateEntry, Rank};
use position_places::Places;
use shogi_rules::{Problem, apply};
use shortest_facts::Facts;
use std::alloc::Global;

// The entries that are listed, and where their positions stand.
#[derive(Drop)]
struct MateWalk {
    entries: Vec<MateEntry>,
    places: Places,
}

// What the facts say of a position from which a mate is known.
fn entry_of(facts: &Facts, position: &Position) -> MateEntry
    requires borne_out { AreBorneOut (known_of facts.now) }
    requires turn { position.now.side ≡ (known_of facts.now).attacker }
    requires known { ((known_of facts.now).at position.now).most < NEVER }
    ensures at { result.at ≡ position.now }
    ensures kept { IsKept position.now }
    ensures rank { result.rank.number ≡ ((known_of facts.now).at position.now).most }
    ensures by { ((known_of facts.now).at position.now).by ≡ Some result.by }
    ensures mates { Mates (known_of facts.now) position.now result.by }
{
    position.laws();
    let fact = facts.fact(position);
    match fact.by {
        Some(by) => MateEntry {
            rank: Rank { number: fact.most },
            by,
            at: *position,
        },
        None => unreachable!(),
    }
}

// Lists what the evasions to the check of a listed entry lead to.
fn follow(
    alloc: Global,
    problem: &Problem,
    facts: &Facts,
    walk: &mut MateWalk,
    place: usize,
    most: usize,
) -> Result<(), ListEnd>
    requires same { (known_of facts.now).attacker ≡ problem.now.position.side }
    requires borne_out { AreBorneOut (known_of facts.now) }
    requires walk { IsMateWalk (known_of facts.now) problem.now.position most walk.old }
    requires place { place < length walk.old.entries.items }
    ensures walk { OnOk result
        (IsMateWalk (known_of facts.now) problem.now.position most walk.new) }
    ensures stand { OnOk result (StandOn walk.old.entries.items walk.new.entries.items) }
    ensures followed { OnOk result ((entry : MateEntry)
        → slice_get walk.old.entries.items place ≡ Some entry
        → IsFollowed (known_of facts.now) walk.new.entries.items entry) }
    ensures too_many { IfErr result
        (IsEndFor (IsMateStep (known_of facts.now)) problem.now.position most) }
{
    let entry = &walk.entries[place];
    let checked = apply(&entry.at, entry.by);
    let evasions = answers(alloc, problem, &checked)?;
    for evasion in evasions.as_slice() {
        let next = apply(&checked, *evasion);
        if takes_place(&mut walk.places, walk.entries.len(), &next, most)? {
            walk.entries.push(entry_of(facts, &next))?;
        }
    }
    Ok(())
}

// The walk at its beginning: the problem is listed.
fn begun(alloc: Global, problem: &Problem, facts: &Facts, most: usize) -> Result<MateWalk, ListEnd>
    requires same { (known_of facts.now).attacker ≡ problem.now.position.side }
    requires borne_out { AreBorneOut (known_of facts.now) }
    requires known { ((known_of facts.now).at problem.now.position).most < NEVER }
    ensures walk { IfOk result
        (λ walk. IsMateWalk (known_of facts.now) problem.now.position most walk) }
    ensures root { IfOk result
        (λ walk. HasRankIn (known_of facts.now) walk.entries.items problem.now.position) }
    ensures too_many { IfErr result
        (IsEndFor (IsMateStep (known_of facts.now)) problem.now.position most) }
{
    let mut walk = MateWalk {
        entries: Vec::new(alloc),
        places: Places::new(alloc),
    };
    if takes_place(&mut walk.places, 0, &problem.position, most)? {
        walk.entries.push(entry_of(facts, &problem.position))?;
    }
    Ok(walk)
}

// The entries of the mate that the facts show of the problem.
fn mate_entries(
    alloc: Global,
    problem: &Problem,
    facts: &Facts,
    most: usize,
) -> Result<Vec<MateEntry>, ListEnd>
    requires same { (known_of facts.now).attacker ≡ problem.now.position.side }
    requires borne_out { AreBorneOut (known_of facts.now) }
    requires known { ((known_of facts.now).at problem.now.position).most < NEVER }
    ensures entries { IfOk result
        (λ entries. AreMateEntries One problem.now.position entries.items) }
    ensures root { IfOk result
        (λ entries. HasRankIn (known_of facts.now) entries.items problem.now.position) }
    ensures listed { IfOk result (λ entries. (entry : MateEntry) → Contains entries.items entry
        → IsMateListed (known_of facts.now) problem.now.position entry) }
    ensures all { IfOk result (λ entries. (position : Board)
        → IsReached (IsMateStep (known_of facts.now)) problem.now.position position
        → Contains (positions_of entries.items) position) }
    ensures few { IfOk result (λ entries. length entries.items ≤ most) }
    ensures too_many { IfErr result
        (IsEndFor (IsMateStep (known_of facts.now)) problem.now.position most) }
{
    let mut walk = begun(alloc, problem, facts, most)?;
    let mut place = 0;
    while place < walk.entries.len() {
        follow(alloc, problem, facts, &mut walk, place, most)?;
        place += 1;
    }
    Ok(walk.entries)
}

/// The certificate of the mate that the facts show of the problem: it lists the problem, and what
/// is reached from there by the facts' checks and all evasions, each position with its check and,
/// as its rank, the number of moves in which the facts show a mate at most. Errors: these positions
/// are more than `most`; want of memory.
pub fn mate_of(
    alloc: Global,
    problem: &Problem,
    facts: &Facts,
    most: usize,
) -> Result<MateCertificate, ListEnd>
    requires same { (known_of facts.now).attacker ≡ problem.now.position.side }
    requires borne_out { AreBorneOut (known_of facts.now) }
    requires known { ((known_of facts.now).at problem.now.position).most < NEVER }

    // It is valid for the problem, of which it has the rank that the facts show.
    ensures valid { IfOk result (λ certificate. ValidMate certificate problem.now.position) }
    ensures version { IfOk result (λ certificate. certificate.version ≡ One) }
    ensures rank { IfOk result (λ certificate. IsListedWith certificate.entries
        ((known_of facts.now).at problem.now.position).most problem.now.position) }

    // It lists exactly what is reached, each position as the facts say.
    ensures positions { IfOk result (λ certificate. (position : Board)
        → Contains (positions_of certificate.entries) position
        ↔ IsReached (IsMateStep (known_of facts.now)) problem.now.position position) }
    ensures entries { IfOk result (λ certificate. (entry : MateEntry)
        → Contains certificate.entries entry → IsOfFact (known_of facts.now) entry) }

    // It lists no more than asked for; so it can be read once it is written, where no more is asked
    // for than is read.
    ensures count { IfOk result (λ certificate. length certificate.entries ≤ most) }
    ensures readable { most ≤ MOST_ENTRIES → IfOk result
        (λ certificate. IsReadableOf (mate_form certificate.problem) certificate) }

    // It is refused only where the facts lead to more positions than that.
    ensures too_many { IfErr result
        (IsEndFor (IsMateStep (known_of facts.now)) problem.now.position most) }
{
    let entries = mate_entries(alloc, problem, facts, most)?;
    Ok(mate_certificate(alloc, problem, Version::One, &entries)?)
}
