// What is known from the certificate of a mate.
ghost use Rattle.std.specs.Prelude.{◌≡◌, ◌<◌, IfOk, IfSome, Contains, true};
ghost use Rattle.board_core.specs.declared.moves.Move.{Move};
ghost use Rattle.shogi_rules.specs.Rules.{IsQuiet, after};
ghost use Rattle.shogi_rules.specs.Tsume.{IsCheck, IsEvasion};
ghost use Rattle.mate_def.specs.Mate.{after_both};
ghost use Rattle.cert_check.specs.Valid.{ValidMate};
ghost use Rattle.shortest_facts.specs.Facts.{AreBorneOut};
ghost use Rattle.shortest_facts.specs.Keys.{known_of};

use board_core::{Move, Position};
use cert_text::MateCertificate;
use evasions::answers;
use mate_facts::MateEntry;
use shogi_rules::{Problem, apply};
use shortest_facts::Facts;
use std::alloc::{AllocError, Global};

// Whether each evasion to the check leads to a position that is known to be mate in fewer moves.
fn is_known_faster(
    alloc: Global,
    problem: &Problem,
    facts: &Facts,
    position: &Position,
    check: Move,
    most: u32,
) -> Result<bool, AllocError>
    requires same { (known_of facts.now).attacker ≡ problem.now.position.side }
    requires quiet { IsQuiet position.now }
    requires check { IsCheck problem.now.position.side position.now check }
    ensures { IfOk result (λ yes. yes ≡ true → (evasion : Move)
        → IsEvasion (known_of facts.now).attacker (after position.now check) evasion
        → ((known_of facts.now).at (after_both position.now check evasion)).most < most) }
{
    let checked = apply(position, check);
    let evasions = answers(alloc, problem, &checked)?;
    for evasion in evasions.as_slice() {
        if facts.fact(&apply(&checked, *evasion)).most >= most {
            return Ok(false);
        }
    }
    Ok(true)
}

// Makes a fact of an entry, where it is known what its evasions lead to.
fn learn_entry(
    alloc: Global,
    problem: &Problem,
    facts: &mut Facts,
    entry: &MateEntry,
) -> Result<(), AllocError>
    requires same { (known_of facts.old).attacker ≡ problem.now.position.side }
    requires borne_out { AreBorneOut (known_of facts.old) }
    requires quiet { IsQuiet entry.now.at }
    requires check { IsCheck problem.now.position.side entry.now.at entry.now.by }
    ensures borne_out { AreBorneOut (known_of facts.new) }
    ensures same { (known_of facts.new).attacker ≡ problem.now.position.side }
{
    let most = entry.rank.number;
    if is_known_faster(alloc, problem, facts, &entry.at, entry.by, most)? {
        facts.mates(&entry.at, entry.by, most)?;
    }
    Ok(())
}

// The entry at a place, if one stands there.
fn entry_at(entries: &[MateEntry], place: usize) -> Option<&MateEntry>
    ensures { IfSome result (λ entry. Contains entries.now entry.now) }
{
    if place < entries.len() {
        return Some(&entries[place]);
    }
    None
}

/// Makes facts of the entries of a mate, the lowest ranks first: each position is mate in at most
/// so many moves, by its check. Errors: want of memory alone.
pub(crate) fn learn(
    alloc: Global,
    problem: &Problem,
    facts: &mut Facts,
    mate: &MateCertificate,
) -> Result<(), AllocError>
    requires same { (known_of facts.old).attacker ≡ problem.now.position.side }
    requires borne_out { AreBorneOut (known_of facts.old) }
    requires valid { ValidMate mate.now problem.now.position }
    ensures borne_out { AreBorneOut (known_of facts.new) }
    ensures same { (known_of facts.new).attacker ≡ problem.now.position.side }
{
    let entries = mate.entries();
    let mut order = Vec::with_capacity(alloc, entries.len())?;
    for (place, entry) in entries.iter().enumerate() {
        order.push((entry.rank.number, place))?;
    }
    order.sort_unstable();
    for ranked in order.as_slice() {
        if let Some(entry) = entry_at(entries, ranked.1) {
            learn_entry(alloc, problem, facts, entry)?;
        }
    }
    Ok(())
}
