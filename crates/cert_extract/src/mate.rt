// The entries of a mate, from a note about the problem.
ghost use Rattle.std.specs.Prelude.{◌≡◌, ◌≤◌, ◌*◌, [], IfOk, IfErr, Contains, length};
ghost use Rattle.mate_facts.specs.declared.entry.MateEntry.{MateEntry};
ghost use Rattle.notes.specs.Derivation.{position_of, attacker_of, rule_of, height_of, conclusion_of, IsNoLeaf, IsOwn};
ghost use Rattle.notes.specs.declared.rule.Rule.TheVariants.{MateBy};
ghost use Rattle.notes.specs.declared.rule.Conclusion.TheVariants.{Mate};
ghost use Rattle.notes.specs.Truth.{IsToMove};
ghost use Rattle.cert_order.specs.Entries.{AreMateEntries};
ghost use Rattle.cert_extract.specs.Extracted.{IsMateFrom, IsEndFor};
ghost use Rattle.cert_extract.specs.Serving.{Serves};

use crate::ends::ExtractEnd;
use crate::leaf::list_leaf;
use crate::listing::list_entry;
use crate::steps::push_next;
use hand_dominance::Version;
use mate_facts::{MateEntry, Rank};
use notes::{Note, Rule};
use position_places::Places;
use shogi_rules::{Problem, legal_laws};
use std::alloc::Global;

// What a note of a mate that carries none, and is no leaf, says of its position, the attacker's to
// move.
fn entry_of(note: &Note) -> MateEntry
    requires own { IsOwn note.now }
    requires no_leaf { IsNoLeaf (rule_of note.now) }
    requires mate { conclusion_of note.now ≡ Mate }
    requires turn { IsToMove (attacker_of note.now) note.now }
    ensures about { result.at ≡ position_of note.now }
    ensures by { rule_of note.now ≡ MateBy result.by }
    ensures high { height_of note.now ≡ 2 * result.rank.number }
{
    note.laws();
    match note.rule() {
        Rule::MateBy(check) => MateEntry {
            rank: Rank {
                number: note.height() / 2,
            },
            by: check,
            at: *note.position(),
        },
        _ => unreachable!(),
    }
}

/// The attacker's positions that a walk of the tree meets of a note that serves for the problem in
/// this version, those of carried notes left out, each once, with the check and half the height of
/// the lowest note that was walked there, and for a leaf its own entry and those of lower rank that
/// stand with it; no more than so many.
pub(crate) fn entries(
    alloc: Global,
    problem: &Problem,
    version: Version,
    note: &Note,
    most: usize,
) -> Result<Vec<MateEntry>, ExtractEnd>
    requires { Serves version Mate problem.now.position.side problem.now.position note.now }
    ensures entries { IfOk result
        (λ entries. AreMateEntries version problem.now.position entries.items) }
    ensures from { IfOk result (λ entries. (entry : MateEntry) → Contains entries.items entry
        → IsMateFrom note.now entry) }
    ensures few { IfOk result (λ entries. length entries.items ≤ most) }
    ensures too_many { IfErr result (IsEndFor most problem.now.position note.now) }
{
    // The note is valid, and so is each note of its tree; and checks have a text.
    note.laws();
    legal_laws();
    let mut places = Places::new(alloc);
    let mut entries: Vec<MateEntry> = Vec::new(alloc);
    let mut pending = Vec::new(alloc);
    pending.push(note)?;
    while let Some(next) = pending.pop() {
        if let Rule::MateLeaf(_, rank) = next.rule() {
            let set = next.entries();
            list_leaf(&mut places, &mut entries, set, next.position(), rank, most)?;
        } else if list_entry(&mut places, &mut entries, &entry_of(next), most)? {
            push_next(&mut pending, next)?;
        }
    }
    Ok(entries)
}
