// The two rules of what is listed together: a leaf for each entry of a mate, and for each position
// of an escape.
ghost use Rattle.std.specs.Prelude.{◌≡◌, IfOk};
ghost use Rattle.notes.specs.Sets.{AreMates, AreEscapes, mate_leaves_of, escape_leaves_of};

use crate::note::HEIGHT_LIMIT;
use crate::set::Set;
use crate::{Note, Rule};
use board_core::Position;
use hand_dominance::Version;
use mate_facts::MateEntry;
use shogi_rules::Problem;
use std::alloc::{AllocError, Global};
use std::sync::Arc;

/// The leaves of a mate's entries for the problem's attacker, in their order: each says that an
/// entry's position is a mate within its rank, and is twice as high. Entries above rank 2,048 have
/// none, since no note is higher than 4,096. The leaves share the entries, which stay as long as
/// one of them does. Each entry is about a problem of the attacker, and borne out by all of them,
/// in this version. Errors: want of memory alone.
pub fn mate_leaves(
    alloc: Global,
    problem: &Problem,
    version: Version,
    entries: Vec<MateEntry>,
) -> Result<Vec<Note>, AllocError>
    requires { AreMates version problem.now.position.side entries.items }
    ensures { IfOk result (λ leaves. leaves.items
        ≡ mate_leaves_of version problem.now.position.side entries.items) }
{
    let attacker = problem.attacker();
    let set = Arc::new(alloc, Set::Mate(entries))?;
    let mut leaves = Vec::new(alloc);
    for entry in set.entries() {
        let rank = entry.rank.number;
        if rank <= HEIGHT_LIMIT / 2 {
            let rule = Rule::MateLeaf(version, rank);
            leaves.push(Note::leaf(alloc, rule, attacker, &entry.at, 2 * rank, version, &set)?)?;
        }
    }
    Ok(leaves)
}

/// The leaves of an escape's positions for the problem's attacker, in their order: each says that
/// the defender escapes from its position, and is of height 1. They share the positions, which stay
/// as long as one of them does. The positions are problems of the attacker, and closed in this
/// version. Errors: want of memory alone.
pub fn escape_leaves(
    alloc: Global,
    problem: &Problem,
    version: Version,
    positions: Vec<Position>,
) -> Result<Vec<Note>, AllocError>
    requires { AreEscapes version problem.now.position.side positions.items }
    ensures { IfOk result (λ leaves. leaves.items
        ≡ escape_leaves_of version problem.now.position.side positions.items) }
{
    let attacker = problem.attacker();
    let set = Arc::new(alloc, Set::Escape(positions))?;
    let mut leaves = Vec::new(alloc);
    for position in set.positions() {
        let rule = Rule::EscapeLeaf(version);
        leaves.push(Note::leaf(alloc, rule, attacker, position, 1, version, &set)?)?;
    }
    Ok(leaves)
}
