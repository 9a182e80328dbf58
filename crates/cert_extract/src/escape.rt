// The positions of an escape, from a note about the problem.
ghost use Rattle.std.specs.Prelude.{◌≡◌, ◌≤◌, [], IfOk, IfErr, Contains, length};
ghost use Rattle.board_core.specs.Board.{Board};
ghost use Rattle.notes.specs.Derivation.{tag_of};
ghost use Rattle.notes.specs.declared.rule.Conclusion.TheVariants.{Escape};
ghost use Rattle.cert_order.specs.Entries.{AreEscapeEntries};
ghost use Rattle.cert_extract.specs.Extracted.{IsEscapeFrom, IsEndFor};
ghost use Rattle.cert_extract.specs.Serving.{Serves};

use crate::ends::ExtractEnd;
use crate::leaf::list_set;
use crate::listing::list_position;
use crate::steps::push_next;
use board_core::Position;
use hand_dominance::Version;
use notes::{Note, Rule};
use position_places::Places;
use shogi_rules::Problem;
use std::alloc::Global;

/// The attacker's positions that a walk of the tree meets of a note that serves for the problem in
/// this version, those of carried notes left out, and all that stand with a leaf of it, each once,
/// in the order in which they are met; no more than so many.
pub(crate) fn positions(
    alloc: Global,
    problem: &Problem,
    version: Version,
    note: &Note,
    most: usize,
) -> Result<Vec<Position>, ExtractEnd>
    requires closed { tag_of note.now ≡ [] }
    requires serves { Serves version Escape problem.now.position.side problem.now.position note.now }
    ensures entries { IfOk result
        (λ positions. AreEscapeEntries version problem.now.position positions.items) }
    ensures from { IfOk result (λ positions. (b : Board) → Contains positions.items b
        → IsEscapeFrom note.now b) }
    ensures few { IfOk result (λ positions. length positions.items ≤ most) }
    ensures too_many { IfErr result (IsEndFor most problem.now.position note.now) }
{
    // The note is valid, and so is each note of its tree.
    note.laws();
    let mut places = Places::new(alloc);
    let mut positions = Vec::new(alloc);
    let mut pending = Vec::new(alloc);
    pending.push(note)?;
    while let Some(next) = pending.pop() {
        if list_position(&mut places, &mut positions, next.position(), most)? {
            if let Rule::EscapeLeaf(_) = next.rule() {
                list_set(&mut places, &mut positions, next.positions(), most)?;
            } else {
                push_next(&mut pending, next)?;
            }
        }
    }
    Ok(positions)
}
