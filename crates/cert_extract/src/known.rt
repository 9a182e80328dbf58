// From a valid certificate to notes of what it says.
ghost use Rattle.std.specs.Prelude.{◌≡◌, IfOk, Contains};
ghost use Rattle.board_core.specs.Board.{Board};
ghost use Rattle.board_core.specs.Kept.{IsKept};
ghost use Rattle.mate_facts.specs.declared.entry.MateEntry.{MateEntry};
ghost use Rattle.cert_text.specs.Kinds.{problem_of};
ghost use Rattle.cert_check.specs.Valid.{IsValid};
ghost use Rattle.cert_extract.specs.Known.{leaves_of};

use board_core::Position;
use cert_text::Certificate;
use mate_facts::MateEntry;
use notes::{Note, escape_leaves, mate_leaves};
use std::alloc::{AllocError, Global};

// The same entries; the position of each keeps what every position keeps.
fn copied_entries(alloc: Global, entries: &[MateEntry]) -> Result<Vec<MateEntry>, AllocError>
    ensures same { IfOk result (λ copy. copy.items ≡ entries.now) }
    ensures kept { IfOk result (λ copy. (entry : MateEntry) → Contains copy.items entry
        → IsKept entry.at) }
{
    let mut copy = Vec::new(alloc);
    for entry in entries {
        entry.at.laws();
        copy.push(*entry)?;
    }
    Ok(copy)
}

// The same positions, each of which keeps what every position keeps.
fn copied_positions(alloc: Global, positions: &[Position]) -> Result<Vec<Position>, AllocError>
    ensures same { IfOk result (λ copy. copy.items ≡ positions.now) }
    ensures kept { IfOk result (λ copy. (b : Board) → Contains copy.items b → IsKept b) }
{
    let mut copy = Vec::new(alloc);
    for position in positions {
        position.laws();
        copy.push(*position)?;
    }
    Ok(copy)
}

/// The leaves of what a valid certificate lists, for its problem's attacker: of a mate one for each
/// entry of rank 2,048 at most, of an escape one for each position, in their order. They share a
/// copy of the entries. The certificate is valid for its own problem. Errors: want of memory alone.
pub fn leaves(alloc: Global, certificate: &Certificate) -> Result<Vec<Note>, AllocError>
    requires { IsValid certificate.now (problem_of certificate.now) }
    ensures { IfOk result (λ notes. notes.items ≡ leaves_of certificate.now) }
{
    match certificate {
        Certificate::Mate(mate) => {
            mate.laws();
            let entries = copied_entries(alloc, mate.entries())?;
            mate_leaves(alloc, mate.problem(), mate.version(), entries)
        }
        Certificate::Escape(escape) => {
            escape.laws();
            let positions = copied_positions(alloc, escape.entries())?;
            escape_leaves(alloc, escape.problem(), escape.version(), positions)
        }
    }
}
