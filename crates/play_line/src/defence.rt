// The evasion that lasts longest.
ghost use Rattle.std.specs.Prelude.{◌≡◌, IfOk};
ghost use Rattle.board_core.specs.declared.moves.Move.{Move};
ghost use Rattle.shogi_rules.specs.Rules.{IsQuiet, after};
ghost use Rattle.shogi_rules.specs.Tsume.{IsEvasion};
ghost use Rattle.mate_facts.specs.Entries.{positions_of};
ghost use Rattle.hand_dominance.specs.BorneOut.{CoversListed};
ghost use Rattle.dominance_places.specs.Covering.{AreCoverPlacesOf, version_of};
ghost use Rattle.play_line.specs.Line.{IsDefence};
ghost use Rattle.play_line.specs.Lasting.{IsLonger};

use crate::finding::rank_after;
use board_core::{Move, Position, order_laws};
use cert_text::MateCertificate;
use dominance_places::CoverPlaces;
use evasions::answers;
use shogi_rules::Problem;
use std::alloc::{AllocError, Global};

// An evasion, and the rank of what it leads to.
#[derive(Clone, Copy)]
struct Lasting {
    by: Move,
    rank: u32,
}

// The one of the evasions so far that lasts longest, with one more that comes after them.
fn longer(longest: Option<Lasting>, next: Lasting) -> Lasting
    ensures { IsLonger longest next result }
{
    match longest {
        None => next,
        Some(first) => { if next.rank > first.rank { next } else { first } }
    }
}

/// What the defender plays at a position after a check, where each evasion leads to a position that
/// covers a listed one. `room` is working room.
pub(crate) fn defence(
    alloc: Global,
    problem: &Problem,
    certificate: &MateCertificate,
    places: &CoverPlaces,
    checked: &Position,
    room: &mut Vec<usize>,
) -> Result<Option<Move>, AllocError>
    requires version { version_of places.now ≡ certificate.now.version }
    requires places { AreCoverPlacesOf places.now (positions_of certificate.now.entries) }
    requires quiet { IsQuiet checked.now }
    requires covers { (evasion : Move) → IsEvasion problem.now.position.side checked.now evasion
        → CoversListed certificate.now.version certificate.now.entries problem.now.position.side
        (after checked.now evasion) }
    ensures { IfOk result
        (λ evasion. IsDefence certificate.now problem.now.position.side checked.now evasion) }
{
    // In a list in the order of moves, what comes sooner stands sooner.
    order_laws();
    let attacker = problem.attacker();
    let evasions = answers(alloc, problem, checked)?;
    let mut longest = None;
    for evasion in evasions.as_slice() {
        let rank = rank_after(certificate, places, attacker, checked, *evasion, room)?;
        longest = Some(longer(longest, Lasting { by: *evasion, rank }));
    }
    match longest {
        None => Ok(None),
        Some(longest) => Ok(Some(longest.by)),
    }
}
