// Finding the entries of a certificate for positions.
ghost use Rattle.std.specs.Prelude.{◌≡◌, IfOk};
ghost use Rattle.shogi_rules.specs.Rules.{IsLegal, IsQuiet, after};
ghost use Rattle.mate_facts.specs.Entries.{positions_of};
ghost use Rattle.hand_dominance.specs.BorneOut.{CoversListed};
ghost use Rattle.dominance_places.specs.Covering.{AreCoverPlacesOf, version_of};
ghost use Rattle.dominance_places.specs.Found.{IsLeastCovered};
ghost use Rattle.play_line.specs.Line.{IsRankAt};

use board_core::{Move, Position, Side};
use cert_text::MateCertificate;
use dominance_places::CoverPlaces;
use shogi_rules::apply;
use std::alloc::AllocError;

/// The place of the entry of a position that covers a listed one. `room` is working room.
pub(crate) fn place_of(
    certificate: &MateCertificate,
    places: &CoverPlaces,
    attacker: Side,
    position: &Position,
    room: &mut Vec<usize>,
) -> Result<usize, AllocError>
    requires version { version_of places.now ≡ certificate.now.version }
    requires places { AreCoverPlacesOf places.now (positions_of certificate.now.entries) }
    requires covers { CoversListed certificate.now.version certificate.now.entries attacker
        position.now }
    ensures { IfOk result (IsLeastCovered certificate.now.version certificate.now.entries attacker
        position.now) }
{
    match places.least_covered(certificate.entries(), attacker, position, room)? {
        Some(place) => Ok(place),
        None => unreachable!(),
    }
}

/// The rank at the position after a legal move, which covers a listed one. `room` is working room.
pub(crate) fn rank_after(
    certificate: &MateCertificate,
    places: &CoverPlaces,
    attacker: Side,
    position: &Position,
    by: Move,
    room: &mut Vec<usize>,
) -> Result<u32, AllocError>
    requires version { version_of places.now ≡ certificate.now.version }
    requires places { AreCoverPlacesOf places.now (positions_of certificate.now.entries) }
    requires quiet { IsQuiet position.now }
    requires legal { IsLegal position.now by }
    requires covers { CoversListed certificate.now.version certificate.now.entries attacker
        (after position.now by) }
    ensures { IfOk result (IsRankAt certificate.now attacker (after position.now by)) }
{
    let place = place_of(certificate, places, attacker, &apply(position, by), room)?;
    Ok(certificate.entries()[place].rank.number)
}
