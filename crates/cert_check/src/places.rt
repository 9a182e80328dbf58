// Where the positions of a certificate stand.
ghost use Rattle.std.specs.Prelude.{◌≡◌, IfOk, map};
ghost use Rattle.cert_text.specs.Certificate.{IsListing};
ghost use Rattle.position_places.specs.Places.{ArePlacesOf};
ghost use Rattle.dominance_places.specs.Covering.{AreCoverPlacesOf, version_of};

use cert_text::{CertificateOf, Entry};
use dominance_places::CoverPlaces;
use position_places::Places;
use std::alloc::{AllocError, Global};

/// Where each position of a certificate stands, found by the position. Errors: want of memory
/// alone.
pub fn places_of<E: Entry>(
    alloc: Global,
    certificate: &CertificateOf<E>,
) -> Result<Places, AllocError>
    ensures places { IfOk result
        (λ places. ArePlacesOf places
        (map (E.form certificate.now.problem).at certificate.now.entries)) }
    ensures kept { IsListing (E.form certificate.now.problem) certificate.now }
{
    let mut places = Places::with_room(alloc, certificate.entries().len())?;
    for entry in certificate.entries() {
        places.add(entry.position())?;
    }
    Ok(places)
}

/// Where each position of a certificate stands, found as its version asks. Errors: want of memory
/// alone.
pub fn cover_places_of<E: Entry>(
    alloc: Global,
    certificate: &CertificateOf<E>,
) -> Result<CoverPlaces, AllocError>
    ensures version { IfOk result (λ places. version_of places ≡ certificate.now.version) }
    ensures places { IfOk result
        (λ places. AreCoverPlacesOf places
        (map (E.form certificate.now.problem).at certificate.now.entries)) }
    ensures kept { IsListing (E.form certificate.now.problem) certificate.now }
{
    let version = certificate.version();
    let mut places = CoverPlaces::with_room(alloc, version, certificate.entries().len())?;
    for entry in certificate.entries() {
        places.add(entry.position())?;
    }
    Ok(places)
}
