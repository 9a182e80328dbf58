// The hearing of a certificate: what is found among its entries, in one stretch or in several.
ghost use Rattle.std.specs.Prelude.{◌≡◌, ◌<◌, ◌≤◌, ◌↔◌, true, length, IfOk, IfSome, IfNone, IsTrue};
ghost use Rattle.board_core.specs.Kept.{IsKept};
ghost use Rattle.hand_dominance.specs.BorneOut.{AreKept};
ghost use Rattle.dominance_places.specs.Covering.{AreCoverPlacesOf};
ghost use Rattle.dominance_places.specs.Covering as covering;
ghost use Rattle.cert_text.specs.Kinds.{version_of, problem_of, positions_in, IsKeptBy};
ghost use Rattle.cert_check.specs.Valid.{Shows};
ghost use Rattle.cert_check.specs.Hearing.{IsFoundIn, IsRootTold};
ghost use Rattle.cert_check.specs.Reasons.{EntryReason, EntryHolds, IsFirstReason, IsVerdict, StandsFor};
ghost use Rattle.cert_check.specs.declared.verdict.Verdict.TheVariants.{Accepted, Refused};
ghost use Rattle.cert_check.specs.declared.verdict.Why.TheVariants.{RootMissing};

use crate::places::cover_places_of;
use crate::reasons::{Lists, escape_reason, mate_reason};
use crate::verdict::{Verdict, Why, valid_is_accepted};
use cert_text::Certificate;
use dominance_places::CoverPlaces;
use shogi_rules::Problem;
use std::alloc::{AllocError, Global};
use std::marker::Model;

/// What speaks against an entry.
#[derive(Clone, Copy, PartialEq, Eq, Debug)]
pub struct Objection {
    /// Where the entry stands, counted from 0.
    pub place: usize,
    /// The first reason against it.
    pub why: Why,
}

/// The hearing of a certificate for a problem: its entries may be heard in stretches, in any order,
/// also in several threads at once, and the verdict follows from the first objection. It borrows
/// both, and keeps where each position of the certificate stands. Contracts see the certificate and
/// the problem's position.
#[derive(Drop)]
pub struct Hearing<'c> {
    problem: &'c Problem,
    certificate: &'c Certificate,
    places: CoverPlaces,
    // Whether the certificate is about the problem, and a listed position stands for its.
    has_root: bool,
}

impl<'c> Model for Hearing<'c> {
    ghost use Rattle.cert_check.specs.Hearing.{Case, IsOpened};

    ghost Value = { Case };

    ghost view = { λ h. record { certificate = h.certificate.now; problem = h.problem.now.position } };

    ghost invariant = { λ h. IsOpened h.places h.has_root h.certificate.now h.problem.now.position };
}

// Where each position of the certificate stands.
fn places_in(alloc: Global, certificate: &Certificate) -> Result<CoverPlaces, AllocError>
    ensures version { IfOk result
        (λ places. covering.version_of places ≡ version_of certificate.now) }
    ensures places { IfOk result
        (λ places. AreCoverPlacesOf places (positions_in certificate.now)) }
{
    match certificate {
        Certificate::Mate(mate) => cover_places_of(alloc, mate),
        Certificate::Escape(escape) => cover_places_of(alloc, escape),
    }
}

fn is_about(certificate: &Certificate, problem: &Problem) -> bool
    ensures { IsTrue result ↔ (problem_of certificate.now ≡ problem.now.position) }
{
    certificate.problem().position.is_same(&problem.position)
}

// The first reason against the entry at a place, counted from 0.
fn reason_at(
    problem: &Problem,
    certificate: &Certificate,
    places: &CoverPlaces,
    place: usize,
    lists: &mut Lists,
) -> Result<Option<Why>, AllocError>
    requires place { place < length (positions_in certificate.now) }
    requires version { covering.version_of places.now ≡ version_of certificate.now }
    requires places { AreCoverPlacesOf places.now (positions_in certificate.now) }
    ensures { IfOk result (IsFirstReason
        (EntryHolds certificate.now problem.now.position.side place)
        (EntryReason certificate.now problem.now.position.side place)) }
{
    match certificate {
        Certificate::Mate(mate) => {
            let entries = mate.entries();
            mate_reason(problem, entries, places, &entries[place], lists)
        }
        Certificate::Escape(escape) => {
            let positions = escape.entries();
            escape_reason(problem, positions, places, &positions[place], lists)
        }
    }
}

// Whether a listed position of the certificate stands for the problem's.
fn stands_for(
    alloc: Global,
    certificate: &Certificate,
    problem: &Problem,
    places: &CoverPlaces,
) -> Result<bool, AllocError>
    requires version { covering.version_of places.now ≡ version_of certificate.now }
    requires places { AreCoverPlacesOf places.now (positions_in certificate.now) }
    ensures { IfOk result
        (λ found. IsTrue found ↔ StandsFor certificate.now problem.now.position) }
{
    let mut room = Vec::new(alloc);
    let (attacker, position) = (problem.attacker(), &problem.position);
    match certificate {
        Certificate::Mate(mate) => {
            let found = places.least_covered(mate.entries(), attacker, position, &mut room)?;
            Ok(found.is_some())
        }
        Certificate::Escape(escape) => {
            places.is_covered(escape.entries(), attacker, position, &mut room)
        }
    }
}

// Whether the certificate is about the problem, and a listed position stands for its.
fn has_root(
    alloc: Global,
    certificate: &Certificate,
    problem: &Problem,
    places: &CoverPlaces,
) -> Result<bool, AllocError>
    requires version { covering.version_of places.now ≡ version_of certificate.now }
    requires places { AreCoverPlacesOf places.now (positions_in certificate.now) }
    ensures { IfOk result (IsRootTold certificate.now problem.now.position) }
{
    if !is_about(certificate, problem) {
        return Ok(false);
    }
    stands_for(alloc, certificate, problem, places)
}

impl<'c> Hearing<'c> {
    /// Opens the hearing of a certificate for a problem: finds out where each of its positions
    /// stands. Errors: want of memory alone.
    pub fn open(
        alloc: Global,
        problem: &'c Problem,
        certificate: &'c Certificate,
    ) -> Result<Hearing<'c>, AllocError>
        ensures { IfOk result (λ hearing. hearing
            ≡ record { certificate = certificate.now; problem = problem.now.position }) }
    {
        let places = places_in(alloc, certificate)?;
        let has_root = has_root(alloc, certificate, problem, &places)?;
        Ok(Hearing {
            problem,
            certificate,
            places,
            has_root,
        })
    }

    /// How many entries the certificate has. Takes no memory.
    pub fn count(&self) -> usize
        ensures { result ≡ length (positions_in self.now.certificate) }
    {
        self.certificate.count()
    }

    // What is found of the certificate as a whole.
    fn root(&self) -> bool
        ensures { IsRootTold self.now.certificate self.now.problem result }
    {
        self.has_root
    }

    /// The verdict before any entry is heard, where there is one: the certificate is about another
    /// problem, or none of its positions stands for the problem's. Takes no memory.
    pub fn root_verdict(&self) -> Option<Verdict>
        ensures verdict { IfSome result (IsVerdict self.now.certificate self.now.problem) }
        ensures refused { IfSome result (λ verdict. verdict ≡ Refused 0 RootMissing) }
        // There is none exactly where nothing speaks against the certificate as a whole.
        ensures none { IfNone result (IsRootTold self.now.certificate self.now.problem true) }
    {
        if self.root() {
            return None;
        }
        Some(Verdict::ROOT_MISSING)
    }

    /// The first objection among the entries from one place on and before another, counted from 0.
    /// Errors: want of memory alone.
    pub fn objection_in(
        &self,
        alloc: Global,
        from: usize,
        to: usize,
    ) -> Result<Option<Objection>, AllocError>
        requires { to ≤ length (positions_in self.now.certificate) }
        ensures { IfOk result (IsFoundIn self.now.certificate self.now.problem.side from to) }
    {
        let mut lists = Lists::new(alloc);
        for place in from..to {
            if let Some(why) = reason_at(
                self.problem,
                self.certificate,
                &self.places,
                place,
                &mut lists,
            )? {
                return Ok(Some(Objection { place, why }));
            }
        }
        Ok(None)
    }

    // What the positions of the certificate and the problem's keep.
    fn laws(&self)
        ensures positions { AreKept (positions_in self.now.certificate) }
        ensures problem { IsKept self.now.problem }
        ensures kept { IsKeptBy self.now.certificate }
    {
        self.certificate.laws();
        self.problem.position.laws();
    }

    /// The verdict, from the first objection among all entries. Takes no memory.
    pub fn verdict(&self, first: Option<Objection>) -> Verdict
        requires { IsFoundIn self.now.certificate self.now.problem.side
            0 (length (positions_in self.now.certificate)) first }
        ensures verdict { IsVerdict self.now.certificate self.now.problem result }
        // What is accepted as a mate is one, and what is accepted as an escape is no mate.
        ensures shows { result ≡ Accepted → Shows self.now.certificate self.now.problem }
    {
        // What the certificate keeps, that its entries can be counted, and what validity is worth.
        self.laws();
        valid_is_accepted();
        let _count = self.count();
        if !self.root() {
            return Verdict::ROOT_MISSING;
        }
        match first {
            None => Verdict::Accepted,
            Some(objection) => Verdict::Refused {
                entry: objection.place as u64 + 1,
                why: objection.why,
            },
        }
    }
}
