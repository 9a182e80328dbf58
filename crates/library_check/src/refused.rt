// The first certificate of a library that isn't valid.
ghost use Rattle.std.specs.Prelude.{◌≡◌, ◌↔◌, Contains, None, IfOk, IfSome};
ghost use Rattle.cert_text.specs.declared.certificate.Certificate.{Certificate};
ghost use Rattle.cert_text.specs.Kinds.{problem_of};
ghost use Rattle.cert_check.specs.Valid.{Shows};
ghost use Rattle.library_check.specs.Judged.{IsJudged, IsFound};
ghost use Rattle.library_check.specs.Refused.{AreValid, IsFirstRefused};

use cert_check::{Verdict, Why, check, valid_is_accepted};
use cert_text::Certificate;
use std::alloc::{AllocError, Global};

/// Which certificate of a library is refused, and why.
#[derive(Clone, Copy, PartialEq, Eq, Debug)]
pub struct Refused {
    /// The certificate's number, counted from 1.
    pub number: u64,
    /// The first of its entries that something speaks against, counted from 1; 0 for
    /// [`Why::RootMissing`].
    pub entry: u64,
    /// The first reason against it: see [`Verdict`].
    pub why: Why,
}

// What is said against the certificate of this number for its own problem; none where it is valid.
fn judged(
    alloc: Global,
    number: u64,
    certificate: &Certificate,
) -> Result<Option<Refused>, AllocError>
    ensures { IfOk result (IsJudged number certificate.now) }
{
    match check(alloc, certificate.problem(), certificate)? {
        Verdict::Accepted => Ok(None),
        Verdict::Refused { entry, why } => Ok(Some(Refused { number, entry, why })),
    }
}

fn first_of(alloc: Global, certificates: &[Certificate]) -> Result<Option<Refused>, AllocError>
    ensures { IfOk result (IsFound certificates.now) }
{
    for (place, certificate) in certificates.iter().enumerate() {
        match judged(alloc, place as u64 + 1, certificate)? {
            None => {}
            Some(refused) => return Ok(Some(refused)),
        }
    }
    Ok(None)
}

/// Which of the certificates is the first that isn't valid for its own problem, and the first
/// reason against it; none where each is valid. Checks one after the other, up to the first that is
/// refused. Errors: want of memory alone.
///
/// What is accepted is so, whoever wrote the certificates: the problem of each mate is a mate, and
/// that of each escape is none.
pub fn first_refused(
    alloc: Global,
    certificates: &[Certificate],
) -> Result<Option<Refused>, AllocError>
    // None exactly where all are valid, else the first that isn't, with the first reason against
    // it.
    ensures valid { IfOk result (λ found. (found ≡ None) ↔ AreValid certificates.now) }
    ensures refused { IfOk result (λ found. IfSome found (IsFirstRefused certificates.now)) }

    // Where all are valid, each shows of its problem what it says.
    ensures shows { IfOk result (λ found. found ≡ None → (c : Certificate)
        → Contains certificates.now c → Shows c (problem_of c)) }
{
    // A valid certificate has no reason against it.
    valid_is_accepted();
    first_of(alloc, certificates)
}
