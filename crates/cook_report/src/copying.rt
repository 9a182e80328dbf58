// Copies of certificates, for a checker that takes one of either kind.
ghost use Rattle.std.specs.Prelude.{◌≡◌, IfOk};

use cert_text::{CertificateOf, Entry};
use std::alloc::{AllocError, Global};

/// A copy of a certificate. Errors: want of memory alone.
pub(crate) fn copy_of<E: Entry + Copy>(
    alloc: Global,
    certificate: &CertificateOf<E>,
) -> Result<CertificateOf<E>, AllocError>
    ensures { IfOk result (λ copy. copy ≡ certificate.now) }
{
    let problem = *certificate.problem();
    let entries = Vec::from_slice(alloc, certificate.entries())?;
    Ok(CertificateOf::new(certificate.version(), problem, entries))
}
