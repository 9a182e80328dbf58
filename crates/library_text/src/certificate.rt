// A certificate of a library.
ghost use Rattle.std.specs.Prelude.{◌↔◌, IsTrue};
ghost use Rattle.library_text.specs.Reading.{IsBare};
ghost use Rattle.library_text.specs.Scan.{IsBareOutcome};

use cert_text::{CertEnd, CertFault, Certificate, behind, read_cert};
use std::alloc::Global;

// Whether it begins as a certificate's first line does.
fn is_bare(text: &[u8]) -> bool
    ensures { IsTrue result ↔ IsBare text.now }
{
    behind(text, b"certificate ").is_some()
}

// The certificate whose text it is, before which no front line stands.
pub(crate) fn certificate_of(alloc: Global, text: &[u8]) -> Result<Certificate, CertEnd>
    ensures { IsBareOutcome text.now result }
{
    if !is_bare(text) {
        return Err(CertEnd::Fault(CertFault::BadHead));
    }
    read_cert(alloc, text)
}
