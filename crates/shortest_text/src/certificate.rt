// The certificate of a mate behind its front line.
ghost use Rattle.std.specs.Prelude.{◌≡◌, ◌↔◌, IsTrue, false};
ghost use Rattle.usi_text.specs.Lines.{nomate_text};
ghost use Rattle.cert_text.specs.Reading.{Lacks, IsFrontLine};
ghost use Rattle.cert_text.specs.declared.head.Claim.TheVariants.{Mate};
ghost use Rattle.shortest_text.specs.Reading.{IsOfOne};
ghost use Rattle.shortest_text.specs.Scan.{BeginsAsMate, IsMateOutcome};

use cert_text::{CertEnd, CertFault, Certificate, MateCertificate, behind, read_cert};
use std::alloc::Global;

fn is_nomate(line: &[u8]) -> bool
    ensures { IsTrue result ↔ (line.now ≡ nomate_text) }
{
    line == b"checkmate nomate".as_slice()
}

// Whether it begins as the front line of a mate, and isn't that of an escape.
fn begins_as_mate(front: &[u8]) -> bool
    ensures yes { IsTrue result → BeginsAsMate front.now }
    ensures no { result ≡ false → IsFrontLine Mate front.now → ⊥ }
{
    if behind(front, b"checkmate").is_none() {
        return false;
    }
    !is_nomate(front)
}

// Whether it begins as the text of a certificate of version 1.
fn is_of_one(text: &[u8]) -> bool
    ensures { IsTrue result ↔ IsOfOne text.now }
{
    behind(text, b"certificate 1 ").is_some()
}

// The mate's certificate, of version 1, whose text it is, where the front line before it is a
// mate's.
pub(crate) fn certificate_of(
    alloc: Global,
    front: &[u8],
    text: &[u8],
) -> Result<MateCertificate, CertEnd>
    requires { Lacks 10 front.now }
    ensures { IsMateOutcome front.now text.now result }
{
    if !begins_as_mate(front) {
        return Err(CertEnd::Fault(CertFault::BadHead));
    }
    if !is_of_one(text) {
        return Err(CertEnd::Fault(CertFault::BadHead));
    }
    let mut whole = Vec::new(alloc);
    whole.extend_from_slice(front)?;
    whole.push(b'\n')?;
    whole.extend_from_slice(text)?;
    match read_cert(alloc, &whole) {
        Ok(Certificate::Mate(mate)) => Ok(mate),
        Ok(Certificate::Escape(_)) => Err(CertEnd::Fault(CertFault::BadHead)),
        Err(end) => Err(end),
    }
}
