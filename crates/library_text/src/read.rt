// Texts as libraries.
ghost use Rattle.std.specs.Prelude.{◌≡◌, ◌↔◌, List, IsTrue, IfOk, IfErr};
ghost use Rattle.cert_text.specs.declared.certificate.Certificate.{Certificate};
ghost use Rattle.library_text.specs.declared.fault.LibraryFault.{LibraryFault};
ghost use Rattle.library_text.specs.Ends.{end_of_certificate};
ghost use Rattle.library_text.specs.Text.{last_line};
ghost use Rattle.library_text.specs.Reading.{IsReadable, IsTextOf, IsEndOf, IsFaultAs, IsWantOfMemory, HasFirstFault};

use crate::certificate::certificate_of;
use crate::first_line::begun;
use crate::laws::library_laws;
use crate::{LibraryEnd, LibraryFault};
use cert_text::{CertEnd, CertFault, Certificate, up_to_end};
use std::alloc::Global;

// How the reading ends, where that of the certificate of this number does.
fn end_at(number: u64, end: CertEnd) -> LibraryEnd
    ensures { result ≡ end_of_certificate number end }
{
    match end {
        CertEnd::Fault(fault) => LibraryEnd::Fault(LibraryFault { number, fault }),
        CertEnd::NoMemory => LibraryEnd::NoMemory,
    }
}

fn is_last_line(text: &[u8]) -> bool
    ensures { IsTrue result ↔ (text.now ≡ last_line) }
{
    text == b"end library\n".as_slice()
}

fn library_of(alloc: Global, bytes: &[u8]) -> Result<Vec<Certificate>, LibraryEnd>
    ensures readable { IfOk result (λ certificates. IsReadable certificates.items) }
    ensures text { IfOk result (λ certificates. IsTextOf certificates.items bytes.now) }
    ensures end { IfErr result (IsEndOf bytes.now) }
{
    let Some((count, text)) = begun(bytes) else {
        return Err(LibraryEnd::Fault(LibraryFault {
            number: 0,
            fault: CertFault::BadHead,
        }));
    };
    let mut certificates = Vec::new(alloc);
    let mut rest = text;
    while certificates.len() < count as usize {
        let number = certificates.len() as u64 + 1;
        let (own, more) = up_to_end(rest);
        let certificate = match certificate_of(alloc, own) {
            Ok(certificate) => certificate,
            Err(end) => return Err(end_at(number, end)),
        };
        certificates.push(certificate)?;
        rest = more;
    }
    if !is_last_line(rest) {
        return Err(LibraryEnd::Fault(LibraryFault {
            number: u64::from(count) + 1,
            fault: CertFault::NoEnd,
        }));
    }
    Ok(certificates)
}

/// The certificates of the library whose text it is: the line `library 1 K`, where K is their
/// number, from 0 to [`MOST_CERTIFICATES`](crate::MOST_CERTIFICATES), without a leading zero; the
/// texts of so many certificates, of either kind and version ([`cert_text::write_cert`]), without
/// front lines; and the line `end library`, with nothing behind it.
///
/// For any other text its first fault ([`LibraryFault`]). Errors: want of memory alone. Reads one
/// certificate after the other, and keeps them in a vector that doubles.
pub fn read_library(alloc: Global, bytes: &[u8]) -> Result<Vec<Certificate>, LibraryEnd>
    // Read exactly with a library's text, as its certificates; else the first fault is told.
    ensures readable { IfOk result (λ certificates. IsReadable certificates.items) }
    ensures text { IfOk result (λ certificates. IsTextOf certificates.items bytes.now) }
    ensures end { IfErr result (IsEndOf bytes.now) }
    // Whatever can be read is, from its text, unless memory is wanted.
    ensures again { IfOk result (λ found. (certificates : List Certificate)
        → IsReadable certificates → IsTextOf certificates bytes.now → found.items
        ≡ certificates) }
    ensures no_fault { IfErr result (λ end. (certificates : List Certificate)
        → IsReadable certificates → IsTextOf certificates bytes.now → IsWantOfMemory end) }
    // No text has two first faults, or one and certificates.
    ensures only { IfErr result (λ end. (fault : LibraryFault) → HasFirstFault bytes.now fault
        → IsFaultAs fault end) }
    ensures faultless { IfOk result (λ _. (fault : LibraryFault)
        → HasFirstFault bytes.now fault → ⊥) }
{
    // No text is two libraries', or has two first faults.
    library_laws();
    library_of(alloc, bytes)
}
