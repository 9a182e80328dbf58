// The certificate whose text it is, by several threads.
ghost use Rattle.std.specs.Prelude.{IfOk};
ghost use Rattle.cert_text.specs.declared.certificate.Certificate.{Certificate};
ghost use Rattle.cert_text.specs.declared.fault.CertFault.{CertFault};
ghost use Rattle.cert_text.specs.Reading.{IsCertificateOutcome, IsReadable, IsTextOf, IsReadAs, HasFirstFault, IsFaultAs};
ghost use Rattle.cert_text.specs.Lines.{IsReadOf};

use crate::cutting::stretches_of;
use crate::join::joined;
use crate::stretches::Stretches;
use cert_text::{CertEnd, Certificate, Claim, Entry, OpenText, ReadLines, cert_laws, read_cert};
use shogi_rules::Problem;
use side_by_side::Team;
use std::alloc::{AllocError, Global};
use std::marker::PhantomData;
use std::thread::Threads;

// How many bytes a stretch has about at most: some hundreds of lines.
const MOST_BYTES: usize = 32_768;

// How many stretches there are for each piece, where the text is long enough.
const STRETCHES_A_PIECE: usize = 8;

// How many bytes a stretch has about: so few that no thread waits long for another.
fn stretch_size(count: usize, pieces: usize) -> usize {
    let stretches = pieces.max(1).saturating_mul(STRETCHES_A_PIECE);
    (count / stretches).min(MOST_BYTES)
}

// What is read of a text's lines, by stretches.
fn lines_over<'a, E: Entry + Send + Sync, R: Threads + Sync>(
    rt: &R,
    alloc: Global,
    text: &'a [u8],
    problem: &Problem,
    pieces: usize,
) -> Result<ReadLines<'a, E>, AllocError>
    ensures { IfOk result (λ lines. IsReadOf (E.form problem.now.position) lines text.now) }
{
    let texts = stretches_of(alloc, text, stretch_size(text.len(), pieces))?;
    let stretches = Stretches {
        texts: &texts,
        problem,
        of: PhantomData,
    };
    let parts = Team::new(rt, alloc, pieces)?.answers(rt, alloc, &stretches)?;
    joined(alloc, parts)
}

// The certificate whose text it is, by stretches.
fn certificate_over<R: Threads + Sync>(
    rt: &R,
    alloc: Global,
    bytes: &[u8],
    pieces: usize,
) -> Result<Certificate, CertEnd>
    ensures { IsCertificateOutcome bytes.now result }
{
    let text = match OpenText::open(alloc, bytes) {
        Ok(text) => text,
        Err(end) => return Err(end),
    };
    match text.title.claim {
        Claim::Mate => {
            let lines = lines_over(rt, alloc, text.rest, &text.problem, pieces)?;
            text.mate(lines)
        }
        Claim::Escape => {
            let lines = lines_over(rt, alloc, text.rest, &text.problem, pieces)?;
            text.escape(lines)
        }
    }
}

// The certificate whose text it is, by stretches where there are several pieces.
fn certificate_by<R: Threads + Sync>(
    rt: &R,
    alloc: Global,
    bytes: &[u8],
    pieces: usize,
) -> Result<Certificate, CertEnd>
    ensures { IsCertificateOutcome bytes.now result }
{
    if pieces <= 1 {
        return read_cert(alloc, bytes);
    }
    certificate_over(rt, alloc, bytes, pieces)
}

/// The certificate whose text it is, or else the text's first fault in reading order. That is the
/// outcome of [`read_cert`](cert_text::read_cert), for each number of pieces: with one it is
/// `read_cert` itself, and starts no thread; with more the lines are read side by side by a
/// [`Team`] of so many members, though of no more than there are processors (one where that isn't
/// known), and at most [`MOST_MEMBERS`](side_by_side::MOST_MEMBERS). A thread that has no lines to
/// read takes the next stretch, of about 32 KiB at most; no line is copied, and each entry is moved
/// once, into the certificate. A fault doesn't stop the others. Errors: those of `read_cert`.
pub fn read_wide<R: Threads + Sync>(
    rt: &R,
    alloc: Global,
    bytes: &[u8],
    pieces: usize,
) -> Result<Certificate, CertEnd>
    ensures exact { IsCertificateOutcome bytes.now result }
    // Each certificate that can be read is, from its text, unless memory is wanted: so it is
    // `read_cert`'s, whatever the number of pieces.
    ensures again { (c : Certificate) → IsReadable c → IsTextOf c bytes.now → IsReadAs c result }
    // No text has two first faults, or one and a certificate.
    ensures only { (fault : CertFault) → HasFirstFault bytes.now fault → IsFaultAs fault result }
{
    // No two certificates have one text, and no text has two first faults.
    cert_laws();
    certificate_by(rt, alloc, bytes, pieces)
}
