// Texts as certificates.
ghost use Rattle.std.specs.Prelude.{◌≡◌, ◌+◌, ℕ, List, Err, IfOk, IfErr, length};
ghost use Rattle.cert_text.specs.declared.fault.CertFault.{CertFault};
ghost use Rattle.cert_text.specs.declared.certificate.Certificate.{Certificate};
ghost use Rattle.cert_text.specs.Reading.{BeginsWith, IsCertificateOutcome, IsReadable, IsTextOf, IsReadAs, HasFirstFault, IsFaultAs};
ghost use Rattle.cert_text.specs.Certificate.{mate_form, escape_form};
ghost use Rattle.cert_text.specs.Lines.{IsReadOf, AreAll, fault_of};
ghost use Rattle.cert_text.specs.declared.head.Claim.TheVariants.{Mate, Escape};

use crate::head::{Claim, Title, head_of};
use crate::lines::{LinesStop, ReadLines, read_lines};
use crate::parts::problem_of_text;
use crate::{CertEnd, CertFault, Certificate, Entry, EscapeCertificate, MateCertificate};
use board_core::Position;
use mate_facts::MateEntry;
use sfen_text::sfen_laws;
use shogi_rules::Problem;
use std::alloc::Global;
use usi_text::move_laws;

/// A certificate's text, of which the head and the problem are read, and the lines behind them
/// aren't.
#[derive(Drop)]
pub struct OpenText<'a> {
    /// What the first line says: the version, and what the certificate claims of its problem.
    pub title: Title,
    /// How many entries the head names.
    pub count: u32,
    /// The problem that the certificate is about.
    pub problem: Problem,
    /// The lines behind the problem's line, and what may stand behind them.
    pub rest: &'a [u8],
}

// The entries of all lines behind a head that names so many, where they end as they have to.
fn listed<E: Entry>(lines: ReadLines<'_, E>, count: u32) -> Result<Vec<E>, CertFault>
    ensures all { IfOk result (λ found. AreAll found.items lines.entry.stop count) }
    ensures same { IfOk result (λ found. found.items ≡ lines.entry.entries.items) }
    ensures fault { IfErr result (λ fault. fault
        ≡ fault_of lines.entry.stop (length lines.entry.entries.items + 1)) }
    ensures not_all { IfErr result (λ _.
        ¬ AreAll lines.entry.entries.items lines.entry.stop count) }
{
    let number = lines.entries.len() as u64 + 1;
    match lines.stop {
        LinesStop::NoLine | LinesStop::Behind => Err(CertFault::NoEnd),
        LinesStop::BadLine => Err(CertFault::BadLine(number)),
        LinesStop::NotRising => Err(CertFault::NotRising(number)),
        LinesStop::End => {
            if lines.entries.len() != count as usize {
                return Err(CertFault::WrongCount);
            }
            Ok(lines.entries)
        }
    }
}

impl<'a> OpenText<'a> {
    /// Reads the head of a certificate's text, and its problem. Errors: a text without such a head,
    /// and want of memory.
    pub fn open(alloc: Global, bytes: &'a [u8]) -> Result<OpenText<'a>, CertEnd>
        ensures begins { IfOk result (λ text.
            BeginsWith text.title text.count text.problem.position text.rest.now bytes.now) }
        ensures none { IfErr result (λ end. IsCertificateOutcome bytes.now (Err end)) }
    {
        let Some(head) = head_of(bytes) else {
            return Err(CertEnd::Fault(CertFault::BadHead));
        };
        let mut spelled = Vec::new(alloc);
        let Some(problem) = problem_of_text(head.sfen, &mut spelled)? else {
            return Err(CertEnd::Fault(CertFault::BadHead));
        };
        Ok(OpenText {
            title: head.title,
            count: head.count,
            problem,
            rest: head.rest,
        })
    }

    /// The mate's certificate, from what was read of all its lines; else the text's first fault.
    /// Takes no memory.
    pub fn mate(self, lines: ReadLines<'_, MateEntry>) -> Result<Certificate, CertEnd>
        requires { IsReadOf (mate_form self.problem.position) lines self.rest.now }
        ensures { (bytes : List ℕ) → self.entry.title.claim ≡ Mate
            → BeginsWith self.entry.title self.entry.count self.entry.problem.position
            self.entry.rest.now bytes
            → IsCertificateOutcome bytes result }
    {
        let entries = listed(lines, self.count)?;
        Ok(Certificate::Mate(MateCertificate::new(self.title.version, self.problem, entries)))
    }

    /// The same of an escape's.
    pub fn escape(self, lines: ReadLines<'_, Position>) -> Result<Certificate, CertEnd>
        requires { IsReadOf (escape_form self.problem.position) lines self.rest.now }
        ensures { (bytes : List ℕ) → self.entry.title.claim ≡ Escape
            → BeginsWith self.entry.title self.entry.count self.entry.problem.position
            self.entry.rest.now bytes
            → IsCertificateOutcome bytes result }
    {
        let entries = listed(lines, self.count)?;
        Ok(Certificate::Escape(EscapeCertificate::new(self.title.version, self.problem, entries)))
    }
}

fn certificate_of(alloc: Global, bytes: &[u8]) -> Result<Certificate, CertEnd>
    ensures { IsCertificateOutcome bytes.now result }
{
    let text = match OpenText::open(alloc, bytes) {
        Ok(text) => text,
        Err(end) => return Err(end),
    };
    match text.title.claim {
        Claim::Mate => {
            let lines = read_lines(alloc, text.rest, &text.problem)?;
            text.mate(lines)
        }
        Claim::Escape => {
            let lines = read_lines(alloc, text.rest, &text.problem)?;
            text.escape(lines)
        }
    }
}

/// The certificate whose text it is, of either version (as [`write_cert`](crate::write_cert) writes
/// it), perhaps behind one front line: `checkmate nomate` before an escape, `checkmate` and one or
/// more moves before a mate (USI protocol). The moves of that line aren't compared with the
/// certificate. A certificate has 1 to [`MOST_ENTRIES`](crate::MOST_ENTRIES) entries.
///
/// For any other text its first fault in reading order ([`CertFault`]). Errors: want of memory
/// alone. Reads a line after the other, and keeps what it reads in a vector that doubles.
pub fn read_cert(alloc: Global, bytes: &[u8]) -> Result<Certificate, CertEnd>
    ensures exact { IsCertificateOutcome bytes.now result }
    // Each certificate that can be read is, from its text, unless memory is wanted.
    ensures again { (c : Certificate) → IsReadable c → IsTextOf c bytes.now → IsReadAs c result }
    // No text has two first faults, or one and a certificate.
    ensures only { (fault : CertFault) → HasFirstFault bytes.now fault → IsFaultAs fault result }
{
    // No two positions, and no two moves, have one text.
    sfen_laws();
    move_laws();
    certificate_of(alloc, bytes)
}
