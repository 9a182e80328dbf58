// The text of what was found of a shortest mate. Each part is appended to the one text.
ghost use Rattle.std.specs.Prelude.{◌≡◌, ◌++◌, OnOk, IfOk};
ghost use Rattle.usi_text.specs.Lines.{AllHaveText, mate_text};
ghost use Rattle.cert_text.specs.Text.{certificate_text};
ghost use Rattle.cert_text.specs.declared.certificate.Certificate.TheVariants.{Mate};
ghost use Rattle.hand_dominance.specs.declared.version.Version.TheVariants.{One};
ghost use Rattle.bound_text.specs.Text.{bound_text};
ghost use Rattle.shortest_text.specs.Text.{found_text, none_text};
ghost use Rattle.shortest_mate.specs.Finding.{IsPrintable};
ghost use Rattle.cmd_shortest.specs.Text.{finding_text, unknown_text};

use crate::ShortestAnswer;
use app_texts::{append_cause, append_line};
use board_core::Move;
use bound_text::{Bound, append_bound};
use cert_text::{MateCertificate, append_mate_cert};
use mate_facts::Rank;
use search_limits::Cause;
use sfen_text::append_sfen;
use shortest_mate::Finding;
use std::alloc::{AllocError, Global};
use usi_text::{append_mate_line, append_timeout_line};

fn append_found(
    out: &mut Vec<u8>,
    rank: Rank,
    certificate: &MateCertificate,
    bound: &Bound,
    line: &[Move],
) -> Result<(), AllocError>
    requires line { AllHaveText line.now }
    requires version { bound.now.version ≡ One }
    ensures { OnOk result (out.new.items ≡ out.old.items
        ++ found_text (mate_text line.now) rank (certificate_text (Mate certificate.now))
        (bound_text bound.now)) }
{
    append_mate_line(out, line)?;
    out.push(b'\n')?;
    append_line(out, b"shortest ", u64::from(rank.number))?;
    append_mate_cert(out, certificate)?;
    append_bound(out, bound)
}

fn append_none(out: &mut Vec<u8>, limit: Rank, bound: &Bound) -> Result<(), AllocError>
    requires { bound.now.version ≡ One }
    ensures { OnOk result (out.new.items
        ≡ out.old.items ++ none_text limit bound.now.problem (bound_text bound.now)) }
{
    append_line(out, b"none within ", u64::from(limit.number))?;
    out.extend_from_slice(b"problem ")?;
    append_sfen(out, &bound.problem().position)?;
    out.push(b'\n')?;
    append_bound(out, bound)
}

fn append_unknown(out: &mut Vec<u8>, cause: Cause) -> Result<(), AllocError>
    ensures { OnOk result (out.new.items ≡ out.old.items ++ unknown_text cause) }
{
    append_timeout_line(out)?;
    out.extend_from_slice(b"\nunknown ")?;
    append_cause(out, cause)?;
    out.push(b'\n')?;
    Ok(())
}

fn append_finding(out: &mut Vec<u8>, finding: &Finding) -> Result<(), AllocError>
    requires { IsPrintable finding.now }
    ensures { OnOk result (out.new.items ≡ out.old.items ++ finding_text finding.now) }
{
    match finding {
        Finding::Found {
            rank,
            certificate,
            bound,
            line,
        } => append_found(out, *rank, certificate, bound, line),
        Finding::NoneWithin { limit, bound } => append_none(out, *limit, bound),
        Finding::Unknown(cause) => append_unknown(out, *cause),
    }
}

/// The whole text of an answer to `shortest`, whose moves have texts: of a shortest mate or of
/// none within the limit one that [`read_shortest`](shortest_text::read_shortest) reads. Errors:
/// want of memory alone. (USI protocol: `checkmate`.)
pub fn shortest_text(alloc: Global, answer: &ShortestAnswer) -> Result<Vec<u8>, AllocError>
    requires { IsPrintable answer.now.finding }
    ensures { IfOk result (λ text. text.items ≡ finding_text answer.now.finding) }
{
    let mut text = Vec::new(alloc);
    append_finding(&mut text, &answer.finding)?;
    Ok(text)
}
