// Certificates as texts.
ghost use Rattle.std.specs.Prelude.{◌≡◌, ◌++◌, length, IfOk, IsOk, OnOk};
ghost use Rattle.std.specs.Fmt.{decimal};
ghost use Rattle.board_core.specs.Kept.{IsKept};
ghost use Rattle.cert_text.specs.declared.certificate.Certificate.TheVariants.{Mate, Escape};
ghost use Rattle.hand_dominance.specs.declared.version.Version.{Version};
ghost use Rattle.cert_text.specs.declared.head.Claim.{Claim};
ghost use Rattle.cert_text.specs.declared.head.Title.{Title};
ghost use Rattle.cert_text.specs.Text.{version_front, title_text, head_text, listing_text, certificate_text};
ghost use Rattle.cert_text.specs.Entries.{line, problem_line};
ghost use Rattle.cert_text.specs.Reading.{IsReadCount, IsReadableOf, IsWithinLimits, IsReadable};

use crate::head::{Claim, Title};
use crate::{Certificate, CertificateOf, Entry, EscapeCertificate, MateCertificate};
use board_core::Position;
use hand_dominance::Version;
use itoa::Buffer;
use sfen_text::append_sfen;
use std::alloc::{AllocError, Global};

/// Writes a number in decimal digits behind what stands there already. Errors: want of memory
/// alone.
pub fn append_number(out: &mut Vec<u8>, number: u64) -> Result<(), AllocError>
    ensures { OnOk result (out.new.items ≡ out.old.items ++ decimal number) }
{
    let mut buffer = Buffer::new();
    out.extend_from_slice(buffer.format(number).as_bytes())?;
    Ok(())
}

// What stands at the front of a first line, by the version.
fn front_of(version: Version) -> &'static [u8]
    ensures { result.now ≡ version_front version }
{
    match version {
        Version::One => b"certificate 1 ",
        Version::Two => b"certificate 2 ",
    }
}

fn append_first_line(out: &mut Vec<u8>, title: Title, count: usize) -> Result<(), AllocError>
    ensures { OnOk result (out.new.items ≡ out.old.items ++ line (title_text title count)) }
{
    out.extend_from_slice(front_of(title.version))?;
    out.extend_from_slice(title.claim.word())?;
    out.push(b' ')?;
    append_number(out, count as u64)?;
    out.push(b'\n')?;
    Ok(())
}

fn append_problem_line(out: &mut Vec<u8>, problem: &Position) -> Result<(), AllocError>
    ensures { OnOk result (out.new.items ≡ out.old.items ++ problem_line problem.now) }
{
    out.extend_from_slice(b"problem ")?;
    append_sfen(out, problem)?;
    out.push(b'\n')?;
    Ok(())
}

fn append_head(
    out: &mut Vec<u8>,
    title: Title,
    count: usize,
    problem: &Position,
) -> Result<(), AllocError>
    ensures text { OnOk result (out.new.items
        ≡ out.old.items ++ head_text title count problem.now) }
    ensures kept { IsKept problem.now }
{
    // What the problem keeps, even where memory is wanted.
    problem.laws();
    append_first_line(out, title, count)?;
    append_problem_line(out, problem)
}

fn append_listing<E: Entry>(
    out: &mut Vec<u8>,
    claim: Claim,
    certificate: &CertificateOf<E>,
) -> Result<(), AllocError>
    ensures text { OnOk result (out.new.items
        ≡ out.old.items ++ listing_text claim (E.form certificate.now.problem) certificate.now) }
    ensures readable { IsOk result → IsReadCount (length certificate.now.entries)
        → IsReadableOf (E.form certificate.now.problem) certificate.now }
{
    let entries = certificate.entries();
    let title = Title {
        version: certificate.version(),
        claim,
    };
    append_head(out, title, entries.len(), &certificate.problem().position)?;
    for entry in entries {
        entry.append(out)?;
    }
    out.extend_from_slice(b"end\n")?;
    Ok(())
}

/// Writes the text of a mate's certificate behind what stands there already: see [`write_cert`].
/// Where memory is wanted, a part of it may stand there. Errors: want of memory alone.
pub fn append_mate_cert(out: &mut Vec<u8>, certificate: &MateCertificate) -> Result<(), AllocError>
    ensures text { OnOk result (out.new.items
        ≡ out.old.items ++ certificate_text (Mate certificate.now)) }
    // What is written is read again, where it is within the limits: see `again` of `read_cert`.
    ensures readable { IsOk result → IsWithinLimits (Mate certificate.now)
        → IsReadable (Mate certificate.now) }
{
    append_listing(out, Claim::Mate, certificate)
}

/// The same of an escape's certificate.
pub fn append_escape_cert(
    out: &mut Vec<u8>,
    certificate: &EscapeCertificate,
) -> Result<(), AllocError>
    ensures text { OnOk result (out.new.items
        ≡ out.old.items ++ certificate_text (Escape certificate.now)) }
    // What is written is read again, where it is within the limits: see `again` of `read_cert`.
    ensures readable { IsOk result → IsWithinLimits (Escape certificate.now)
        → IsReadable (Escape certificate.now) }
{
    append_listing(out, Claim::Escape, certificate)
}

/// Writes the text of a certificate behind what stands there already: see [`write_cert`]. Where
/// memory is wanted, a part of it may stand there. Errors: want of memory alone.
pub fn append_cert(out: &mut Vec<u8>, certificate: &Certificate) -> Result<(), AllocError>
    ensures text { OnOk result (out.new.items ≡ out.old.items ++ certificate_text certificate.now) }
    // What is written is read again, where it is within the limits: see `again` of `read_cert`.
    ensures readable { IsOk result → IsWithinLimits certificate.now → IsReadable certificate.now }
{
    match certificate {
        Certificate::Mate(mate) => append_mate_cert(out, mate),
        Certificate::Escape(escape) => append_escape_cert(out, escape),
    }
}

/// The text of a certificate: the line `certificate V KIND N` with its version, 1 or 2, its kind,
/// `mate` or `escape`, and the number of its entries; the line `problem SFEN`; a line for each
/// entry, `RANK MOVE SFEN` in a mate and `SFEN` in an escape; and the line `end`. Each line ends
/// with a line feed. Positions are written as [`sfen_text::write_sfen`] does, moves as
/// [`usi_text::write_move`] does. Errors: want of memory alone.
pub fn write_cert(alloc: Global, certificate: &Certificate) -> Result<Vec<u8>, AllocError>
    ensures text { IfOk result (λ text. text.items ≡ certificate_text certificate.now) }
    // What is written is read again, where it is within the limits: see `again` of `read_cert`.
    ensures readable { IsOk result → IsWithinLimits certificate.now → IsReadable certificate.now }
{
    let mut text = Vec::new(alloc);
    append_cert(&mut text, certificate)?;
    Ok(text)
}
