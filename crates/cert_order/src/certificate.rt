// Certificates of entries that are yet to be put in order.
ghost use Rattle.std.specs.Prelude.{◌≡◌, ◌<◌, ℕ, IfOk, Contains, length};
ghost use Rattle.cert_text.specs.Certificate.{mate_form, escape_form};
ghost use Rattle.cert_text.specs.Reading.{IsReadCount, IsReadableOf};
ghost use Rattle.cert_check.specs.Valid.{ValidMate, ValidEscape};
ghost use Rattle.cert_order.specs.Entries.{AreMateEntries, AreEscapeEntries, HaveSame};
ghost use Rattle.cert_order.specs.Order.{ArePicked};

use crate::order::text_order;
use board_core::Position;
use cert_text::{EscapeCertificate, MateCertificate};
use hand_dominance::Version;
use mate_facts::MateEntry;
use shogi_rules::Problem;
use std::alloc::{AllocError, Global};

/// The items at these places, in this order, each place below the number of items. Errors: want of
/// memory alone.
pub fn items_at<T: Copy>(alloc: Global, items: &[T], order: &[usize]) -> Result<Vec<T>, AllocError>
    requires { (place : ℕ) → Contains order.now place → place < length items.now }
    ensures { IfOk result (λ picked. ArePicked items.now order.now picked.items) }
{
    let mut picked = Vec::new(alloc);
    for place in order {
        picked.push(items[*place])?;
    }
    Ok(picked)
}

/// The certificate of a mate's entries, of the version in which they bear it out: it is about the
/// problem, lists the same entries, each once, in the order of the bytes of their positions' SFEN
/// texts, and is valid. Its text can be read, where a reader takes that many entries. Errors: want
/// of memory alone.
pub fn mate_certificate(
    alloc: Global,
    problem: &Problem,
    version: Version,
    entries: &[MateEntry],
) -> Result<MateCertificate, AllocError>
    requires { AreMateEntries version problem.now.position entries.now }
    ensures valid { IfOk result (λ certificate. ValidMate certificate problem.now.position) }
    ensures version { IfOk result (λ certificate. certificate.version ≡ version) }
    ensures same { IfOk result (λ certificate. HaveSame certificate.entries entries.now) }

    // It has as many entries. Where that many are read, it can be read once it is written.
    ensures count { IfOk result (λ certificate. length certificate.entries ≡ length entries.now) }
    ensures readable { IfOk result (λ certificate. IsReadCount (length certificate.entries)
        → IsReadableOf (mate_form certificate.problem) certificate) }
{
    problem.position.laws();
    let mut positions = Vec::new(alloc);
    for entry in entries {
        positions.push(entry.at)?;
    }
    let order = text_order(alloc, &positions)?;
    let sorted = items_at(alloc, entries, &order)?;
    Ok(MateCertificate::new(version, *problem, sorted))
}

/// The certificate of an escape's positions, of the version in which they bear it out: it is about
/// the problem, lists the same positions, each once, in the order of the bytes of their SFEN texts,
/// and is valid. Its text can be read, where a reader takes that many entries. Errors: want of
/// memory alone.
pub fn escape_certificate(
    alloc: Global,
    problem: &Problem,
    version: Version,
    entries: &[Position],
) -> Result<EscapeCertificate, AllocError>
    requires { AreEscapeEntries version problem.now.position entries.now }
    ensures valid { IfOk result (λ certificate. ValidEscape certificate problem.now.position) }
    ensures version { IfOk result (λ certificate. certificate.version ≡ version) }
    ensures same { IfOk result (λ certificate. HaveSame certificate.entries entries.now) }

    // It has as many entries. Where that many are read, it can be read once it is written.
    ensures count { IfOk result (λ certificate. length certificate.entries ≡ length entries.now) }
    ensures readable { IfOk result (λ certificate. IsReadCount (length certificate.entries)
        → IsReadableOf (escape_form certificate.problem) certificate) }
{
    problem.position.laws();
    let order = text_order(alloc, entries)?;
    let sorted = items_at(alloc, entries, &order)?;
    Ok(EscapeCertificate::new(version, *problem, sorted))
}
