// A certificate of entries that are yet to be put in order, whatever they bear out.
ghost use Rattle.std.specs.Prelude.{◌≡◌, IfOk, length};
ghost use Rattle.mate_facts.specs.Entries.{positions_of};
ghost use Rattle.hand_dominance.specs.BorneOut.{AreKept};
ghost use Rattle.cert_text.specs.Certificate.{mate_form};
ghost use Rattle.cert_text.specs.Reading.{AreGood};
ghost use Rattle.cert_order.specs.Entries.{HaveSame};
ghost use Rattle.cook_report.specs.Joining.{MayBeTold};

use cert_order::{items_at, text_order};
use cert_text::MateCertificate;
use hand_dominance::Version;
use mate_facts::MateEntry;
use shogi_rules::Problem;
use std::alloc::{AllocError, Global};

/// The certificate of a mate about the problem, of this version, that lists these entries, each
/// once, in the order of the bytes of their positions' SFEN texts. Errors: want of memory alone.
pub(crate) fn listing(
    alloc: Global,
    problem: &Problem,
    version: Version,
    entries: &[MateEntry],
) -> Result<MateCertificate, AllocError>
    requires { MayBeTold problem.now.position entries.now }
    ensures problem { IfOk result (λ certificate. certificate.problem ≡ problem.now.position) }
    ensures version { IfOk result (λ certificate. certificate.version ≡ version) }
    ensures same { IfOk result (λ certificate. HaveSame certificate.entries entries.now) }
    ensures count { IfOk result (λ certificate. length certificate.entries ≡ length entries.now) }
    ensures good { IfOk result (λ certificate.
        AreGood (mate_form certificate.problem) certificate.entries) }
    ensures kept { IfOk result (λ certificate. AreKept (positions_of certificate.entries)) }
{
    let mut positions = Vec::new(alloc);
    for entry in entries {
        positions.push(entry.at)?;
    }
    let order = text_order(alloc, &positions)?;
    let sorted = items_at(alloc, entries, &order)?;
    Ok(MateCertificate::new(version, *problem, sorted))
}
