// The bound of an escape: no mate is as short as anything.
ghost use Rattle.std.specs.Prelude.{◌≡◌, IfOk};
ghost use Rattle.hand_dominance.specs.declared.version.Version.TheVariants.{One};
ghost use Rattle.cert_check.specs.Valid.{ValidEscape};
ghost use Rattle.shortest_mate.specs.Finding.{IsNoneWithin};

use bound_check::valid_bound_is_accepted;
use bound_text::{Bound, BoundEntry};
use cert_text::EscapeCertificate;
use hand_dominance::Version;
use mate_facts::Rank;
use shogi_rules::Problem;
use std::alloc::{AllocError, Global};

/// The bound that lists the positions of an escape, each with the limit. Errors: want of memory
/// alone.
pub(crate) fn bound_of_escape(
    alloc: Global,
    problem: &Problem,
    escape: &EscapeCertificate,
    limit: Rank,
) -> Result<Bound, AllocError>
    requires valid { ValidEscape escape.now problem.now.position }
    requires version { escape.now.version ≡ One }
    ensures { IfOk result (IsNoneWithin problem.now.position limit.number) }
{
    // What a valid bound shows.
    valid_bound_is_accepted();
    problem.position.laws();
    let mut entries = Vec::new(alloc);
    for position in escape.entries() {
        position.laws();
        entries.push(BoundEntry {
            bound: limit,
            at: *position,
        })?;
    }
    Ok(Bound::new(Version::One, *problem, entries))
}
