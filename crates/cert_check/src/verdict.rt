// The verdict on a certificate.
ghost use Rattle.std.specs.Prelude.{◌≡◌, ◌↔◌, IfOk};
ghost use Rattle.board_core.specs.Board.{Board};
ghost use Rattle.board_core.specs.Kept.{IsKept};
ghost use Rattle.hand_dominance.specs.BorneOut.{AreKept};
ghost use Rattle.cert_text.specs.Kinds.{positions_in};
ghost use Rattle.cert_text.specs.Reading.{IsReadable};
ghost use Rattle.cert_text.specs.declared.certificate.Certificate.{Certificate};
ghost use Rattle.cert_check.specs.Valid.{IsValid, Shows};
ghost use Rattle.cert_check.specs.Reasons.{IsVerdict};
ghost use Rattle.cert_check.specs.declared.verdict.Verdict.{Verdict};
ghost use Rattle.cert_check.specs.declared.verdict.Verdict.TheVariants.{Accepted};

use crate::hearing::Hearing;
use board_core::{Move, order_laws};
use cert_text::Certificate;
use hand_dominance::listing_laws;
use shogi_rules::Problem;
use std::alloc::{AllocError, Global};

/// Why a certificate is refused. A listed position stands for itself, and in version 2 also for
/// others: in a mate for each that dominates it, in an escape for each that it dominates
/// (`hand_dominance`).
#[derive(Clone, Copy, PartialEq, Eq, Debug)]
pub enum Why {
    /// The certificate is about another problem, or no listed position stands for the problem's.
    RootMissing,
    /// The move of a mate's entry, this one, isn't a check of its position.
    NotACheck(Move),
    /// After the entry's move, this evasion leads to a position for which no listed one stands.
    EvasionOutside(Move),
    /// After the entry's move, this evasion leads to a position for which listed ones stand, but
    /// none with a lower rank.
    RankNotLower(Move),
    /// In an escape, no evasion to this check of the entry's position leads to a position for which
    /// a listed one stands.
    CheckUnanswered(Move),
}

/// What the checker says of a certificate.
#[derive(Clone, Copy, PartialEq, Eq, Debug)]
pub enum Verdict {
    /// The certificate is valid for the problem.
    Accepted,
    /// It isn't.
    Refused {
        /// The first entry that something speaks against, counted from 1; 0 for
        /// [`Why::RootMissing`].
        entry: u64,
        /// The first reason against it: what is wrong with its own move, else the first in the
        /// order of the moves that they name.
        why: Why,
    },
}

impl Verdict {
    // The verdict where the certificate is about another problem, or no listed position stands for
    // the problem's.
    pub(crate) const ROOT_MISSING: Verdict = Verdict::Refused {
        entry: 0,
        why: Why::RootMissing,
    };
}

/// What validity is worth, a law: every verdict on a valid certificate is that it is accepted, and
/// it shows what it says, a mate or that there is none. (It shows this where its positions and the
/// problem's keep what every position keeps; so do those of one that can be read.)
pub fn valid_is_accepted()
    ensures accepted { (c : Certificate) (p : Board) (verdict : Verdict) → IsVerdict c p verdict
        → IsValid c p → verdict ≡ Accepted }
    ensures shows { (c : Certificate) (p : Board) → AreKept (positions_in c) → IsKept p
        → IsValid c p → Shows c p }
    ensures readable { (c : Certificate) (p : Board) → IsReadable c → IsValid c p → Shows c p }
{
    // What lists of positions bear out.
    listing_laws();
}

fn verdict_on(
    alloc: Global,
    problem: &Problem,
    certificate: &Certificate,
) -> Result<Verdict, AllocError>
    ensures verdict { IfOk result
        (λ verdict. IsVerdict certificate.now problem.now.position verdict) }
    ensures shows { IfOk result (λ verdict. verdict ≡ Accepted
        → Shows certificate.now problem.now.position) }
{
    let hearing = Hearing::open(alloc, problem, certificate)?;
    if let Some(verdict) = hearing.root_verdict() {
        return Ok(verdict);
    }
    let first = hearing.objection_in(alloc, 0, hearing.count())?;
    Ok(hearing.verdict(first))
}

/// A law: a certificate has one verdict for a problem, however its entries are heard. Does nothing;
/// whoever compares two verdicts calls it to know this.
pub fn verdict_laws()
    ensures once { (c : Certificate) (p : Board) (one other : Verdict) → IsVerdict c p one
        → IsVerdict c p other → one ≡ other }
{
    // No two moves have one place in their order.
    order_laws();
}

/// Whether the certificate is valid for the problem; else the first reason against it. Errors: want
/// of memory alone.
///
/// What is accepted is so, whoever wrote the certificate: an accepted mate is a mate, an accepted
/// escape is none.
pub fn check(
    alloc: Global,
    problem: &Problem,
    certificate: &Certificate,
) -> Result<Verdict, AllocError>
    // Accepted exactly where the certificate is valid, refused exactly with the first reason
    // against it.
    ensures verdict { IfOk result
        (λ verdict. IsVerdict certificate.now problem.now.position verdict) }
    ensures accepted { IfOk result (λ verdict. (verdict ≡ Accepted)
        ↔ IsValid certificate.now problem.now.position) }

    // What is accepted as a mate is one, and what is accepted as an escape is no mate.
    ensures shows { IfOk result (λ verdict. verdict ≡ Accepted
        → Shows certificate.now problem.now.position) }
{
    verdict_on(alloc, problem, certificate)
}
