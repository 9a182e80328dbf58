// The verdict on a certificate, over several threads.
ghost use Rattle.std.specs.Prelude.{◌≡◌, ◌≤◌, ◌↔◌, IfOk};
ghost use Rattle.cert_check.specs.Valid.{IsValid, Shows};
ghost use Rattle.cert_check.specs.Reasons.{IsVerdict};
ghost use Rattle.cert_check.specs.declared.verdict.Verdict.{Verdict};
ghost use Rattle.cert_check.specs.declared.verdict.Verdict.TheVariants.{Accepted};
ghost use Rattle.wide_check.specs.Stretches.{IsFirstOf, IsFoundInAll};

use crate::stretches::{Objected, Stretches, stretch_end};
use cert_check::{Hearing, Objection, Verdict, check, valid_is_accepted, verdict_laws};
use cert_text::Certificate;
use shogi_rules::Problem;
use side_by_side::Team;
use std::alloc::{AllocError, Global};
use std::thread::Threads;

// How many entries a stretch has at most.
const MOST_ENTRIES: usize = 256;

// How many stretches there are for each piece, where the certificate is long enough.
const STRETCHES_A_PIECE: usize = 8;

// How many entries a stretch has: so few that no thread waits long for another.
fn stretch_size(count: usize, pieces: usize) -> usize
    ensures { 1 ≤ result }
{
    let stretches = pieces.max(1).saturating_mul(STRETCHES_A_PIECE);
    (count / stretches).min(MOST_ENTRIES).max(1)
}

// The first objection of all, from what was found in the stretches, in their order.
fn first_of(found: &[Option<Objection>]) -> Option<Objection>
    ensures { IsFirstOf found.now result }
{
    for one in found {
        if let Some(objection) = *one {
            return Some(objection);
        }
    }
    None
}

// The first objection among all entries. Once a stretch has one no further stretch is heard, and
// those before it are: so what the first stretches found, as many as were heard, tells it.
fn first_objection<R: Threads + Sync>(
    rt: &R,
    alloc: Global,
    hearing: &Hearing<'_>,
    pieces: usize,
) -> Result<Option<Objection>, AllocError>
    ensures { IfOk result (IsFoundInAll hearing.now) }
{
    let count = hearing.count();
    let size = stretch_size(count, pieces);
    let objected = Objected::new();
    let mut team = Team::new(rt, alloc, pieces)?;
    let mut from = 0;
    while from < count {
        let stretches = Stretches {
            hearing,
            objected: &objected,
            from,
            to: count,
            size,
        };
        let found = team.first_answers(rt, alloc, &stretches, &objected)?;
        if let Some(objection) = first_of(&found) {
            return Ok(Some(objection));
        }
        from = stretch_end(from, found.len().saturating_mul(size), count);
    }
    Ok(None)
}

// The verdict, by stretches where there are several pieces.
fn verdict_by<R: Threads + Sync>(
    rt: &R,
    alloc: Global,
    problem: &Problem,
    certificate: &Certificate,
    pieces: usize,
) -> Result<Verdict, AllocError>
    ensures verdict { IfOk result (IsVerdict certificate.now problem.now.position) }
    ensures shows { IfOk result (λ verdict.
        verdict ≡ Accepted → Shows certificate.now problem.now.position) }
{
    if pieces <= 1 {
        return check(alloc, problem, certificate);
    }
    let hearing = Hearing::open(alloc, problem, certificate)?;
    if let Some(verdict) = hearing.root_verdict() {
        return Ok(verdict);
    }
    let first = first_objection(rt, alloc, &hearing, pieces)?;
    Ok(hearing.verdict(first))
}

/// Whether the certificate is valid for the problem; else the first reason against it. That is the
/// verdict of [`check`](cert_check::check), for each number of pieces: with one it is `check`
/// itself, and starts no thread; with more the entries are heard side by side by a [`Team`] of so
/// many members, though of no more than there are processors (one where that isn't known), and at
/// most [`MOST_MEMBERS`](side_by_side::MOST_MEMBERS). A thread that has no entries to hear takes
/// the next stretch, of at most 256; all look into the one certificate, and nothing of it is
/// copied. Once a stretch has an objection no further one is begun. Errors: want of memory alone.
pub fn check_wide<R: Threads + Sync>(
    rt: &R,
    alloc: Global,
    problem: &Problem,
    certificate: &Certificate,
    pieces: usize,
) -> Result<Verdict, AllocError>
    // Accepted exactly where the certificate is valid, refused exactly with the first reason
    // against it.
    ensures verdict { IfOk result (IsVerdict certificate.now problem.now.position) }
    ensures accepted { IfOk result (λ verdict.
        (verdict ≡ Accepted) ↔ IsValid certificate.now problem.now.position) }

    // What is accepted as a mate is one, and what is accepted as an escape is no mate.
    ensures shows { IfOk result (λ verdict.
        verdict ≡ Accepted → Shows certificate.now problem.now.position) }

    // It is the only verdict, so `check`'s, whatever the number of pieces.
    ensures same { IfOk result (λ verdict. (other : Verdict)
        → IsVerdict certificate.now problem.now.position other → other ≡ verdict) }
{
    // What validity is worth, and that there is one verdict.
    valid_is_accepted();
    verdict_laws();
    verdict_by(rt, alloc, problem, certificate, pieces)
}
