// Whether what a line says is borne out.
ghost use Rattle.std.specs.Prelude.{◌↔◌, IfOk, IsTrue};
ghost use Rattle.shogi_rules.specs.Rules.{IsQuiet, after};
ghost use Rattle.shogi_rules.specs.Tsume.{IsCheck, IsEvasion};
ghost use Rattle.mate_def.specs.Mate.{IsMate};
ghost use Rattle.mate_facts.specs.Entries.{positions_of};
ghost use Rattle.hand_dominance.specs.BorneOut.{AreKept};
ghost use Rattle.cert_check.specs.Valid.{ValidEscape};
ghost use Rattle.cook_report.specs.Report.{check_of};
ghost use Rattle.cook_report.specs.Valid.{AreAllBorneOut, IsMateLine, IsEscapeLine, IsLineOf};
ghost use Rattle.cook_report.specs.Shown.{ShowsCheck, ShowsNone, ShowsOf};
ghost use Rattle.cook_report.specs.Line.{IsLedTo};

use crate::Line;
use crate::copying::copy_of;
use board_core::{Move, Position};
use cert_check::{Hearing, Verdict, check, cover_places_of};
use cert_text::{Certificate, EscapeCertificate, MateCertificate};
use evasions::answers;
use hand_dominance::listing_laws;
use mate_def::rank_grows;
use shogi_rules::{Problem, apply, is_evasion};
use std::alloc::{AllocError, Global};

// Whether each entry of a mate's certificate is borne out, for the problem's attacker.
fn are_all_borne_out(
    alloc: Global,
    problem: &Problem,
    certificate: &MateCertificate,
) -> Result<bool, AllocError>
    ensures { IfOk result (λ found. IsTrue found
        ↔ AreAllBorneOut problem.now.position.side certificate.now) }
{
    let copy = Certificate::Mate(copy_of(alloc, certificate)?);
    let hearing = Hearing::open(alloc, problem, &copy)?;
    let objection = hearing.objection_in(alloc, 0, hearing.count())?;
    Ok(objection.is_none())
}

// Whether each evasion of a position after a check leads to a position that covers a listed one.
fn leads_to_listed(
    alloc: Global,
    problem: &Problem,
    checked: &Position,
    certificate: &MateCertificate,
) -> Result<bool, AllocError>
    requires { IsQuiet checked.now }
    ensures led { IfOk result (λ found. IsTrue found
        ↔ IsLedTo problem.now.position.side checked.now certificate.now) }
    ensures kept { IfOk result (λ found. AreKept (positions_of certificate.now.entries)) }
{
    let places = cover_places_of(alloc, certificate)?;
    let (entries, attacker) = (certificate.entries(), problem.attacker());
    let mut room = Vec::new(alloc);
    let evasions = answers(alloc, problem, checked)?;
    for evasion in evasions.as_slice() {
        let next = apply(checked, *evasion);
        let covered = places.least_covered(entries, attacker, &next, &mut room)?;
        if covered.is_none() {
            return Ok(false);
        }
    }
    Ok(true)
}

// Whether it is borne out that a check of the problem mates.
fn is_mate_line(
    alloc: Global,
    problem: &Problem,
    check: Move,
    certificate: &MateCertificate,
) -> Result<bool, AllocError>
    requires { IsCheck problem.now.position.side problem.now.position check }
    ensures line { IfOk result (λ found. IsTrue found
        ↔ IsMateLine problem.now.position check certificate.now) }
    ensures shows { IfOk result (λ found. IsTrue found
        → ShowsCheck problem.now.position check) }
{
    // What a mate's entries are worth, and that a rank may be any greater one.
    listing_laws();
    rank_grows();
    problem.position.laws();
    if !certificate.problem().position.is_same(&problem.position) {
        return Ok(false);
    }
    if !are_all_borne_out(alloc, problem, certificate)? {
        return Ok(false);
    }
    let checked = apply(&problem.position, check);
    leads_to_listed(alloc, problem, &checked, certificate)
}

// Whether the certificate of an escape is valid for a position.
fn is_valid_escape(
    alloc: Global,
    position: &Position,
    certificate: &EscapeCertificate,
) -> Result<bool, AllocError>
    ensures valid { IfOk result (λ found. IsTrue found
        ↔ ValidEscape certificate.now position.now) }
    ensures none { IfOk result (λ found. IsTrue found
        → ¬ IsMate position.now.side position.now) }
{
    let problem = certificate.problem();
    if !problem.position.is_same(position) {
        return Ok(false);
    }
    let copy = Certificate::Escape(copy_of(alloc, certificate)?);
    match check(alloc, problem, &copy)? {
        Verdict::Accepted => Ok(true),
        Verdict::Refused { entry: _, why: _ } => Ok(false),
    }
}

// Whether it is borne out that an evasion to a check of the problem leads to no mate.
fn is_escape_line(
    alloc: Global,
    problem: &Problem,
    check: Move,
    evasion: Move,
    certificate: &EscapeCertificate,
) -> Result<bool, AllocError>
    requires { IsCheck problem.now.position.side problem.now.position check }
    ensures line { IfOk result (λ found. IsTrue found
        ↔ IsEscapeLine problem.now.position check evasion certificate.now) }
    ensures shows { IfOk result (λ found. IsTrue found
        → ShowsNone problem.now.position check evasion) }
{
    let checked = apply(&problem.position, check);
    if !is_evasion(problem, &checked, evasion) {
        return Ok(false);
    }
    is_valid_escape(alloc, &apply(&checked, evasion), certificate)
}

// Whether the move is an evasion to a check of the problem.
fn is_answer(problem: &Problem, check: Move, evasion: Move) -> bool
    requires { IsCheck problem.now.position.side problem.now.position check }
    ensures { IsTrue result
        ↔ IsEvasion problem.now.position.side (after problem.now.position check) evasion }
{
    is_evasion(problem, &apply(&problem.position, check), evasion)
}

/// Whether what a line says of a check of the problem is borne out by what it lists. Errors: want
/// of memory alone.
pub(crate) fn is_line_of(alloc: Global, problem: &Problem, line: &Line) -> Result<bool, AllocError>
    requires { IsCheck problem.now.position.side problem.now.position (check_of line.now) }
    ensures line { IfOk result (λ found. IsTrue found ↔ IsLineOf problem.now.position line.now) }
    ensures shows { IfOk result (λ found. IsTrue found → ShowsOf problem.now.position line.now) }
{
    match line {
        Line::Mate(check, certificate) => is_mate_line(alloc, problem, *check, certificate),
        Line::Escape(check, evasion, certificate) => {
            is_escape_line(alloc, problem, *check, *evasion, certificate)
        }
        Line::Unknown(check, evasion, _) => Ok(is_answer(problem, *check, *evasion)),
    }
}
