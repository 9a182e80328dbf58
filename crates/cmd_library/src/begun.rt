// What the text of a problem with a library behind it comes to before anybody searches.
ghost use Rattle.std.specs.Prelude.{◌≡◌, ◌++◌, All, OnOk, IfOk, IfErr};
ghost use Rattle.cert_check.specs.Valid.{IsValid};
ghost use Rattle.cert_text.specs.Kinds.{problem_of};
ghost use Rattle.library_check.specs.Refused.{AreValid};
ghost use Rattle.unit_desk.specs.Known.{IsKnown};
ghost use Rattle.cmd_library.specs.Cut.{IsCutAtFirstLine};
ghost use Rattle.cmd_library.specs.Answer.{IsPosed};
ghost use Rattle.cmd_library.specs.Inside.{AreKnown, IsBegun, IsChecked, IsUnposed};
ghost use Rattle.cmd_library.specs.Notes.{leaves_for, notes_of};

use crate::LibraryTextFault;
use bit_boards::Side;
use cert_extract::leaves;
use cert_text::{Certificate, cut};
use cmd_solve::Solve;
use library_check::{Refused, first_refused};
use library_text::{LibraryEnd, read_library};
use notes::Note;
use one_run::Unanswered;
use problem_answers::read_problem;
use shogi_rules::Problem;
use std::alloc::{AllocError, Global};

/// What a text comes to before anybody searches: the problem, and the notes that are known of it;
/// or the first certificate that is refused.
#[derive(Drop)]
pub(crate) enum Begun {
    /// The problem, and the notes.
    Ready(Problem, Vec<Note>),
    /// The certificate.
    Refused(Refused),
}

// The first line, and what stands behind it.
fn cut_line(input: &[u8]) -> (&[u8], &[u8])
    ensures { IsCutAtFirstLine input.now result.0.now result.1.now }
{
    match cut(input, b'\n') {
        Some(parts) => parts,
        None => (input, &[]),
    }
}

// The problem of the first line, and the certificates of the library behind it.
fn posed(
    alloc: Global,
    asked: &Solve,
    input: &[u8],
) -> Result<(Problem, Vec<Certificate>), Unanswered<LibraryTextFault>>
    ensures posed { IfOk result
        (λ found. IsPosed asked.now.form input.now found.0.position found.1.items) }
    ensures unposed { IfErr result (IsUnposed asked.now.form input.now) }
{
    let (line, rest) = cut_line(input);
    let problem = match read_problem(line, asked.form) {
        Ok(problem) => problem,
        Err(fault) => return Err(Unanswered::Text(LibraryTextFault::Problem(fault))),
    };
    match read_library(alloc, rest) {
        Ok(certificates) => Ok((problem, certificates)),
        Err(LibraryEnd::Fault(fault)) => { Err(Unanswered::Text(LibraryTextFault::Library(fault))) }
        Err(LibraryEnd::NoMemory) => Err(Unanswered::NoMemory),
    }
}

// Puts the leaves of a certificate behind the notes, where its problem has this side to move.
fn append_leaves(
    alloc: Global,
    side: Side,
    certificate: &Certificate,
    notes: &mut Vec<Note>,
) -> Result<(), AllocError>
    requires { IsValid certificate.now (problem_of certificate.now) }
    ensures { OnOk result (notes.new.items ≡ notes.old.items ++ leaves_for side certificate.now) }
{
    if certificate.problem().attacker() == side {
        let mut own = leaves(alloc, certificate)?;
        notes.append(&mut own)?;
    }
    Ok(())
}

// The notes of valid certificates for a problem with this side to move.
fn known_notes(
    alloc: Global,
    side: Side,
    certificates: &[Certificate],
) -> Result<Vec<Note>, AllocError>
    requires { AreValid certificates.now }
    ensures notes { IfOk result (λ notes. notes.items ≡ notes_of side certificates.now) }
    ensures known { IfOk result (λ notes. All (IsKnown side) notes.items) }
{
    let mut notes = Vec::new(alloc);
    for certificate in certificates {
        append_leaves(alloc, side, certificate, &mut notes)?;
    }
    Ok(notes)
}

// What certificates come to for a problem.
fn checked(
    alloc: Global,
    problem: Problem,
    certificates: &[Certificate],
) -> Result<Begun, AllocError>
    ensures checked { IfOk result (IsChecked problem.position certificates.now) }
    ensures known { IfOk result AreKnown }
{
    if let Some(refused) = first_refused(alloc, certificates)? {
        return Ok(Begun::Refused(refused));
    }
    let notes = known_notes(alloc, problem.attacker(), certificates)?;
    Ok(Begun::Ready(problem, notes))
}

/// What the bytes of a text come to before anybody searches; or their first fault, of the problem's
/// line before one of the library.
pub(crate) fn begin(
    alloc: Global,
    asked: &Solve,
    input: &[u8],
) -> Result<Begun, Unanswered<LibraryTextFault>>
    ensures begun { IfOk result (IsBegun asked.now.form input.now) }
    ensures known { IfOk result AreKnown }
    ensures unposed { IfErr result (IsUnposed asked.now.form input.now) }
{
    let (problem, certificates) = posed(alloc, asked, input)?;
    match checked(alloc, problem, &certificates) {
        Ok(begun) => Ok(begun),
        Err(_) => Err(Unanswered::NoMemory),
    }
}
