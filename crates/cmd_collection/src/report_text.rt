// The texts of a report, and of the counts behind the last one. Each part is appended to the one
// text.
ghost use Rattle.std.specs.Prelude.{◌≡◌, ◌++◌, OnOk, IfOk, codes};
ghost use Rattle.std.specs.List.{flat_map};
ghost use Rattle.usi_text.specs.Lines.{spaced_move};
ghost use Rattle.cmd_collection.specs.FaultText.{line_fault_text};
ghost use Rattle.cmd_collection.specs.Counts.{counts_text};
ghost use Rattle.cmd_collection.specs.ReportText.{HasReportLine, ending_text, proof_text, report_text};

use crate::{Counts, LineFault, Report};
use app_texts::{Solution, append_cause, append_counted, append_line};
use board_core::Move;
use cert_text::{append_escape_cert, append_mate_cert, append_number};
use std::alloc::{AllocError, Global};
use usi_text::write_move;

fn append_moves(out: &mut Vec<u8>, moves: &[Move]) -> Result<(), AllocError>
    ensures { OnOk result (out.new.items ≡ out.old.items ++ flat_map spaced_move moves.now) }
{
    for m in moves {
        out.push(b' ')?;
        out.extend_from_slice(write_move(*m).as_bytes())?;
    }
    Ok(())
}

fn append_fault(out: &mut Vec<u8>, fault: LineFault) -> Result<(), AllocError>
    ensures { OnOk result (out.new.items ≡ out.old.items ++ line_fault_text fault) }
{
    let alloc = *out.allocator();
    let text = format!(in alloc; "{fault}")?;
    out.extend_from_slice(text.as_bytes())?;
    Ok(())
}

fn append_ending(out: &mut Vec<u8>, report: &Report) -> Result<(), AllocError>
    ensures { OnOk result (out.new.items ≡ out.old.items ++ ending_text report.now) }
{
    match report {
        Report::Solved(Solution::Mate(_, moves)) => {
            out.extend_from_slice(b" mate")?;
            append_moves(out, moves.moves())
        }
        Report::Solved(Solution::NoMate(_)) => {
            out.extend_from_slice(b" nomate")?;
            Ok(())
        }
        Report::Solved(Solution::Unknown(cause, _)) => {
            out.extend_from_slice(b" unknown ")?;
            append_cause(out, *cause)
        }
        Report::Fault(fault) => {
            out.extend_from_slice(b" fault ")?;
            append_fault(out, *fault)
        }
    }
}

fn append_proof(out: &mut Vec<u8>, report: &Report) -> Result<(), AllocError>
    ensures { OnOk result (out.new.items ≡ out.old.items ++ proof_text report.now) }
{
    match report {
        Report::Solved(Solution::Mate(certificate, _)) => append_mate_cert(out, certificate),
        Report::Solved(Solution::NoMate(certificate)) => append_escape_cert(out, certificate),
        Report::Solved(Solution::Unknown(_, _)) | Report::Fault(_) => Ok(()),
    }
}

/// Writes what is told of a collection's line of this number behind what stands there already: the
/// number, how its problem ended and this remark, which is empty where none is told, and behind a
/// verdict its certificate where `certificates` says so. The moves of a mate have texts. Where
/// memory is wanted, nothing is said of what stands there then. Errors: want of memory alone.
pub fn append_report(
    out: &mut Vec<u8>,
    number: u64,
    report: &Report,
    remark: &[u8],
    certificates: bool,
) -> Result<(), AllocError>
    requires { HasReportLine report.now }
    ensures { OnOk result (out.new.items
        ≡ out.old.items ++ report_text certificates number remark.now report.now) }
{
    append_number(out, number)?;
    append_ending(out, report)?;
    out.extend_from_slice(remark)?;
    out.push(b'\n')?;
    if certificates {
        append_proof(out, report)?;
    }
    Ok(())
}

fn append_counts(out: &mut Vec<u8>, counts: &Counts) -> Result<(), AllocError>
    ensures { OnOk result (out.new.items ≡ out.old.items ++ counts_text counts.now) }
{
    append_counted(out, b"problems ", counts.problems())?;
    append_counted(out, b" mate ", counts.mates)?;
    append_counted(out, b" nomate ", counts.no_mates)?;
    append_counted(out, b" unknown ", counts.unknowns)?;
    append_line(out, b" fault ", counts.faults)
}

/// The whole text of the counts. Errors: want of memory alone.
pub fn counts_text(alloc: Global, counts: &Counts) -> Result<Vec<u8>, AllocError>
    ensures { IfOk result (λ text. text.items ≡ counts_text counts.now) }
{
    let mut text = Vec::new(alloc);
    append_counts(&mut text, counts)?;
    Ok(text)
}
