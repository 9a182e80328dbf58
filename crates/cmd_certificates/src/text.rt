// The text of what was found of a collection's certificates. Each part is appended to the one text.
ghost use Rattle.std.specs.Prelude.{◌≡◌, ◌++◌, OnOk, IfOk, codes, map};
ghost use Rattle.std.specs.List.{flat_map};
ghost use Rattle.app_texts.specs.Texts.{judgement_text};
ghost use Rattle.cert_text.specs.Entries.{line};
ghost use Rattle.cert_text.specs.FaultText.{certificate_fault_text};
ghost use Rattle.cmd_certificates.specs.Judged.{seen};
ghost use Rattle.cmd_certificates.specs.Text.{collection_text, counts_text, line_text, told_text};

use crate::{CollectionJudgement, JudgedLine, LineJudgement};
use app_texts::{Judgement, append_counted, append_line, judgement_text};
use cert_text::CertFault;
use std::alloc::{AllocError, Global};

fn append_fault(out: &mut Vec<u8>, fault: CertFault) -> Result<(), AllocError>
    ensures { OnOk result (out.new.items
        ≡ out.old.items ++ line (codes "fault " ++ certificate_fault_text fault)) }
{
    let alloc = *out.allocator();
    let text = format!(in alloc; "fault {fault}\n")?;
    out.extend_from_slice(text.as_bytes())?;
    Ok(())
}

fn append_judgement(out: &mut Vec<u8>, judgement: &Judgement) -> Result<(), AllocError>
    ensures { OnOk result (out.new.items ≡ out.old.items ++ judgement_text judgement.now) }
{
    let alloc = *out.allocator();
    let text = judgement_text(alloc, judgement)?;
    out.extend_from_slice(&text)?;
    Ok(())
}

fn append_told(out: &mut Vec<u8>, told: LineJudgement) -> Result<(), AllocError>
    ensures { OnOk result (out.new.items ≡ out.old.items ++ told_text told) }
{
    match told {
        LineJudgement::Accepted { claim, entries } => {
            append_judgement(out, &Judgement::Accepted { claim, entries })
        }
        LineJudgement::Refused { entry, why } => {
            append_judgement(out, &Judgement::Refused { entry, why })
        }
        LineJudgement::Fault(fault) => append_fault(out, fault),
    }
}

fn append_judged(out: &mut Vec<u8>, judged: &JudgedLine) -> Result<(), AllocError>
    ensures { OnOk result (out.new.items ≡ out.old.items ++ line_text (seen judged.now)) }
{
    out.extend_from_slice(&judged.number)?;
    out.push(b' ')?;
    append_told(out, judged.told)
}

fn append_lines(out: &mut Vec<u8>, lines: &[JudgedLine]) -> Result<(), AllocError>
    ensures { OnOk result (out.new.items
        ≡ out.old.items ++ flat_map line_text (map seen lines.now)) }
{
    for judged in lines {
        append_judged(out, judged)?;
    }
    Ok(())
}

fn append_counts(out: &mut Vec<u8>, judgement: &CollectionJudgement) -> Result<(), AllocError>
    ensures { OnOk result (out.new.items ≡ out.old.items ++ counts_text judgement.now) }
{
    append_counted(out, b"certificates ", judgement.count())?;
    append_counted(out, b" accepted ", judgement.accepted())?;
    append_counted(out, b" refused ", judgement.refused())?;
    append_line(out, b" fault ", judgement.faults())
}

/// The whole text of an answer to `check --collection`: a line for each that tells a verdict, and
/// the counts behind them. Errors: want of memory alone.
pub fn collection_text(
    alloc: Global,
    judgement: &CollectionJudgement,
) -> Result<Vec<u8>, AllocError>
    ensures { IfOk result (λ text. text.items ≡ collection_text judgement.now) }
{
    let mut text = Vec::new(alloc);
    append_lines(&mut text, judgement.lines())?;
    append_counts(&mut text, judgement)?;
    Ok(text)
}
