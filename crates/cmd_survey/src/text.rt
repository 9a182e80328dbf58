// The text of a summary. Each part is appended to the one text.
ghost use Rattle.std.specs.Prelude.{◌≡◌, ◌++◌, OnOk, IfOk};
ghost use Rattle.cmd_survey.specs.Summary.{summary_text};

use crate::Summary;
use crate::summary::{mates, no_mates, unknowns};
use app_texts::{append_counted, append_line};
use std::alloc::{AllocError, Global};

fn append_summary(out: &mut Vec<u8>, summary: &Summary) -> Result<(), AllocError>
    ensures { OnOk result (out.new.items ≡ out.old.items ++ summary_text summary.now) }
{
    let tallies = summary.tallies.in_order();
    append_counted(out, b"survey ", summary.seed)?;
    append_line(out, b" ", tallies.len() as u64)?;
    append_line(out, b"mate ", mates(tallies) as u64)?;
    append_line(out, b"nomate ", no_mates(tallies) as u64)?;
    append_line(out, b"unknown ", unknowns(tallies) as u64)
}

/// The whole text of a summary. Errors: want of memory alone.
pub fn summary_text(alloc: Global, summary: &Summary) -> Result<Vec<u8>, AllocError>
    ensures { IfOk result (λ text. text.items ≡ summary_text summary.now) }
{
    let mut text = Vec::new(alloc);
    append_summary(&mut text, summary)?;
    Ok(text)
}
