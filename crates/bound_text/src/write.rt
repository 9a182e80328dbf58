// Bounds as texts.
ghost use Rattle.std.specs.Prelude.{◌≡◌, ◌++◌, IfOk, IsOk, OnOk};
ghost use Rattle.std.specs.Fmt.{decimal};
ghost use Rattle.hand_dominance.specs.declared.version.Version.TheVariants.{One};
ghost use Rattle.bound_text.specs.Text.{first_line, bound_text};
ghost use Rattle.bound_text.specs.Reading.{IsReadable};

use crate::Bound;
use cert_text::{Entry, append_number};
use std::alloc::{AllocError, Global};

fn append_first_line(out: &mut Vec<u8>, count: usize) -> Result<(), AllocError>
    ensures { OnOk result (out.new.items ≡ out.old.items ++ first_line (decimal count)) }
{
    out.extend_from_slice(b"bound 1 ")?;
    append_number(out, count as u64)?;
    out.push(b'\n')?;
    Ok(())
}

/// Writes the text of a bound, which is of version 1, behind what stands there already: see
/// [`write_bound`]. Where memory is wanted, a part of it may stand there. Errors: want of memory
/// alone.
pub fn append_bound(out: &mut Vec<u8>, bound: &Bound) -> Result<(), AllocError>
    requires { bound.now.version ≡ One }
    ensures text { OnOk result (out.new.items ≡ out.old.items ++ bound_text bound.now) }
    // What is written is read again: see `again` of `read_bound`.
    ensures readable { IsOk result → IsReadable bound.now.problem bound.now }
{
    let entries = bound.entries();
    append_first_line(out, entries.len())?;
    for entry in entries {
        entry.append(out)?;
    }
    out.extend_from_slice(b"end\n")?;
    Ok(())
}

/// The text of a bound, version 1: the line `bound 1 K` with the number of its entries; a line
/// `BOUND SFEN` for each entry; and the line `end`. Each line ends with a line feed. Numbers are
/// decimal digits without a leading zero, and positions are written as [`sfen_text::write_sfen`]
/// does. Errors: want of memory alone.
pub fn write_bound(alloc: Global, bound: &Bound) -> Result<Vec<u8>, AllocError>
    requires { bound.now.version ≡ One }
    ensures text { IfOk result (λ text. text.items ≡ bound_text bound.now) }
    // What is written is read again: see `again` of `read_bound`.
    ensures readable { IsOk result → IsReadable bound.now.problem bound.now }
{
    let mut text = Vec::new(alloc);
    append_bound(&mut text, bound)?;
    Ok(text)
}
