// From a note to those two steps under it.
ghost use Rattle.std.specs.Prelude.{◌≡◌, ◌++◌, OnOk, reverse, map};
ghost use Rattle.cert_extract.specs.Tree.{two_under};

use notes::Note;
use std::alloc::AllocError;

/// Puts the notes two steps under a note that carries none, where the same side is to move, each by
/// its source, on a stack, so that the first is taken from it first.
pub(crate) fn push_next<'a>(pending: &mut Vec<&'a Note>, note: &'a Note) -> Result<(), AllocError>
    ensures { OnOk result (map (λ n. n.now) pending.new.items
        ≡ map (λ n. n.now) pending.old.items ++ reverse (two_under note.entry.now)) }
{
    for between in note.under().iter().rev() {
        for next in between.source().under().iter().rev() {
            pending.push(next.source())?;
        }
    }
    Ok(())
}
