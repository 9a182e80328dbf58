// A text cut into stretches of whole lines.
ghost use Rattle.std.specs.Prelude.{◌≡◌, ◌≢◌, ◌++◌, [], IfSome, IfOk};
ghost use Rattle.cert_text.specs.Lines.{AreLines};
ghost use Rattle.wide_read.specs.Stretches.{IsCutInto};

use cert_text::cut;
use std::alloc::{AllocError, Global};

// The lines at the front of a text up to the first line feed behind so many bytes, and what comes
// behind them; none where nothing does.
fn first_lines(text: &[u8], size: usize) -> Option<(&[u8], &[u8])>
    ensures text { IfSome result (λ parts. text.now ≡ parts.0.now ++ parts.1.now) }
    ensures some { IfSome result (λ parts. parts.0.now ≢ []) }
    ensures lines { IfSome result (λ parts. AreLines parts.0.now) }
    ensures more { IfSome result (λ parts. parts.1.now ≢ []) }
{
    if text.len() <= size {
        return None;
    }
    let (_, more) = cut(&text[size..], b'\n')?;
    if more.is_empty() {
        return None;
    }
    Some(text.split_at(text.len() - more.len()))
}

/// A text cut into stretches of about so many bytes: none is empty, and each but the last is whole
/// lines. Nothing is copied. Errors: want of memory alone.
pub(crate) fn stretches_of(
    alloc: Global,
    text: &[u8],
    size: usize,
) -> Result<Vec<&[u8]>, AllocError>
    ensures { IfOk result (λ stretches.
        IsCutInto (λ stretch lines. lines ≡ stretch.now) stretches.items text.now) }
{
    let mut stretches = Vec::new(alloc);
    let mut rest = text;
    while let Some((lines, more)) = first_lines(rest, size) {
        stretches.push(lines)?;
        rest = more;
    }
    if rest.is_empty() {
        return Ok(stretches);
    }
    stretches.push(rest)?;
    Ok(stretches)
}
