// A text by its lines, each with its end.
ghost use Rattle.std.specs.Prelude.{◌≡◌, ◌<◌, ◌∷◌, ◌++◌, length};
ghost use Rattle.std.specs.List.{concat};
ghost use Rattle.collection_text.specs.Lines.{certificate_lines, whole_lines};

use crate::words::{is_end, tells_ending};
use memchr::memchr;

/// The first line of a text that isn't empty, with its end, and the text behind it.
pub(crate) fn split_first(text: &[u8]) -> (&[u8], &[u8])
    requires { 0 < length text.now }
    ensures lines { whole_lines text.now ≡ result.0.now ∷ whole_lines result.1.now }
    ensures text { text.now ≡ result.0.now ++ result.1.now }
    ensures shorter { length result.1.now < length text.now }
{
    match memchr(b'\n', text) {
        Some(end) => (&text[..end + 1], &text[end + 1..]),
        None => (text, &text[text.len()..]),
    }
}

/// The text of the certificate that stands behind a line that tells a verdict.
pub(crate) fn certificate_behind(text: &[u8]) -> &[u8]
    ensures { result.now ≡ concat (certificate_lines (whole_lines text.now)) }
{
    let mut rest = text;
    while !rest.is_empty() {
        let (line, behind) = split_first(rest);
        if tells_ending(line) {
            break;
        }
        rest = behind;
        if is_end(line) {
            break;
        }
    }
    &text[..text.len() - rest.len()]
}
