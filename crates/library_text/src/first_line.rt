// The first line of a library's text.
ghost use Rattle.std.specs.Prelude.{◌≡◌, ◌≤◌, ◌↔◌, ℕ, List, IsTrue, IfSome, IfNone, codes};
ghost use Rattle.std.specs.Fmt.{decimal};
ghost use Rattle.library_text.specs.declared.limits.TheConstants.{MOST_CERTIFICATES};
ghost use Rattle.library_text.specs.Reading.{BeginsWith};

use crate::MOST_CERTIFICATES;
use cert_text::{behind, cut, number_of_text};

fn is_zero(text: &[u8]) -> bool
    ensures { IsTrue result ↔ (text.now ≡ codes "0") }
{
    text == b"0".as_slice()
}

// The number of certificates whose text it is, without a leading zero.
fn count_of(text: &[u8]) -> Option<u32>
    ensures few { IfSome result (λ count. count ≤ MOST_CERTIFICATES) }
    ensures text { IfSome result (λ count. text.now ≡ decimal count) }
    ensures none { IfNone result ((count : ℕ) → count ≤ MOST_CERTIFICATES → text.now
        ≡ decimal count → ⊥) }
{
    if is_zero(text) {
        return Some(0);
    }
    number_of_text(text, MOST_CERTIFICATES)
}

// The number of certificates that the first line tells, and what stands behind that line.
pub(crate) fn begun(text: &[u8]) -> Option<(u32, &[u8])>
    ensures found { IfSome result (λ parts. BeginsWith parts.0 parts.1.now text.now) }
    ensures none { IfNone result ((count : ℕ) (rest : List ℕ)
        → BeginsWith count rest text.now → ⊥) }
{
    let Some((first, rest)) = cut(text, b'\n') else {
        return None;
    };
    let Some(digits) = behind(first, b"library 1 ") else {
        return None;
    };
    let Some(count) = count_of(digits) else {
        return None;
    };
    Some((count, rest))
}
