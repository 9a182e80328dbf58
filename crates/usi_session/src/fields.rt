// The fields of a line.
ghost use Rattle.std.specs.Prelude.{◌≡◌, ◌≢◌, ◌≤◌, ◌<◌, ◌↔◌, ◌∷◌, [], not, false, length, IsTrue, IfSome, IfNone};
ghost use Rattle.std.specs.List.{take_while};
ghost use Rattle.sfen_text.specs.Bytes.{is_space};
ghost use Rattle.std.specs.Str.Lines.{strip_carriage_return};
ghost use Rattle.usi_session.specs.Fields.{fields_of, bare, first_field, behind_field, GoesUpToMoves};
ghost use Rattle.usi_session.specs.Reading.{IsCut};

/// A line without the carriage return at its end, if it has one.
pub fn without_return(line: &[u8]) -> &[u8]
    ensures { result.now ≡ strip_carriage_return line.now }
{
    match line {
        [front @ .., b'\r'] => front,
        _ => line,
    }
}

/// Whether a field is this word.
pub fn is(field: &[u8], word: &[u8]) -> bool
    ensures { IsTrue result ↔ (field.now ≡ word.now) }
{
    field == word
}

fn leading_spaces(text: &[u8]) -> usize
    ensures count { result ≡ length (take_while is_space text.now) }
    ensures within { result ≤ length text.now }
{
    text.iter().take_while(|byte| **byte == b' ').count()
}

fn field_size(text: &[u8]) -> usize
    ensures count { result ≡ length (take_while (λ byte. not (is_space byte)) text.now) }
    ensures within { result ≤ length text.now }
{
    text.iter().take_while(|byte| **byte != b' ').count()
}

/// A text without the spaces in front.
#[tactic(auto, unfolding(crate::specs::Fields::bare))]
pub fn bare(text: &[u8]) -> &[u8]
    ensures { result.now ≡ bare text.now }
{
    &text[leading_spaces(text)..]
}

// The first field of a text, empty where it has none, and what stands behind it.
#[tactic(auto, unfolding(crate::specs::Fields::first_field, crate::specs::Fields::behind_field))]
fn cut(text: &[u8]) -> (&[u8], &[u8])
    ensures field { result.0.now ≡ first_field text.now }
    ensures behind { result.1.now ≡ behind_field text.now }
{
    let text = bare(text);
    text.split_at(field_size(text))
}

/// The first field of a text, and what stands behind it; none where it has no field.
pub fn first_field(text: &[u8]) -> Option<(&[u8], &[u8])>
    ensures fields { IfSome result (λ cut. fields_of text.now ≡ cut.0.now ∷ fields_of cut.1.now) }
    ensures none { IfNone result (fields_of text.now ≡ []) }
    ensures behind { IfSome result (λ cut. cut.1.now ≡ behind_field text.now) }
    ensures parts { IfSome result (λ parts. IsCut text.now parts.0.now parts.1.now) }
    ensures shorter { IfSome result (λ cut. length cut.1.now < length text.now) }
{
    let (field, behind) = cut(text);
    if field.is_empty() {
        return None;
    }
    Some((field, behind))
}

/// Whether a text has a field.
pub fn has_field(text: &[u8]) -> bool
    ensures some { IsTrue result → fields_of text.now ≢ [] }
    ensures none { result ≡ false → fields_of text.now ≡ [] }
{
    first_field(text).is_some()
}

/// A text up to its field `moves`, and what stands behind it; all of the text, and nothing, where
/// it has no such field.
pub fn up_to_moves(text: &[u8]) -> (&[u8], &[u8])
    ensures { GoesUpToMoves text.now result.0.now (fields_of result.1.now) }
{
    let mut rest = text;
    while let Some((field, behind)) = first_field(rest) {
        if is(field, b"moves") {
            let end = text.len() - behind.len() - 5;
            return (&text[..end], behind);
        }
        rest = behind;
    }
    (text, b"")
}
