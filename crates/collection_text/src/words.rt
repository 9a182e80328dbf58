// The words of a line.
ghost use Rattle.std.specs.Prelude.{◌≡◌};
ghost use Rattle.std.specs.List.{list_all, position};
ghost use Rattle.collection_text.specs.Words.{claim_told, ends_word, is_digit, is_end, is_number, second_word, tells_ending, word};

use cert_text::Claim;

// Where the first word of a text ends, if before the text.
fn word_end(text: &[u8]) -> Option<usize>
    ensures { result ≡ position ends_word text.now }
{
    text.iter().position(|byte| ends_word(*byte))
}

fn ends_word(byte: u8) -> bool
    ensures { result ≡ ends_word byte }
{
    matches!(byte, b' ' | b'\t' | b'\r' | b'\n')
}

/// The first word of a text.
pub(crate) fn word(text: &[u8]) -> &[u8]
    ensures { result.now ≡ word text.now }
{
    match word_end(text) {
        Some(end) => &text[..end],
        None => text,
    }
}

// The second word of a line, behind one space; empty where there is none.
fn second_word(line: &[u8]) -> &[u8]
    ensures { result.now ≡ second_word line.now }
{
    match &line[word(line).len()..] {
        [b' ', behind @ ..] => word(behind),
        _ => b"",
    }
}

fn is_digit(byte: u8) -> bool
    ensures { result ≡ is_digit byte }
{
    b'0' <= byte && byte <= b'9'
}

fn are_digits(text: &[u8]) -> bool
    ensures { result ≡ list_all is_digit text.now }
{
    text.iter().all(|byte| is_digit(*byte))
}

fn is_number(text: &[u8]) -> bool
    ensures { result ≡ is_number text.now }
{
    !text.is_empty() && are_digits(text)
}

/// Which verdict a line tells; none where it tells none.
pub(crate) fn claim_told(line: &[u8]) -> Option<Claim>
    ensures { result ≡ claim_told line.now }
{
    if !is_number(word(line)) {
        return None;
    }
    match second_word(line) {
        b"mate" => Some(Claim::Mate),
        b"nomate" => Some(Claim::Escape),
        _ => None,
    }
}

/// Whether a line tells how a problem ended, by its second word.
pub(crate) fn tells_ending(line: &[u8]) -> bool
    ensures { result ≡ tells_ending line.now }
{
    matches!(
        second_word(line),
        b"mate" | b"nomate" | b"unknown" | b"fault"
    )
}

/// Whether this is the last line of a certificate.
pub(crate) fn is_end(line: &[u8]) -> bool
    ensures { result ≡ is_end line.now }
{
    line == b"end\n".as_slice()
}
