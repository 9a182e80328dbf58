// What a line is cut to.
ghost use Rattle.std.specs.Prelude.{◌≡◌, ◌<◌, ◌==◌, ◌∷◌, length};
ghost use Rattle.std.specs.List.{list_all};
ghost use Rattle.std.specs.Str.Lines.{lines, strip_carriage_return};
ghost use Rattle.problem_lines.specs.Lines.{without_remark, remark_of, is_skipped};

use memchr::memchr;

fn without_return(line: &[u8]) -> &[u8]
    ensures { result.now ≡ strip_carriage_return line.now }
{
    match line {
        [front @ .., b'\r'] => front,
        _ => line,
    }
}

/// The first line of a text that isn't empty, without its end, and the text behind it.
pub(crate) fn split_first(text: &[u8]) -> (&[u8], &[u8])
    requires { 0 < length text.now }
    ensures lines { lines text.now ≡ result.0.now ∷ lines result.1.now }
    ensures shorter { length result.1.now < length text.now }
{
    match memchr(b'\n', text) {
        Some(end) => (without_return(&text[..end]), &text[end + 1..]),
        None => (text, &text[text.len()..]),
    }
}

/// A line without its remark, and the remark, from its tab on; empty where there is none.
pub(crate) fn split_remark(line: &[u8]) -> (&[u8], &[u8])
    ensures content { result.0.now ≡ without_remark line.now }
    ensures remark { result.1.now ≡ remark_of line.now }
{
    match memchr(b'\t', line) {
        Some(tab) => (&line[..tab], &line[tab..]),
        None => (line, &line[line.len()..]),
    }
}

fn is_blank(content: &[u8]) -> bool
    ensures { result ≡ list_all (λ byte. byte == 32) content.now }
{
    content.iter().all(|byte| *byte == b' ')
}

/// Whether a line without its remark is skipped.
pub(crate) fn is_skipped(content: &[u8]) -> bool
    ensures { result ≡ is_skipped content.now }
{
    is_blank(content) || content.starts_with(b"#")
}
