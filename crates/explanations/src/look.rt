// What a text that isn't what was expected looks like.
use memchr::memmem;

/// What a text looks like.
#[derive(Clone, Copy, PartialEq, Eq, Debug)]
pub(crate) enum Look {
    /// Nothing but blanks.
    Blank,
    /// One that begins with a byte-order mark, and is no record.
    ByteOrderMark,
    /// UTF-16.
    Utf16,
    /// The answer that a search gave up.
    GaveUp,
    /// Another answer, or a certificate.
    Answer,
    /// The same with carriage returns before its line feeds.
    AnswerWithReturns,
    /// A game record or a diagram (KIF, KI2, BOD, CSA).
    Record,
    /// A collection that begins with a remark: a problem stands in one of its lines.
    Collection,
    /// One in quotes.
    Quoted,
    /// The word for the start of a game (USI protocol: `startpos`).
    Start,
    /// An SFEN, or anything else.
    Other,
}

/// Whether this word stands anywhere in the text.
pub(crate) fn holds(text: &[u8], word: &[u8]) -> bool {
    memmem::find(text, word).is_some()
}

// Whether it is UTF-16, by its byte-order mark or by a zero byte at its front.
fn is_utf16(text: &[u8]) -> bool {
    text.starts_with(b"\xff\xfe")
        || text.starts_with(b"\xfe\xff")
        || text.iter().take(2).any(|byte| *byte == 0)
}

// Words that stand in records and diagrams, in ASCII, UTF-8 and Shift JIS (in Japanese: handicap,
// in hand, moves to come).
const WORDS_OF_RECORDS: [&[u8]; 8] = [
    b"+----",
    b"P1-",
    b"\xe6\x89\x8b\xe5\x90\x88\xe5\x89\xb2",
    b"\xe6\x8c\x81\xe9\xa7\x92",
    b"\xe6\x89\x8b\xe6\x95\xb0",
    b"\x8e\xe8\x8d\x87\x8a\x84",
    b"\x8e\x9d\x8b\xee",
    b"\x8e\xe8\x90\x94",
];

fn has_words_of_records(text: &[u8]) -> bool {
    text.starts_with(b"V2") || WORDS_OF_RECORDS.iter().any(|word| holds(text, word))
}

fn begins_as_record(line: &[u8]) -> bool {
    WORDS_OF_RECORDS.iter().any(|word| line.starts_with(word))
}

/// Whether a line begins as those of records and diagrams do.
pub(crate) fn has_line_of_record(text: &[u8]) -> bool {
    text.split(|byte| *byte == b'\n')
        .any(|line| begins_as_record(line))
}

fn is_record(text: &[u8]) -> bool {
    text.starts_with(b"#") || has_words_of_records(text)
}

/// Whether the line may be a problem's: printable ASCII and tabs, with a `/`, as stands between an
/// SFEN's rows.
pub(crate) fn is_like_problem(line: &[u8]) -> bool {
    let line = line.trim_ascii_end();
    holds(line, b"/") && line.iter().all(|byte| matches!(*byte, b'\t' | b' '..=b'~'))
}

// Whether the line is a remark's, as collections and records have them.
fn is_remark(line: &[u8]) -> bool {
    line.starts_with(b"#")
}

fn is_collection(text: &[u8]) -> bool {
    is_remark(text)
        && !has_words_of_records(text)
        && text
            .split(|byte| *byte == b'\n')
            .any(|line| !is_remark(line) && is_like_problem(line))
}

fn is_quoted(text: &[u8]) -> bool {
    text.starts_with(b"\"") || text.starts_with(b"'") || text.starts_with(b"`")
}

fn answer_look(text: &[u8]) -> Look {
    if text.starts_with(b"checkmate timeout") {
        return Look::GaveUp;
    }
    if holds(text, b"\r") {
        return Look::AnswerWithReturns;
    }
    Look::Answer
}

// What a text behind a byte-order mark looks like.
fn marked_look(text: &[u8]) -> Look {
    if is_record(text) {
        return Look::Record;
    }
    Look::ByteOrderMark
}

/// What a text looks like.
pub(crate) fn look_of(text: &[u8]) -> Look {
    if let Some(text) = text.strip_prefix(b"\xef\xbb\xbf") {
        return marked_look(text);
    }
    if is_utf16(text) {
        return Look::Utf16;
    }
    let text = text.trim_ascii();
    if text.is_empty() {
        return Look::Blank;
    }
    if text.starts_with(b"checkmate") || text.starts_with(b"certificate") {
        return answer_look(text);
    }
    if is_collection(text) {
        return Look::Collection;
    }
    if is_record(text) {
        return Look::Record;
    }
    if is_quoted(text) {
        return Look::Quoted;
    }
    if holds(text, b"startpos") {
        return Look::Start;
    }
    Look::Other
}
