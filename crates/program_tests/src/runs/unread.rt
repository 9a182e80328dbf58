// Words that are refused or ask for help, and the file that words name.
use super::examples::GOLD;
use super::seen::seen_of;
use crate::lines::words_of;
use crate::same::same;
use std::test::Fail;
use tsume_app::{WordsRead, named_file};

// Words, the sink's failing call, the status, and a text and a part of one: where the words are
// refused the whole answer and a part of what the user is told, otherwise what the user is told and
// a part of the answer.
static UNREAD: [(&str, u64, u8, &str, &str); 16] = [
    ("", 0, 2, "", "Usage"),
    ("mate", 0, 2, "", "mate"),
    ("solve --workers 0", 0, 2, "", "1..=64"),
    ("check --kif", 0, 2, "", "--kif"),
    ("help dance", 0, 2, "", "dance"),
    ("solve a b", 0, 2, "", "'b'"),
    ("solve --rows 24", 0, 2, "", "rows is no power of two"),
    (
        "solve --shards 3 --rows 24",
        0,
        2,
        "",
        "rows is no power of two",
    ),
    ("solve --shards 3", 0, 2, "", "shards is no power of two"),
    (
        "solve --rows 16 --shards 32",
        0,
        2,
        "",
        "more shards than rows",
    ),
    ("--version", 0, 0, "", "tsume 0.1.0\n"),
    ("--help", 0, 0, "", "Usage: tsume <COMMAND>\n"),
    ("help", 0, 0, "", "Usage: tsume <COMMAND>\n"),
    (
        "solve --help",
        0,
        0,
        "",
        "Usage: tsume solve [OPTIONS] [FILE]\n",
    ),
    ("help check", 0, 0, "", "--problem <SFEN>"),
    ("help check", 2, 5, "write fault", "Checks a ce"),
];

#[test]
fn refused_words_and_help_are_told_before_anything_is_read(rt: HostRuntime) -> Result<(), Fail> {
    for (words, sink, status, text, part) in UNREAD {
        // The source would fail at its first read.
        let seen = seen_of(&rt, words, GOLD, (7, 1), (11, sink))?;
        let (fault, kept) = (seen.fault.as_str(), seen.kept.as_str());
        let (whole, partly) = if status == 2 {
            (kept, fault)
        } else {
            (fault, kept)
        };
        same(&rt, words, (seen.status, whole), (status, text));
        same(&rt, (words, partly), partly.contains(part), true);
    }
    Ok(())
}

#[test]
fn a_file_is_named_where_words_ask_for_a_command(rt: HostRuntime) -> Result<(), Fail> {
    // Words, and the file that they name; none where it is empty.
    let table = [
        ("solve", ""),
        ("solve -", ""),
        ("solve a.sfen", "a.sfen"),
        ("solve --kif a.kif", "a.kif"),
        ("check ../a_b.cert --workers 2", "../a b.cert"),
        ("check --problem 4k4/9/9/9/9/9/9/9/9_b_- a", "a"),
        // Refused, by clap, by a test after it and for the problem; and help.
        ("check --kif a.kif", ""),
        ("solve --rows 24 a.sfen", ""),
        ("check --problem 4k4/9_b_- a", ""),
        ("solve --help a.sfen", ""),
    ];
    for (line, name) in table {
        let words = WordsRead::new(rt.alloc(), words_of(rt.alloc(), line)?);
        let file = named_file(rt.alloc(), &words)?;
        let found = match &file {
            Some(path) => path.as_str(),
            None => "",
        };
        same(&rt, line, found, name);
    }
    Ok(())
}
