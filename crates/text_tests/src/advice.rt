use crate::same::{same, shown};
use cert_text::{CertEnd, read_cert};
use explanations::{Trouble, explain};
use kif_text::read_kif;
use sfen_text::read_sfen;
use std::process::Abort;

// The columns that a line takes: two for a Japanese character.
fn columns_of(line: &str) -> usize {
    let mut columns: usize = 0;
    for character in line.chars() {
        columns = columns.saturating_add(if character.is_ascii() { 1 } else { 2 });
    }
    columns
}

fn told(rt: &(impl Abort + AllocGlobal), trouble: Trouble, input: &[u8], wanted: &str) {
    let explanation = explain(rt.alloc(), trouble, input)
        .ok()
        .expect(rt, "memory");
    same(rt, trouble, shown(&explanation), wanted);
    for line in wanted.lines() {
        same(rt, line, columns_of(line) < 80, true);
    }
}

// Texts that are no problem, and what is told of each.
const PROBLEMS: &[(&[u8], &str)] = &[
    (
        b"9/4k4/8X/9/9/9/9/9/9 b R",
        "line 1, column 8:\n    9/4k4/8X/9/9/9/9/9/9 b R\n           ^ byte 7\nExpected: a piece (a letter of PLNSGBRK, small for White's, with + before it\nwhere it is promoted), a digit 1 to 9 for empty squares, or / between rows.\n",
    ),
    (
        b"9/4k4/9R/9/9/9/9/9/9 b R",
        "line 1, column 8:\n    9/4k4/9R/9/9/9/9/9/9 b R\n           ^ byte 7\nExpected: nine rows of nine squares each, with / between them. A digit stands\nfor so many empty squares.\n",
    ),
    (
        b"\n9/4k4/8R/9/9/9/9/9/9 B R",
        "line 2, column 22:\n    9/4k4/8R/9/9/9/9/9/9 B R\n                         ^ byte 22\nExpected: the side to move, which is the attacker: b (Black) or w (White).\n",
    ),
    (
        b"9/4k4/8R/9/9/9/9/9/9 b",
        "line 1, column 23:\n    9/4k4/8R/9/9/9/9/9/9 b\n                          ^ byte 22\nExpected: - where both hands are empty, else pieces such as R2g4p: perhaps a\ncount from 1 to 18, then a letter of RBGSNLP, capital for Black's.\n",
    ),
    (
        b"9/4k4/8R/9/9/9/9/9/9 b PP",
        "line 1, column 25:\n    9/4k4/8R/9/9/9/9/9/9 b PP\n                            ^ byte 24\nExpected: each kind once in a hand, with its count before it: 2P and not PP.\n",
    ),
    (
        b"9/4k4/8R/9/9/9/9/9/9 b R moves 1c1a",
        "line 1, column 26:\n    9/4k4/8R/9/9/9/9/9/9 b R moves 1c1a\n                             ^ byte 25\nExpected: the end, or a move number of at most nine digits. Moves aren't read.\n",
    ),
    (
        b"p1p1p1p1p/p1p1p1p1p/p1p1p1p1p/p1p1p1p1p/p1p1p1p1p/p1p1p1p1p/p1p1p1p1p/p1p1p1p1x/p1p1p1p1p b -",
        "line 1, column 79:\n    ..p1p/p1p1p1p1p/p1p1p1p1p/p1p1p1p1x/p1p1p1p1p b -\n                                      ^ byte 78\nExpected: a piece (a letter of PLNSGBRK, small for White's, with + before it\nwhere it is promoted), a digit 1 to 9 for empty squares, or / between rows.\n",
    ),
    (
        b" \r\n",
        "The input is empty. A problem is one line, an SFEN: the board, the side to\nmove, and the hands.\n",
    ),
    (
        b"\xef\xbb\xbf9/4k4/8R/9/9/9/9/9/9 b R",
        "line 1, column 1:\n    ???9/4k4/8R/9/9/9/9/9/9 b R\n    ^ byte 0\nThe text begins with a byte-order mark (the bytes EF BB BF). Save it as ASCII,\nor as UTF-8 without one.\n",
    ),
    (
        b"\xff\xfe9\x00/\x00",
        "The text looks like UTF-16. Save it as ASCII.\n",
    ),
    (
        b"# ---- Kifu for Windows ----\n",
        "This looks like a game record or a diagram. `tsume solve --kif` reads the board\ndiagram of a KIF file in UTF-8; of any other, copy the position as SFEN.\n",
    ),
    (
        b"# Two problems\n9/4k4/8R/9/9/9/9/9/9 b R\n\n9/4k4/8R/9/9/9/9/9/9 b G\n",
        "This looks like a collection of problems. `tsume collection` reads a problem in\neach line.\n",
    ),
    (
        b"# Kifu, 2020/01/01\n",
        "This looks like a game record or a diagram. `tsume solve --kif` reads the board\ndiagram of a KIF file in UTF-8; of any other, copy the position as SFEN.\n",
    ),
    (
        b"\xe5\xbe\x8c\xe6\x89\x8b\xe3\x81\xae\xe6\x8c\x81\xe9\xa7\x92\n",
        "This looks like a game record or a diagram. `tsume solve --kif` reads the board\ndiagram of a KIF file in UTF-8; of any other, copy the position as SFEN.\n",
    ),
    (
        b"\xef\xbb\xbf# KIF\r\n",
        "This looks like a game record or a diagram. `tsume solve --kif` reads the board\ndiagram of a KIF file in UTF-8; of any other, copy the position as SFEN.\n",
    ),
    (
        b"\"9/4k4/8R/9/9/9/9/9/9 b R\"",
        "line 1, column 1:\n    \"9/4k4/8R/9/9/9/9/9/9 b R\"\n    ^ byte 0\nLeave out the quotes: they are no part of an SFEN.\n",
    ),
    (
        b"position startpos",
        "line 1, column 2:\n    position startpos\n     ^ byte 1\n`startpos`, the start of a game, is no tsume problem. Give the position as an\nSFEN.\n",
    ),
    (
        b"checkmate nomate\ncertificate 1 escape 5\n",
        "line 1, column 1:\n    checkmate nomate\n    ^ byte 0\nThis looks like an answer of `tsume solve`. `tsume check` reads those; the\nproblem itself stands behind the word `problem`.\n",
    ),
    (
        b"9/4k4/8R/9/9/9/9/9/9 b R 1\n9/4k4/8R/9/9/9/9/9/9 b G 1\n",
        "line 1, column 26:\n    9/4k4/8R/9/9/9/9/9/9 b R 1\n                             ^ byte 25\nOne problem is read here, and this text has more than one line.\n`tsume collection` reads a problem in each line.\n",
    ),
    (
        b"9/4k4/8R/9/9/9/9/9/9\tb\tR\n",
        "line 1, column 21:\n    9/4k4/8R/9/9/9/9/9/9?b?R\n                        ^ byte 20\nHere stands a tab. Between the fields of an SFEN stand spaces alone.\n",
    ),
    (
        b"PPPPPPPPP/PPPPPPPPP/P3k4/9/9/9/9/9/9 b -",
        "A set has 18 P, 4 each of L, N, S and G, and 2 each of B and R: on the board,\npromoted or not, and in both hands together.\n",
    ),
    (
        b"9/9/4K4/9/9/9/9/9/9 b -",
        "The side to move attacks, so the other side needs a king. If White is the\nattacker, the side to move is w.\n",
    ),
    (
        b"9/9/4k4/9/9/9/9/9/9 w -",
        "The side to move attacks, so the other side needs a king. If Black is the\nattacker, the side to move is b.\n",
    ),
    (
        b"4k4/9/4k4/9/9/9/9/9/9 b -",
        "Each side has one king at most. The attacker, who is to move, needs none.\n",
    ),
    (
        b"4k3N/9/9/9/9/9/9/9/9 b -",
        "A pawn or lance on its last row, or a knight on its last two, could never move\nagain. Is it promoted, or the other side's?\n",
    ),
    (
        b"4k4/9/4P4/9/4P4/9/9/9/9 b -",
        "A side has at most one unpromoted pawn on a file.\n",
    ),
];

#[test]
fn a_fault_of_a_problem_is_explained(rt: HostRuntime) {
    for (input, wanted) in PROBLEMS {
        let fault = read_sfen(input).err().expect(&rt, wanted);
        told(&rt, Trouble::Problem(fault), input, wanted);
    }
}

// Texts in UTF-8 that are no diagram, and what is told of each.
const DIAGRAMS: &[(&str, &str)] = &[
    (
        "\u{feff}# KIF\r\n上手：\u{202e}a\r\n",
        "line 2:\n    上手：?a\nNames of a handicap game aren't read. Write 先手 for 下手 (Black) and 後手 for\n上手 (White), or leave the line out.\n",
    ),
    (
        "+---\n| ・ ・ ・ ・v玉 ・ ・ ・ ・|一\n# |\n| ・v歩 x ・ ・ ・ ・ ・ ・|二",
        "line 4, row 2, column 3:\n    | ・v歩 x ・ ・ ・ ・ ・ ・|二\n           ^\nExpected: a cell of two characters: a space, or v for White's; then ・ for an\nempty square, or a piece of 歩香桂銀金角飛玉王と杏圭全馬龍竜.\n",
    ),
    (
        "| ・ ・ ・ ・ ・ ・ ・ ・ ・一\n",
        "line 1, row 1, column 10:\n    | ・ ・ ・ ・ ・ ・ ・ ・ ・一\n                                ^\nExpected: the bar | behind the ninth cell.\n",
    ),
    (
        "先手の持駒：金玉銀\n後手の持駒：玉\n",
        "line 1:\n    先手の持駒：金玉銀\nExpected: behind a piece a blank, or its count from 一 to 十八, as 歩二　香\n",
    ),
    (
        "後手の持駒：なし、玉、飛、角、金、銀、桂、香、歩、なし、玉、飛、角、金、銀、桂、香、歩",
        "line 1:\n    後手の持駒：なし、玉、飛、角、金、銀、桂、香、歩、なし、玉、飛、角、金、..\nExpected: なし for an empty hand, else pieces of 歩香桂銀金角飛 with blanks\nbetween them, each perhaps with its count behind it: 飛二　歩十八\n",
    ),
    (
        "\n\n先手の持駒：金　金",
        "line 3:\n    先手の持駒：金　金\nExpected: each piece once in a hand, with its count behind it: 金二 and not\n金　金\n",
    ),
    (
        "手合割：平手\n手数----指手\n",
        "Expected: nine rows of a diagram, lines that begin with |, before the moves.\nA position is read from its diagram alone: save it with that.\n",
    ),
];

// The same of bytes.
const BYTES: &[(&[u8], &str)] = &[
    (
        b"# KIF\n\x8c\xe3\x8e\xe8",
        "line 2, column 1:\n    ????\n    ^ byte 6\nExpected: UTF-8. Many KIF files are Shift-JIS, which can be converted:\niconv -f CP932 -t UTF-8 FILE > NEW_FILE\n",
    ),
    (
        b"9/4k4/8R/9/9/9/9/9/9 b R",
        "This looks like an SFEN, which `solve`, `cook` and `shortest` read without\n--kif.\n",
    ),
    (
        b"\n",
        "The input is empty. A KIF file has a board diagram: lines that begin with |.\n",
    ),
    (
        b"\xff\xfe#\x00",
        "The text looks like UTF-16. Save it as UTF-8.\n",
    ),
    (
        b"checkmate nomate\n",
        "This looks like an answer of `tsume solve`. `tsume check` reads those; the\nproblem itself stands behind the word `problem`.\n",
    ),
];

fn told_of_diagram(rt: &(impl Abort + AllocGlobal), input: &[u8], wanted: &str) {
    let fault = read_kif(input).err().expect(rt, wanted);
    told(rt, Trouble::Diagram(fault), input, wanted);
}

#[test]
fn a_fault_of_a_diagram_is_explained(rt: HostRuntime) {
    for (input, wanted) in DIAGRAMS {
        told_of_diagram(&rt, input.as_bytes(), wanted);
    }
    for (input, wanted) in BYTES {
        told_of_diagram(&rt, input, wanted);
    }
}

#[test]
fn a_diagram_without_a_king_and_one_with_a_tenth_row_are_explained(rt: HostRuntime) {
    let row = "| ・ ・ ・ ・ ・ ・ ・ ・ ・|\n";
    let mut rows = String::new(rt.alloc());
    for _ in 0..9 {
        rows.push_str(row).ok().expect(&rt, "memory");
    }
    told_of_diagram(
        &rt,
        rows.as_bytes(),
        "The side to move attacks, so the other side needs a king. If White is the\nattacker, a line 後手番 says so.\n",
    );
    rows.push_str(row).ok().expect(&rt, "memory");
    told_of_diagram(
        &rt,
        rows.as_bytes(),
        "line 10, row 10, column 1:\n    | ・ ・ ・ ・ ・ ・ ・ ・ ・|\n     ^\nExpected: nine rows. This is a tenth line that begins with |.\n",
    );
}

// Texts that are no certificate, and what is told of each.
const CERTIFICATES: &[(&[u8], &str)] = &[
    (
        b"",
        "The input is empty. `tsume check` reads what `tsume solve` prints: did that\nend with a fault?\n",
    ),
    (
        b"checkmate timeout\nunknown expansions 1\n",
        "The search gave up, so there is no certificate, and nothing to check. The line\n`unknown ..` says what was used up: solve the problem with more of that.\n",
    ),
    (
        b"certificate 1 escape 1\r\nproblem 4k4/9/4P4/9/9/9/9/9/9 b P\r\nend\r\n",
        "line 1:\n    certificate 1 escape 1?\nEach line ends with a line feed alone, and here carriage returns stand before\nthem. Take them out: tr -d '\\r' < FILE | tsume check\n",
    ),
    (
        b"9/4k4/8R/9/9/9/9/9/9 b R\n",
        "line 1:\n    9/4k4/8R/9/9/9/9/9/9 b R\nThis looks like a problem. `tsume solve` reads problems, and prints the\ncertificates that `tsume check` reads.\n",
    ),
    (
        b"\x7fELF\x02\x01/lib/ld.so\n",
        "line 1:\n    ?ELF??/lib/ld.so\nExpected: `certificate V mate N` or `certificate V escape N`, V 1 or 2, then\n`problem` and an SFEN as `tsume solve` writes it; at most `checkmate ..` before\nthese.\n",
    ),
    (
        b"checkmate nomate\ncertificate 3 escape 1\nproblem 4k4/9/4P4/9/9/9/9/9/9 b P\nend\n",
        "line 2:\n    certificate 3 escape 1\nExpected: `certificate V mate N` or `certificate V escape N`, V 1 or 2, then\n`problem` and an SFEN as `tsume solve` writes it; at most `checkmate ..` before\nthese.\n",
    ),
    (
        b"certificate 1 escape 1\n4k4/9/4P4/9/9/9/9/9/9 b P\nend\n",
        "line 2:\n    4k4/9/4P4/9/9/9/9/9/9 b P\nExpected: `certificate V mate N` or `certificate V escape N`, V 1 or 2, then\n`problem` and an SFEN as `tsume solve` writes it; at most `checkmate ..` before\nthese.\n",
    ),
    (
        b"certificate 2 escape 1\n4k4/9/4P4/9/9/9/9/9/9 b P\nend\n",
        "line 2:\n    4k4/9/4P4/9/9/9/9/9/9 b P\nExpected: `certificate V mate N` or `certificate V escape N`, V 1 or 2, then\n`problem` and an SFEN as `tsume solve` writes it; at most `checkmate ..` before\nthese.\n",
    ),
    (
        b"certificate 1 escape 01\nproblem 4k4/9/4P4/9/9/9/9/9/9 b P\nend\n",
        "line 1:\n    certificate 1 escape 01\nExpected: `certificate V mate N` or `certificate V escape N`, V 1 or 2, then\n`problem` and an SFEN as `tsume solve` writes it; at most `checkmate ..` before\nthese.\n",
    ),
    (
        b"certificate 1 escape 1\nproblem 4k4/9/4P4/9/9/9/9/9/9 b P 1\nend\n",
        "line 2:\n    problem 4k4/9/4P4/9/9/9/9/9/9 b P 1\nExpected: `certificate V mate N` or `certificate V escape N`, V 1 or 2, then\n`problem` and an SFEN as `tsume solve` writes it; at most `checkmate ..` before\nthese.\n",
    ),
    (
        b"checkmate nomate\ncertificate 1 escape 1\nproblem 4k4/9/4X4/9/9/9/9/9/9 b P\nend\n",
        "line 3:\n    problem 4k4/9/4X4/9/9/9/9/9/9 b P\nExpected: `certificate V mate N` or `certificate V escape N`, V 1 or 2, then\n`problem` and an SFEN as `tsume solve` writes it; at most `checkmate ..` before\nthese.\n",
    ),
    (
        b"# Two problems\n9/4k4/8R/9/9/9/9/9/9 b R\n",
        "This looks like a collection of problems. `tsume collection --certificates`\nprints the certificates of its problems, and `tsume check` reads one of them.\n",
    ),
    (
        b"checkmate nomate\ncertificate 1 escape 1\nproblem 4k4/9/4P4/9/9/9/9/9/9 b P\n4k4/9/4P4/9/9/9/9/9/9 b P 1\nend\n",
        "line 4:\n    4k4/9/4P4/9/9/9/9/9/9 b P 1\nExpected: `end`, or an entry of this certificate's kind, just as `tsume solve`\nwrites it: RANK MOVE SFEN of a mate, SFEN of an escape.\n",
    ),
    (
        b"certificate 1 escape 1\nproblem 4k4/9/4P4/9/9/9/9/9/9 b P\n4k4/9/4P4/9/9/9/9/9/9 b P\r\nend\n",
        "line 3:\n    4k4/9/4P4/9/9/9/9/9/9 b P?\nEach line ends with a line feed alone, and here carriage returns stand before\nthem. Take them out: tr -d '\\r' < FILE | tsume check\n",
    ),
    (
        b"certificate 1 escape 2\nproblem 4k4/9/4P4/9/9/9/9/9/9 b P\n4k4/9/4P4/9/9/9/9/9/9 b P\n4k4/9/4P4/9/9/9/9/9/9 b P\nend\n",
        "line 4:\n    4k4/9/4P4/9/9/9/9/9/9 b P\nThe entries rise by the bytes of their SFEN, and this one doesn't come behind\nthe one before it. Sort them so, and list none twice.\n",
    ),
    (
        b"certificate 1 escape 2\nproblem 4k4/9/4P4/9/9/9/9/9/9 b P\n4k4/9/4P4/9/9/9/9/9/9 b P\nend\n",
        "The number at the end of the line `certificate ..` isn't the number of entries.\n",
    ),
    (
        b"certificate 1 escape 1\nproblem 4k4/9/4P4/9/9/9/9/9/9 b P\n4k4/9/4P4/9/9/9/9/9/9 b P\n",
        "Expected: the line `end` as the last one, and nothing behind it. Was the text\ncut off, or is there more than one certificate?\n",
    ),
];

#[test]
fn a_fault_of_a_certificate_is_explained(rt: HostRuntime) {
    for (input, wanted) in CERTIFICATES {
        let fault = match read_cert(rt.alloc(), input) {
            Err(CertEnd::Fault(fault)) => Some(fault),
            Ok(_) | Err(CertEnd::NoMemory) => None,
        };
        let fault = fault.expect(&rt, wanted);
        told(&rt, Trouble::Certificate(fault), input, wanted);
    }
}

// What is told first of words that are refused, and what is told behind it.
const WORDS: &[(&str, &str)] = &[
    (
        "error: unexpected argument 'b' found\n\nUsage: tsume solve [OPTIONS] [FILE]\n",
        "An SFEN is read from standard input or from a file, and is no word of the line:\necho '9/4k4/8R/9/9/9/9/9/9 b R' | tsume solve\n",
    ),
    (
        "error: unexpected argument 'sfen' found\n",
        "An SFEN is read from standard input or from a file, and is no word of the line:\necho '9/4k4/8R/9/9/9/9/9/9 b R' | tsume solve\n",
    ),
    ("error: unexpected argument 'x' found\n", ""),
    (
        "error: invalid value '5s' for '--deadline <MS>': invalid digit found in string\n",
        "Expected: milliseconds, in digits alone. Five seconds are --deadline 5000\n",
    ),
    (
        "error: invalid value '1e9' for '--expansions <N>': invalid digit found in string\n",
        "Expected: digits alone, with no unit, comma or exponent. A million is 1000000.\n",
    ),
    (
        "error: invalid value '0' for '--workers <N>': 0 is not in 1..=64\n",
        "",
    ),
    (
        "error: unexpected argument '--threads' found\n\nUsage: tsume solve --shards <N> [FILE]\n",
        "`tsume solve` searches one problem with --workers N, a thread each.\n",
    ),
    (
        "error: unexpected argument '--threads' found\n\nUsage: tsume check [OPTIONS] [FILE]\n",
        "`tsume check` judges with --workers N, a thread each.\n",
    ),
    (
        "error: unexpected argument '--workers' found\n\nUsage: tsume shortest [OPTIONS] [FILE]\n",
        "`tsume shortest` searches with one worker.\n",
    ),
    (
        "error: unexpected argument '--workers' found\n\nUsage: tsume collection [OPTIONS] [FILE]\n",
        "`tsume collection` searches each problem with one worker, and decides\n--threads N problems side by side.\n",
    ),
    (
        "error: unexpected argument '--workers' found\n\nUsage: tsume survey [OPTIONS]\n",
        "`tsume survey` takes as many threads as there are processors, 32 at most.\n",
    ),
    (
        "error: unexpected argument '--kif' found\n\nUsage: tsume collection [OPTIONS] [FILE]\n",
        "`tsume collection` reads SFEN alone. `tsume solve --kif` reads one KIF file.\n",
    ),
    (
        "error: unexpected argument '--kif' found\n\nUsage: tsume check [OPTIONS] [FILE]\n",
        "",
    ),
    ("rows is no power of two", ""),
];

#[test]
fn words_that_are_refused_are_explained(rt: HostRuntime) {
    for (input, wanted) in WORDS {
        told(&rt, Trouble::Words, input.as_bytes(), wanted);
    }
}

// Texts that the words give for a certificate's problem, and what is told of each.
const ASKED: &[(&str, &str)] = &[
    (
        "problem.sfen",
        "--problem takes an SFEN itself, in quotes, and not the name of its file:\ntsume check --problem \"$(cat PROBLEM)\" CERTIFICATE\n",
    ),
    (
        "4k4/9/4P4/9/9/9/9/9/9 w G",
        "The side to move attacks, so the other side needs a king.\n",
    ),
    (
        "4k4/9/4P4/9/4P4/9/9/9/9 b -",
        "A side has at most one unpromoted pawn on a file.\n",
    ),
];

#[test]
fn a_problem_in_the_words_is_explained(rt: HostRuntime) {
    for (input, wanted) in ASKED {
        let fault = read_sfen(input.as_bytes()).err().expect(&rt, wanted);
        told(&rt, Trouble::Asked(fault), &[], wanted);
    }
}

// How collections begin, and what is told of each.
const FRONTS: &[(&str, &str)] = &[
    (
        "# KIF\n手合割：平手\n",
        "tsume: this looks like a game record or a diagram. `collection` reads an SFEN\nin each line; `tsume solve --kif` reads the board diagram of a KIF file.\n",
    ),
    (
        "後手の持駒：なし\n+---------------------------+\n",
        "tsume: this looks like a game record or a diagram. `collection` reads an SFEN\nin each line; `tsume solve --kif` reads the board diagram of a KIF file.\n",
    ),
    ("9/4k4/8R/9/9/9/9/9/9 b R\t手数 3\nx\n", ""),
    ("# 手合割\n\nx\n", ""),
    ("", ""),
];

#[test]
fn a_record_that_is_given_as_a_collection_is_told(rt: HostRuntime) {
    for (input, wanted) in FRONTS {
        told(&rt, Trouble::Collection, input.as_bytes(), wanted);
    }
}

#[test]
fn what_else_ends_a_run_is_explained(rt: HostRuntime) {
    let rows = [
        (
            Trouble::DefenderInCheck,
            "The side to move attacks, and the other king is in check already: no legal move\nled here. Is the other side to move?\n",
        ),
        (
            Trouble::TooLong,
            "A problem has at most 65,536 bytes, a collection 16,777,216, and a certificate\n268,435,456. Is this the right input?\n",
        ),
        (
            Trouble::Write,
            "The answer couldn't be written whole, so don't rely on what stands there of it.\nIs the disk full, or did the reader of a pipe end?\n",
        ),
        (
            Trouble::NoMemory,
            "Memory was wanted and not there. `solve`, `cook` and `collection` want less of\nit with fewer --rows and less --room, `collection` also with fewer --threads,\nand `shortest` with fewer --expansions.\n",
        ),
    ];
    for (trouble, wanted) in rows {
        told(&rt, trouble, b"", wanted);
    }
}
