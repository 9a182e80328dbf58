// Texts that collections printed, and the verdicts that are found in them.
use crate::same::{same, shown};
use cert_text::Claim;
use collection_text::ToldLines;
use std::alloc::{AllocError, Global};
use std::test::Fail;

// What is found in a text: of each line that tells a verdict its number, what it claims, and the
// text of its certificate between `<` and `>`.
fn found(alloc: Global, text: &[u8]) -> Result<Vec<u8>, AllocError> {
    let mut told = Vec::new(alloc);
    let mut lines = ToldLines::new(text);
    while let Some(line) = lines.next() {
        told.extend_from_slice(line.number)?;
        let claim = match line.claim {
            Claim::Mate => b" mate<".as_slice(),
            Claim::Escape => b" escape<".as_slice(),
        };
        told.extend_from_slice(claim)?;
        told.extend_from_slice(line.certificate)?;
        told.push(b'>')?;
    }
    Ok(told)
}

// A text, and what is found in it.
static FOUND: [(&str, &str); 20] = [
    ("", ""),
    ("problems 0 mate 0 nomate 0 unknown 0 fault 0\n", ""),
    // Behind each verdict its certificate, up to the line `end`.
    (
        "1 mate G*5b\ncertificate\nend\n2 nomate\ncertificate 2\nx\nend\nproblems 2 mate\n",
        "1 mate<certificate\nend\n>2 escape<certificate 2\nx\nend\n>",
    ),
    // Faults and what is unknown have none, and what stands outside certificates is passed by.
    (
        "1 unknown expansions 5\n2 fault bad row at 0\nx\n# y\n7 nomate\na\nend\n",
        "7 escape<a\nend\n>",
    ),
    // A remark may stand behind the verdict.
    (
        "12 nomate\tA title mate\na\nend\n3 mate G*5b\tB\tC\nb\nend\n",
        "12 escape<a\nend\n>3 mate<b\nend\n>",
    ),
    ("3\tnomate\na\nend\n", ""),
    // Parts one behind the other.
    (
        "1 nomate\na\nend\nproblems 1 mate 0\n1 nomate\nb\nend\nproblems 1 mate 0\n",
        "1 escape<a\nend\n>1 escape<b\nend\n>",
    ),
    // Where no line `end` comes before, it goes up to where the next ending is told.
    (
        "1 nomate\n2 nomate\na\nend\n",
        "1 escape<>2 escape<a\nend\n>",
    ),
    ("1 nomate\na\n2 mate G*5b\n", "1 escape<a\n>2 mate<>"),
    ("1 nomate\na\n2 unknown stopped\nb\nend\n", "1 escape<a\n>"),
    ("1 nomate\na\n2 fault too long\nb\nend\n", "1 escape<a\n>"),
    ("1 nomate\na\nx mate\nb\nend\n", "1 escape<a\n>"),
    ("1 nomate\na\nb", "1 escape<a\nb>"),
    ("1 nomate", "1 escape<>"),
    // The line `end` is just that.
    (
        "1 nomate\na\nend \nend\r\nend",
        "1 escape<a\nend \nend\r\nend>",
    ),
    // The first word is a number, and one space stands behind it.
    ("x nomate\nnomate\n-1 nomate\n+1 nomate\n1x nomate\n", ""),
    ("1  nomate\n 1 nomate\n1\n", ""),
    ("007 nomate\n", "007 escape<>"),
    // A carriage return ends a word, as a line's end does.
    ("1 nomate\r\na\r\n2 mate\r\n", "1 escape<a\r\n>2 mate<>"),
    ("1 nomates\n1 mated\n1 Mate\n1 mate\n", "1 mate<>"),
];

#[test]
fn verdicts_are_found_with_their_certificates(rt: HostRuntime) -> Result<(), Fail> {
    for (text, wanted) in FOUND {
        let found = found(rt.alloc(), text.as_bytes())?;
        same(&rt, text, shown(&found), wanted);
    }
    Ok(())
}
