// Texts, and the lines that are listed of them.
ghost use Rattle.std.specs.Prelude.{◌≤◌, ◌^◌};

use crate::same::{same, shown};
use problem_lines::{Lines, MOST_PROBLEM_BYTES};
use std::alloc::{AllocError, Global};
use std::process::Abort;
use std::test::Fail;

// What is listed of a text: of each line its number, `!` where it is too long, and its problem
// between `<` and `>`.
fn listed(alloc: Global, text: &[u8]) -> Result<Vec<u8>, AllocError> {
    let mut told = Vec::new(alloc);
    let mut lines = Lines::new(text, 1);
    while let Some(line) = lines.next() {
        let mark = if line.is_too_long { "!" } else { "" };
        told.extend_from_slice(format!(in alloc; "{}{mark}<", line.number)?.as_bytes())?;
        told.extend_from_slice(line.content)?;
        told.push(b'>')?;
    }
    Ok(told)
}

fn check(
    rt: &impl Abort,
    alloc: Global,
    row: &str,
    text: &[u8],
    wanted: &str,
) -> Result<(), AllocError> {
    let found = listed(alloc, text)?;
    same(rt, row, shown(&found), wanted);
    Ok(())
}

#[test]
fn ends_of_lines_are_told_from_their_bytes(rt: HostRuntime) -> Result<(), Fail> {
    let rows: [(&[u8], &str); 12] = [
        (b"", ""),
        (b"a", "1<a>"),
        (b"a\n", "1<a>"),
        (b"a\r\n", "1<a>"),
        (b"a\nb", "1<a>2<b>"),
        (b"a\r\nb\r\n", "1<a>2<b>"),
        // One carriage return before a line feed is dropped, and any other stays.
        (b"a\r\r\n", "1<a\r>"),
        (b"a\rb\n", "1<a\rb>"),
        (b"a\r", "1<a\r>"),
        (b"\r", "1<\r>"),
        (b"a\n\rb", "1<a>2<\rb>"),
        (b"a\n\n", "1<a>"),
    ];
    for (text, wanted) in rows {
        check(&rt, rt.alloc(), shown(text), text, wanted)?;
    }
    Ok(())
}

#[test]
fn notes_and_skipped_lines_hold_no_problem(rt: HostRuntime) -> Result<(), Fail> {
    let rows: [(&[u8], &str); 14] = [
        (b"\n\na\n", "3<a>"),
        (b"\r\na", "2<a>"),
        (b"   \n \na", "3<a>"),
        (b"# a\na\n#\n#\tb\nb", "2<a>5<b>"),
        (b" # a", "1< # a>"),
        (b" a ", "1< a >"),
        // What begins with a tab is a remark; a line with nothing but spaces before it is skipped.
        (b"a\tx", "1<a>"),
        (b"a\tx\ty\nb\t\n", "1<a>2<b>"),
        (b"a \tx", "1<a >"),
        (b"\tx\na", "2<a>"),
        (b"  \tx\r\na", "2<a>"),
        (b"a\t# x\n", "1<a>"),
        (b"a\tx\r", "1<a>"),
        (
            b"4k4/9/4P4/9/9/9/9/9/9 b G 1\n\n# two rooks\n9/4k4/8R/9/9/9/9/9/9 b R\tx\n4k4/9/4X4/9/9/9/9/9/9 b G",
            "1<4k4/9/4P4/9/9/9/9/9/9 b G 1>4<9/4k4/8R/9/9/9/9/9/9 b R>5<4k4/9/4X4/9/9/9/9/9/9 b G>",
        ),
    ];
    for (text, wanted) in rows {
        check(&rt, rt.alloc(), shown(text), text, wanted)?;
    }
    Ok(())
}

// What is listed of a text whose first line has this number: of each line its number, and its
// problem and its remark between brackets.
fn listed_from(alloc: Global, first: u64, text: &[u8]) -> Result<Vec<u8>, AllocError>
    requires { first ≤ 2 ^ 63 }
{
    let mut told = Vec::new(alloc);
    let mut lines = Lines::new(text, first);
    while let Some(line) = lines.next() {
        told.extend_from_slice(format!(in alloc; "{}<", line.number)?.as_bytes())?;
        told.extend_from_slice(line.content)?;
        told.extend_from_slice(b"><")?;
        told.extend_from_slice(line.remark)?;
        told.push(b'>')?;
    }
    Ok(told)
}

fn check_from(
    rt: &impl Abort,
    alloc: Global,
    first: u64,
    text: &[u8],
    wanted: &str,
) -> Result<(), AllocError>
    requires { first ≤ 2 ^ 63 }
{
    let found = listed_from(alloc, first, text)?;
    same(rt, (first, shown(text)), shown(&found), wanted);
    Ok(())
}

#[test]
fn a_remark_is_all_from_the_first_tab_on(rt: HostRuntime) -> Result<(), Fail> {
    let rows: [(&[u8], &str); 9] = [
        (b"a", "1<a><>"),
        (b"a\tx\n", "1<a><\tx>"),
        (b"a\t\nb\tx", "1<a><\t>2<b><\tx>"),
        (b"a\tx\ty\n", "1<a><\tx\ty>"),
        (b"a\t\tx", "1<a><\t\tx>"),
        (b"a \t # x \n", "1<a ><\t # x >"),
        // The end of the line is no part of it; any other carriage return is.
        (b"a\tx\r\n", "1<a><\tx>"),
        (b"a\tx\r", "1<a><\tx\r>"),
        // A remark of a skipped line is told with none.
        (b"#\tx\n\ty\na", "3<a><>"),
    ];
    for (text, wanted) in rows {
        check_from(&rt, rt.alloc(), 1, text, wanted)?;
    }
    Ok(())
}

#[test]
fn lines_count_from_the_first_ones_number(rt: HostRuntime) -> Result<(), Fail> {
    let alloc = rt.alloc();
    check_from(&rt, alloc, 2, b"a\n\n#\nb", "2<a><>5<b><>")?;
    check_from(&rt, alloc, 0, b"\na", "1<a><>")?;
    let most = b"\na\tx";
    check_from(&rt, alloc, 1_000_000_000, most, "1000000001<a><\tx>")?;
    let most = "9223372036854775809<a><\tx>";
    check_from(&rt, alloc, 1 << 63, b"\na\tx", most)?;
    Ok(())
}

// The front, so many bytes of one kind, and the back.
fn padded(
    alloc: Global,
    front: &[u8],
    byte: u8,
    count: usize,
    back: &[u8],
) -> Result<Vec<u8>, AllocError> {
    let mut text = vec![in alloc; byte; count]?;
    text.extend_from_slice(back)?;
    let mut whole = Vec::from_slice(alloc, front)?;
    whole.extend_from_slice(&text)?;
    Ok(whole)
}

#[test]
fn a_line_of_too_many_bytes_is_told(rt: HostRuntime) -> Result<(), Fail> {
    let alloc = rt.alloc();
    // The front of the text, how often a byte follows, what stands behind, and what is listed of it
    // but for that byte.
    let rows: [(&[u8], u8, usize, &[u8], &str); 8] = [
        (b"", b'a', MOST_PROBLEM_BYTES, b"\nb", "1<>2<b>"),
        (b"", b'a', MOST_PROBLEM_BYTES, b"\r\nb", "1<>2<b>"),
        (b"", b'a', MOST_PROBLEM_BYTES + 1, b"\nb", "1!<>2<b>"),
        (b"", b'a', MOST_PROBLEM_BYTES, b"\r", "1!<\r>"),
        // A remark counts; what is skipped may be longer.
        (b"c\t", b'a', MOST_PROBLEM_BYTES - 2, b"\nb", "1<c>2<b>"),
        (b"c\t", b'a', MOST_PROBLEM_BYTES - 1, b"\nb", "1!<c>2<b>"),
        (b"# ", b'a', MOST_PROBLEM_BYTES, b"\nb", "2<b>"),
        (b"", b' ', MOST_PROBLEM_BYTES + 1, b"\nb", "2<b>"),
    ];
    for (front, byte, count, back, wanted) in rows {
        let text = padded(alloc, front, byte, count, back)?;
        let mut told = listed(alloc, &text)?;
        told.retain(|b| *b != b'a');
        let row = (shown(front), count, shown(back));
        same(&rt, row, shown(&told), wanted);
    }
    Ok(())
}

#[test]
fn a_text_of_many_line_feeds_is_read_through(rt: HostRuntime) -> Result<(), Fail> {
    let alloc = rt.alloc();
    let text = padded(alloc, b"", b'\n', 16_777_215, b"a")?;
    check(&rt, alloc, "line feeds", &text, "16777216<a>")?;
    Ok(())
}
