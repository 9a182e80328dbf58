// Certificates read on one thread and on several: what is read, and the first fault wherever it
// stands.
use crate::same::{same, shown};
use crate::texts::{CHASE, MATE_IN_ONE, TWO_ROOKS};
use cert_text::{CertEnd, write_cert};
use std::test::Fail;
use wide_read::read_wide;

const PIECES: [usize; 4] = [1, 2, 7, 64];

#[test]
fn a_certificate_is_read_by_any_number_of_pieces(rt: HostRuntime) -> Result<(), Fail> {
    for text in [MATE_IN_ONE, TWO_ROOKS, CHASE] {
        for pieces in PIECES {
            let certificate = read_wide(&rt, rt.alloc(), text.as_bytes(), pieces)?;
            let again = write_cert(rt.alloc(), &certificate)?;
            same(&rt, (pieces, text), shown(&again), text);
        }
    }
    Ok(())
}

// The head of an escape's certificate with six entries.
const HEAD: &str = "certificate 1 escape 6\nproblem 5k3/9/9/9/9/9/9/9/4R4 b -\n";

// Its entries, in letters, and lines that are none.
fn line_of(letter: char) -> &'static str {
    match letter {
        'a' => "4k4/9/9/9/9/9/9/9/5R3 b -\n",
        'b' => "4k4/9/9/9/9/9/9/9/9 b r\n",
        'c' => "5k3/9/9/9/9/9/9/9/4R4 b -\n",
        'd' => "5k3/9/9/9/9/9/9/9/9 b r\n",
        'e' => "9/4k4/9/9/9/9/9/9/9 b r\n",
        'f' => "9/5k3/9/9/9/9/9/9/9 b r\n",
        '.' => "end\n",
        '!' => "end",
        _ => "5k3/9/9/9/9/9/9/9/4R4 b  -\n",
    }
}

// Each fault in the first, a middle and the last stretch, where each line is one, and before
// others.
#[test]
fn the_first_fault_is_the_same_by_any_number_of_pieces(rt: HostRuntime) -> Result<(), Fail> {
    for (lines, wanted) in [
        ("xbcdef.", "bad line 1"),
        ("abcxef.", "bad line 4"),
        ("abcdex.", "bad line 6"),
        ("aacdef.", "not rising 2"),
        ("bacdef.", "not rising 2"),
        ("abdcef.", "not rising 4"),
        ("abcdfe.", "not rising 6"),
        ("abxddx.", "bad line 3"),
        ("abbxx.", "not rising 3"),
        (".abcdef.", "no end"),
        ("abc.def.", "no end"),
        ("abcdef..", "no end"),
        ("abcdef.!", "no end"),
        ("abcdef!", "no end"),
        ("abcdef", "no end"),
        ("", "no end"),
        (".", "wrong count"),
        ("abcde.", "wrong count"),
    ] {
        let mut text = format!(in rt.alloc(); "{HEAD}")?;
        for letter in lines.chars() {
            text.push_str(line_of(letter))?;
        }
        for pieces in PIECES {
            let end = read_wide(&rt, rt.alloc(), text.as_bytes(), pieces).err();
            let found = match end.expect(&rt, "a fault") {
                CertEnd::Fault(fault) => format!(in rt.alloc(); "{fault}")?,
                CertEnd::NoMemory => format!(in rt.alloc(); "no memory")?,
            };
            same(&rt, (pieces, lines), found.as_str(), wanted);
        }
    }
    Ok(())
}
