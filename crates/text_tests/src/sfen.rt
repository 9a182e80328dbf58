use crate::same::{same, shown};
use sfen_text::{read_sfen, write_sfen};
use std::test::Fail;

// Texts, and what each stands for, written again.
#[test]
fn positions_are_read_and_written(rt: HostRuntime) {
    let table = [
        ("4k4/9/4P4/9/9/9/9/9/9 b G 1", "4k4/9/4P4/9/9/9/9/9/9 b G"),
        (
            "position sfen 4k4/9/22P4/9/9/9/9/9/9 b 1G",
            "4k4/9/4P4/9/9/9/9/9/9 b G",
        ),
        ("9/9/9/9/9/9/4p4/9/4K4 w g 1\n", "9/9/9/9/9/9/4p4/9/4K4 w g"),
        (
            " \t sfen   9/4k4/8R/9/9/9/9/9/9  b  R   1 \r\n",
            "9/4k4/8R/9/9/9/9/9/9 b R",
        ),
        (
            "4k4/9/4P4/9/9/9/9/9/9 b g2sPG12p",
            "4k4/9/4P4/9/9/9/9/9/9 b GPg2s12p",
        ),
        (
            "8l/5+b1Kn/3G5/9/3l3G1/2r6/9/9/9 w SLb",
            "8l/5+b1Kn/3G5/9/3l3G1/2r6/9/9/9 w SLb",
        ),
        (
            "position sfen 9/9/9/9/1+b6G/9/k1rs5/r8/2sN5 b 2Ng",
            "9/9/9/9/1+b6G/9/k1rs5/r8/2sN5 b 2Ng",
        ),
        (
            "lnsgkgsnl/1r5b1/ppppppppp/9/9/9/PPPPPPPPP/1B5R1/LNSGKGSNL b - 1",
            "lnsgkgsnl/1r5b1/ppppppppp/9/9/9/PPPPPPPPP/1B5R1/LNSGKGSNL b -",
        ),
    ];
    for (text, written) in table {
        let position = read_sfen(text.as_bytes()).ok().expect(&rt, text);
        let again = write_sfen(rt.alloc(), &position).expect(&rt, "memory");
        same(&rt, text, shown(&again), written);
    }
}

// Texts that stand for no position, and the first fault of each.
const FAULTS: &[(&str, &str)] = &[
    ("", "bad row at 0"),
    (" \r\n ", "bad row at 4"),
    ("4k4/9/4P5/9/9/9/9/9/9 b G 1", "bad row at 8"),
    ("4k4/9/4X4/9/9/9/9/9/9 b G 1", "bad piece at 7"),
    ("sfen 9/8k/9/9/8S/9/9/9/19 bl RBPp 2209", "bad row at 24"),
    ("9/7k/8/8S/8L/9/9/9/9 b BP2687", "bad row at 4"),
    (
        "position sfen +s3n2/9/2N6/9/8k/9/9/9/7K1 w RB 425",
        "bad row at 19",
    ),
    ("9/9/9/9/9/9/9/9/9/9 b -", "bad row at 17"),
    ("9/9/9/9/9/9/9/9 b -", "bad row at 15"),
    ("4k4/9/4+G4/9/9/9/9/9/9 b -", "bad piece at 7"),
    ("4k4/9/9+/9/9/9/9/9/9 b -", "bad piece at 7"),
    ("n8/9/K8/9/9/+b-8/5k3/9/9 w n 1876", "bad piece at 14"),
    (
        "position 3fen 9/9/9/+9/9/9/9/b8/sg5 b\t- 423",
        "bad piece at 1",
    ),
    ("position sfen", "bad piece at 1"),
    ("sfen sfen 9/9/9/9/9/9/9/9/9 b -", "bad piece at 6"),
    ("4k4/9/9/9/9/9/9/9/9 x - 1", "bad side at 20"),
    ("4k4/9/9/9/9/9/9/9/9", "bad side at 19"),
    ("7+p1/9/7n1/7k1/9/8K/9/9/9 bSP", "bad side at 26"),
    ("4k4/9/9/9/9/9/9/9/9 b", "bad hand at 21"),
    ("4k4/9/9/9/9/9/9/9/9 b 19P", "bad hand at 22"),
    ("4k4/9/9/9/9/9/9/9/9 b 0P", "bad hand at 22"),
    ("4k4/9/9/9/9/9/9/9/9 b G190P", "bad hand at 23"),
    ("4k4/9/9/9/9/9/9/9/9 b GK", "bad hand at 23"),
    ("4k4/9/9/9/9/9/9/9/9 b G-", "bad hand at 23"),
    ("sfen 1k7/1g1S5/9/9/9/9/9/9/9 b G2S1182", "bad hand at 34"),
    ("4k4/9/9/9/9/9/9/9/9 b PP", "hand twice at 23"),
    (
        "3b3r1/1s2S4/4K2p1/1+pS6/1+p7/3g1p2n/9/9/9 w RLBL",
        "hand twice at 47",
    ),
    ("4k4/9/9/9/9/9/9/9/9 b - 1 x", "trailing at 26"),
    ("4k4/9/9/9/9/9/9/9/9 b - 1234567890", "trailing at 24"),
    (
        "position sfen 9/9/2k6/p8/2S6/L8/9/9/9 b BG  215x2",
        "trailing at 44",
    ),
    ("4k4/9/4P4/9/9/9/9/9/9 b 18P 1", "too many P"),
    ("9/9/9/9/9/9/9/9/p8 b 18P 1", "too many P"),
    ("9/9/9/9/9/9/9/9/9 b - 1", "no defender king"),
    ("4k4/4k4/9/9/9/9/9/9/9 b - 1", "two kings"),
    ("4k4/9/9/9/9/9/9/9/p8 b - 1", "dead piece at 9i"),
    ("4k4/9/4P4/4P4/9/9/9/9/9 b - 1", "two pawns on file 5"),
];

#[test]
fn the_first_fault_is_named_with_its_place(rt: HostRuntime) -> Result<(), Fail> {
    for (text, wanted) in FAULTS {
        let fault = read_sfen(text.as_bytes()).err().expect(&rt, text);
        let found = format!(in rt.alloc(); "{fault}")?;
        same(&rt, text, found.as_str(), wanted);
    }
    Ok(())
}
