use crate::same::{same, shown};
use kif_text::read_kif;
use sfen_text::write_sfen;
use std::alloc::Global;
use std::process::Abort;
use std::test::Fail;

// A mate in one: the white king on 5a, a black pawn on 5c, a gold in Black's hand. The lines are
// the comment, White's hand, the files, the frame, the rows a to i in the lines 5 to 13, the frame,
// Black's hand in line 15, and the first line of the moves.
pub const DIAGRAM: &str = "# KIF
後手の持駒：なし
  ９ ８ ７ ６ ５ ４ ３ ２ １
+---------------------------+
| ・ ・ ・ ・v玉 ・ ・ ・ ・|一
| ・ ・ ・ ・ ・ ・ ・ ・ ・|二
| ・ ・ ・ ・ 歩 ・ ・ ・ ・|三
| ・ ・ ・ ・ ・ ・ ・ ・ ・|四
| ・ ・ ・ ・ ・ ・ ・ ・ ・|五
| ・ ・ ・ ・ ・ ・ ・ ・ ・|六
| ・ ・ ・ ・ ・ ・ ・ ・ ・|七
| ・ ・ ・ ・ ・ ・ ・ ・ ・|八
| ・ ・ ・ ・ ・ ・ ・ ・ ・|九
+---------------------------+
先手の持駒：金
手数----指手---------消費時間--
";

const SFEN: &str = "4k4/9/4P4/9/9/9/9/9/9 b G";

// What the diagram with one text in place of another stands for, as SFEN, or its fault.
fn check(rt: &impl Abort, alloc: Global, old: &str, new: &str, wanted: &str) -> Result<(), Fail> {
    let text = DIAGRAM.replace(alloc, old, new)?;
    match read_kif(text.as_str().as_bytes()) {
        Ok(position) => {
            let sfen = write_sfen(alloc, &position)?;
            same(rt, (old, new), shown(&sfen), wanted);
        }
        Err(fault) => {
            let found = format!(in alloc; "{fault}")?;
            same(rt, (old, new), found.as_str(), wanted);
        }
    }
    Ok(())
}

// Texts in place of others, and what the diagram stands for then.
const WAYS: &[(&str, &str, &str)] = &[
    ("# KIF", "\u{feff}# KIF", SFEN),
    ("\n", "\r\n", SFEN),
    ("手数----指手---------消費時間--\n", "", SFEN),
    ("消費時間--\n", "消費時間--", SFEN),
    ("消費時間--\n", "\n| x\n上手：\n先手の持駒：x", SFEN),
    ("# KIF", "*後手番", SFEN),
    ("# KIF", "#後手番", SFEN),
    ("# KIF", " 後手番", SFEN),
    ("# KIF", "手合割：平手\n\n先手：a\n後手：b", SFEN),
    ("# KIF", "後手番\n先手番", SFEN),
    ("# KIF", "手番：後手\n手番：先手", SFEN),
    ("v玉", "v王", SFEN),
    (
        "v玉 ・ ・ ・ ・|一",
        " 玉 ・ ・ ・ ・|一\n後手番",
        "4K4/9/4P4/9/9/9/9/9/9 w G",
    ),
    (
        "v玉 ・ ・ ・ ・|一",
        " 王 ・ ・ ・ ・|一\n手番：後手",
        "4K4/9/4P4/9/9/9/9/9/9 w G",
    ),
    ("|三", "|", SFEN),
    ("|三", "|x", SFEN),
    (
        "v玉 ・ ・ ・ ・|一",
        "v玉 ・v金v銀v飛|一",
        "4k1gsr/9/4P4/9/9/9/9/9/9 b G",
    ),
    (" ・ ・|四", " 龍 竜|四", "4k4/9/4P4/7+R+R/9/9/9/9/9 b G"),
    (" ・ ・|四", "v龍v竜|四", "4k4/9/4P4/7+r+r/9/9/9/9/9 b G"),
    (
        " ・ ・ ・ ・ ・ ・ ・ ・ ・|八",
        " と 杏 圭 全 馬 桂 香 角v銀|八",
        "4k4/9/4P4/9/9/9/9/+P+L+N+S+BNLBs/9 b G",
    ),
    ("：金", "：", "4k4/9/4P4/9/9/9/9/9/9 b -"),
    ("：金", "：なし", "4k4/9/4P4/9/9/9/9/9/9 b -"),
    ("：金", "： \u{3000} ", "4k4/9/4P4/9/9/9/9/9/9 b -"),
    ("：金", "：\u{3000}金 ", SFEN),
    ("：金", "：金一", SFEN),
    ("：金", "：金\n先手の持駒：銀", "4k4/9/4P4/9/9/9/9/9/9 b S"),
    (
        "：金",
        "：飛二\u{3000}角 金四\u{3000}銀三 桂 香二\u{3000}歩十七",
        "4k4/9/4P4/9/9/9/9/9/9 b 2RB4G3SN2L17P",
    ),
];

#[test]
fn a_diagram_may_be_written_in_many_ways(rt: HostRuntime) -> Result<(), Fail> {
    for (old, new, wanted) in WAYS {
        check(&rt, rt.alloc(), old, new, wanted)?;
    }
    Ok(())
}

// Hands of as many pawns as there may be, and of one more.
const HANDS: &[(&str, &str, &str)] = &[
    ("：なし", "：歩四", "4k4/9/4P4/9/9/9/9/9/9 b G4p"),
    ("：なし", "：歩五", "4k4/9/4P4/9/9/9/9/9/9 b G5p"),
    ("：なし", "：歩六", "4k4/9/4P4/9/9/9/9/9/9 b G6p"),
    ("：なし", "：歩七", "4k4/9/4P4/9/9/9/9/9/9 b G7p"),
    ("：なし", "：歩八", "4k4/9/4P4/9/9/9/9/9/9 b G8p"),
    ("：なし", "：歩九", "4k4/9/4P4/9/9/9/9/9/9 b G9p"),
    ("：なし", "：歩十", "4k4/9/4P4/9/9/9/9/9/9 b G10p"),
    ("：なし", "：歩十一", "4k4/9/4P4/9/9/9/9/9/9 b G11p"),
    ("：なし", "：歩十二", "4k4/9/4P4/9/9/9/9/9/9 b G12p"),
    ("：なし", "：歩十三", "4k4/9/4P4/9/9/9/9/9/9 b G13p"),
    ("：なし", "：歩十四", "4k4/9/4P4/9/9/9/9/9/9 b G14p"),
    ("：なし", "：歩十五", "4k4/9/4P4/9/9/9/9/9/9 b G15p"),
    ("：なし", "：歩十六", "4k4/9/4P4/9/9/9/9/9/9 b G16p"),
    (
        " 歩 ・ ・ ・ ・|三",
        " ・ ・ ・ ・ ・|三\n後手の持駒：歩十八",
        "4k4/9/9/9/9/9/9/9/9 b G18p",
    ),
    ("：なし", "：歩十八", "too many P"),
];

#[test]
fn a_hand_holds_as_many_as_are_written(rt: HostRuntime) -> Result<(), Fail> {
    for (old, new, wanted) in HANDS {
        check(&rt, rt.alloc(), old, new, wanted)?;
    }
    Ok(())
}

// Texts in place of others, and the first fault of the diagram then.
const FAULTS: &[(&str, &str, &str)] = &[
    (" 歩 ・ ・ ・ ・|三", " x ・ ・ ・ ・|三", "bad cell 3 5"),
    ("v玉", "V玉", "bad cell 1 5"),
    ("v玉", "v・", "bad cell 1 5"),
    ("v玉", "v", "bad cell 1 5"),
    ("| ・ ・ ・ ・v玉", "|・ ・ ・ ・ v玉", "bad cell 1 1"),
    ("・|四", "・ 四", "bad cell 4 10"),
    ("・|四", "・", "bad cell 4 10"),
    ("・|四", "", "bad cell 4 9"),
    ("|九", "|九\n| ・", "bad cell 10 1"),
    ("| ・ ・ ・ ・ ・ ・ ・ ・ ・|九\n", "", "no diagram"),
    ("# KIF", "手数----", "no diagram"),
    ("後手の持駒：なし", "上手：", "handicap name in line 2"),
    ("# KIF", "下手：a", "handicap name in line 1"),
    ("：なし", "：なし ", "bad hand at 2"),
    ("：なし", "：玉", "bad hand at 2"),
    ("：なし", "：と\n後手の持駒：歩", "bad hand at 2"),
    ("：金", "：金、銀", "bad count in line 15"),
    ("：金", "：金五十", "bad count in line 15"),
    ("：金", "：金〇", "bad count in line 15"),
    ("：金", "：金金", "bad count in line 15"),
    ("：金", "：歩十九", "bad count in line 15"),
    ("：金", "：歩十十", "bad count in line 15"),
    ("：金", "：歩一一", "bad count in line 15"),
    ("：金", "：歩十一一", "bad count in line 15"),
    ("：金", "：金\u{3000}金", "hand twice at 15"),
    ("：金", "：金\u{3000}金金", "hand twice at 15"),
    ("：金", "：x\u{3000}金\u{3000}金", "bad hand at 15"),
    ("手数", "後手番\n手数", "no defender king"),
    (" ・v玉", "v玉v玉", "two kings"),
    ("| ・ ・ ・ ・v玉", "| 歩 ・ ・ ・v玉", "dead piece at 9a"),
    (
        " ・ ・ ・ ・ ・ ・ ・ ・ ・|四",
        " ・ ・ ・ ・ 歩 ・ ・ ・ ・|四",
        "two pawns on file 5",
    ),
    (
        "金\n手数----指手---------消費時間--\n",
        "金\r",
        "bad count in line 15",
    ),
];

#[test]
fn the_first_fault_is_named_with_its_place(rt: HostRuntime) -> Result<(), Fail> {
    for (old, new, wanted) in FAULTS {
        check(&rt, rt.alloc(), old, new, wanted)?;
    }
    Ok(())
}

// A byte that no UTF-8 text has, at each place: the character that it breaks is named by its first
// byte.
#[test]
fn a_broken_character_is_named_by_its_first_byte(rt: HostRuntime) -> Result<(), Fail> {
    let mut starts = 0;
    for place in 0..DIAGRAM.len() {
        let mut text = Vec::from_slice(rt.alloc(), DIAGRAM.as_bytes())?;
        text[place] = 0xff;
        if DIAGRAM.is_char_boundary(place) {
            starts = place;
        }
        let fault = read_kif(text.as_slice()).err().expect(&rt, "a fault");
        let found = format!(in rt.alloc(); "{fault}")?;
        let wanted = format!(in rt.alloc(); "not UTF-8 at {starts}")?;
        same(&rt, place, found.as_str(), wanted.as_str());
    }
    Ok(())
}
