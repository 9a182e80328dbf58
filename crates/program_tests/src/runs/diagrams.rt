// Runs on board diagrams of KIF files.
use super::examples::{GOLD_TEXT, REST_TEXT};
use super::seen::seen_of;
use crate::same::same;
use std::process::Abort;
use std::sync::Wait;
use std::test::Fail;
use std::thread::Threads;

// The same problem as GOLD's. Black's hand stands in line 15.
const DIAGRAM: &str = "# KIF
後手の持駒：なし
  ９ ８ ７ ６ ５ ４ ３ ２ １
+---------------------------+
| ・ ・ ・ ・v玉 ・ ・ ・ ・|一
| ・ ・ ・ ・ ・ ・ ・ ・ ・|二
| ・ ・ ・ ・ 歩 ・ ・ ・ ・|三
| ・ ・ ・ ・ ・ ・ ・ ・ ・|四
| ・ ・ ・ ・ ・ ・ ・ ・ ・|五
| ・ ・ ・ ・ ・ ・ ・ ・ ・|六
| ・ ・ ・ ・ ・ ・ ・ ・ ・|七
| ・ ・ ・ ・ ・ ・ ・ ・ ・|八
| ・ ・ ・ ・ ・ ・ ・ ・ ・|九
+---------------------------+
先手の持駒：金
手数----指手---------消費時間--
";

// A run on these words and the diagram with one text in place of another keeps this, or has this
// fault. A byte-order mark stands in front of the diagram, and each line ends with CR LF.
fn diagram_gives<R: Abort + Threads + Wait + AllocGlobal + Sync>(
    rt: &R,
    words: &str,
    old: &str,
    new: &str,
    wanted: &str,
) -> Result<(), Fail> {
    let alloc = rt.alloc();
    let text = DIAGRAM.replace(alloc, old, new)?;
    let lines = text.as_str().replace(alloc, "\n", "\r\n")?;
    let lines = lines.as_str();
    let input = format!(in alloc; "\u{feff}{lines}")?;
    let seen = seen_of(rt, words, input.as_str(), (7, 0), (11, 0))?;
    if seen.status == 0 {
        same(rt, (words, old, new), seen.kept.as_str(), wanted);
    } else {
        same(rt, (words, old, new), seen.fault.as_str(), wanted);
    }
    Ok(())
}

#[test]
fn a_diagram_stands_for_its_problem(rt: HostRuntime) -> Result<(), Fail> {
    // Words, a text of the diagram and what stands in its place, and what is kept or told.
    let table = [
        ("solve --kif", "KIF", "KIF", GOLD_TEXT),
        ("solve --rest --kif", "KIF", "KIF", REST_TEXT),
        ("solve --kif", " 歩", " x", "bad cell 3 5"),
        ("solve --kif", "| ・ ・ ・ ・ ・ ・ ・ ・ ・|九\n", "", "no diagram"),
        ("solve --kif", "金\n", "金五十\n", "bad count in line 15"),
        ("solve --kif", "後手の持駒：なし", "上手：", "handicap name in line 2"),
        ("solve --kif", "金\n", "金　金\n", "hand twice at 15"),
        ("solve --kif", "手数", "後手番\n手数", "no defender king"),
        ("solve --kif", "v玉 ・", "v玉 飛", "defender in check"),
        ("solve", "KIF", "KIF", "bad piece at 0"),
    ];
    for (words, old, new, wanted) in table {
        diagram_gives(&rt, words, old, new, wanted)?;
    }
    Ok(())
}
