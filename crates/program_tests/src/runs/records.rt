// Runs of `record`, some of them another program's.
use super::seen::seen_of;
use crate::same::same;
use std::test::Fail;

// An input, and the status, what the user is told beside the answer, and the answer.
static RUNS: [(&str, u8, &str, &str); 7] = [
    (
        "checkmate 8a8c\ncertificate 1 mate 1\nproblem 1+r7/b8/K2s5/1g7/2+lL5/3S2kB1/1+p7/9/1+R7 w n\n1 8a8c 1+r7/b8/K2s5/1g7/2+lL5/3S2kB1/1+p7/9/1+R7 w n\nend\n",
        0,
        "",
        "後手の持駒：桂\n  ９ ８ ７ ６ ５ ４ ３ ２ １\n+---------------------------+\n| ・v龍 ・ ・ ・ ・ ・ ・ ・|一\n|v角 ・ ・ ・ ・ ・ ・ ・ ・|二\n| 玉 ・ ・v銀 ・ ・ ・ ・ ・|三\n| ・v金 ・ ・ ・ ・ ・ ・ ・|四\n| ・ ・v杏 香 ・ ・ ・ ・ ・|五\n| ・ ・ ・ 銀 ・ ・v玉 角 ・|六\n| ・vと ・ ・ ・ ・ ・ ・ ・|七\n| ・ ・ ・ ・ ・ ・ ・ ・ ・|八\n| ・ 龍 ・ ・ ・ ・ ・ ・ ・|九\n+---------------------------+\n先手の持駒：なし\n後手番\n手数----指手---------消費時間--\n   1 ８三龍(81)\n   2 詰み\n",
    ),
    (
        "certificate 1 mate 11\nproblem 2l5k/9/2+r1P4/1P7/9/1K7/pL7/3P5/9 w R2B3G4S4NL14Pgl\n3 7c7f 2l5k/9/2+r1P4/1P7/9/1K7/pL7/3P5/9 w R2B3G4S4NL14Pgl\n2 L*9f 2l5k/9/4P4/1P7/9/2+r6/KL7/3P5/9 w R2B3G4S4NL15Pgl\n1 7f7h 2l5k/9/4P4/1P7/9/l1+r6/1L7/1K1P5/9 w R2B3G4S4NL15Pg\n2 L*9c 2l5k/9/4P4/1P7/K8/2+r6/pL7/3P5/9 w R2B3G4S4NL14Pgl\n1 G*9f 2l5k/9/l3P4/BP7/K8/2+r6/pL7/3P5/9 w RB3G4S4NL14Pg\n1 G*9f 2l5k/9/l3P4/GP7/K8/2+r6/pL7/3P5/9 w R2B2G4S4NL14Pg\n1 G*9f 2l5k/9/l3P4/LP7/K8/2+r6/pL7/3P5/9 w R2B3G4S4N14Pg\n1 G*9f 2l5k/9/l3P4/NP7/K8/2+r6/pL7/3P5/9 w R2B3G4S3NL14Pg\n1 G*9f 2l5k/9/l3P4/PP7/K8/2+r6/pL7/3P5/9 w R2B3G4S4NL13Pg\n1 G*9f 2l5k/9/l3P4/RP7/K8/2+r6/pL7/3P5/9 w 2B3G4S4NL14Pg\n1 G*9f 2l5k/9/l3P4/SP7/K8/2+r6/pL7/3P5/9 w R2B3G3S4NL14Pg\nend\n",
        0,
        "",
        "後手の持駒：金\u{3000}香\n  ９ ８ ７ ６ ５ ４ ３ ２ １\n+---------------------------+\n| ・ ・v香 ・ ・ ・ ・ ・v玉|一\n| ・ ・ ・ ・ ・ ・ ・ ・ ・|二\n| ・ ・v龍 ・ 歩 ・ ・ ・ ・|三\n| ・ 歩 ・ ・ ・ ・ ・ ・ ・|四\n| ・ ・ ・ ・ ・ ・ ・ ・ ・|五\n| ・ 玉 ・ ・ ・ ・ ・ ・ ・|六\n|v歩 香 ・ ・ ・ ・ ・ ・ ・|七\n| ・ ・ ・ 歩 ・ ・ ・ ・ ・|八\n| ・ ・ ・ ・ ・ ・ ・ ・ ・|九\n+---------------------------+\n先手の持駒：飛\u{3000}角二\u{3000}金三\u{3000}銀四\u{3000}桂四\u{3000}香\u{3000}歩十四\n後手番\n手数----指手---------消費時間--\n   1 ７六龍(73)\n   2 ９五玉(86)\n   3 ９三香打\n   4 ９四歩打\n   5 ９六金打\n   6 詰み\n",
    ),
    (
        "checkmate G*5b\ncertificate 1 mate 1\nproblem 4k4/9/4P4/9/9/9/9/9/9 b G\n1 G*5b 4k4/9/4P4/9/9/9/9/9/9 b G\nend\n",
        0,
        "",
        "後手の持駒：なし\n  ９ ８ ７ ６ ５ ４ ３ ２ １\n+---------------------------+\n| ・ ・ ・ ・v玉 ・ ・ ・ ・|一\n| ・ ・ ・ ・ ・ ・ ・ ・ ・|二\n| ・ ・ ・ ・ 歩 ・ ・ ・ ・|三\n| ・ ・ ・ ・ ・ ・ ・ ・ ・|四\n| ・ ・ ・ ・ ・ ・ ・ ・ ・|五\n| ・ ・ ・ ・ ・ ・ ・ ・ ・|六\n| ・ ・ ・ ・ ・ ・ ・ ・ ・|七\n| ・ ・ ・ ・ ・ ・ ・ ・ ・|八\n| ・ ・ ・ ・ ・ ・ ・ ・ ・|九\n+---------------------------+\n先手の持駒：金\n手数----指手---------消費時間--\n   1 ５二金打\n   2 詰み\n",
    ),
    (
        "checkmate G*5b\ncertificate 1 mate 1\nproblem 4k4/9/4P4/9/9/9/9/9/9 b G\n1 G*5a 4k4/9/4P4/9/9/9/9/9/9 b G\nend\n",
        7,
        "",
        "refused 1 move G*5a\n",
    ),
    (
        "certificate 1 escape 1\nproblem 4k4/9/9/9/9/9/9/9/9 b -\n4k4/9/9/9/9/9/9/9/9 b -\nend\n",
        3,
        "not a mate",
        "",
    ),
    (
        "checkmate G*5b\ncertificate 1 mate 2\nproblem 4k4/9/4P4/9/9/9/9/9/9 b G\n1 G*5b 4k4/9/4P4/9/9/9/9/9/9 b G\nend\n",
        3,
        "wrong count",
        "",
    ),
    ("4k4/9/4P4/9/9/9/9/9/9 b G\n", 3, "bad head", ""),
];

#[test]
fn a_mate_is_recorded(rt: HostRuntime) -> Result<(), Fail> {
    for (input, status, fault, answer) in RUNS {
        let seen = seen_of(&rt, "record", input, (7, 0), (11, 0))?;
        let found = (seen.status, seen.fault.as_str(), seen.kept.as_str());
        same(&rt, input, found, (status, fault, answer));
    }
    Ok(())
}
