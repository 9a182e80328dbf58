// The checker on certificates whose verdicts are known from elsewhere, on one thread and on
// several.
use crate::same::same;
use crate::texts::{CHASE, MATE_IN_ONE, TWO_ROOKS};
use board_core::{Kind, Move, Square};
use cert_check::{Verdict, Why, check, upgrade};
use cert_text::read_cert;
use hand_dominance::Version;
use std::alloc::Global;
use std::process::Abort;
use std::test::Fail;
use std::thread::Threads;
use wide_check::check_wide;

// The attacker's gold isn't guarded where it is dropped: the king leaves the list.
const UNGUARDED: &str =
    "certificate 1 mate 1\nproblem 4k4/9/4P4/9/9/9/9/9/9 b G\n1 G*4b 4k4/9/4P4/9/9/9/9/9/9 b G\nend\n";

const NO_CHECK: &str =
    "certificate 1 mate 1\nproblem 4k4/9/4P4/9/9/9/9/9/9 b G\n1 G*9i 4k4/9/4P4/9/9/9/9/9/9 b G\nend\n";

// The root's rank is that of the positions after it.
const EQUAL_RANKS: &str =
    "certificate 1 mate 4\nproblem 9/4k4/8R/9/9/9/9/9/9 b R\n1 1c1a 3k5/R8/8R/9/9/9/9/9/9 b -\n1 1c1a 4k4/R8/8R/9/9/9/9/9/9 b -\n1 1c1a 5k3/R8/8R/9/9/9/9/9/9 b -\n1 R*9b 9/4k4/8R/9/9/9/9/9/9 b R\nend\n";

const NO_ROOT: &str =
    "certificate 1 mate 3\nproblem 9/4k4/8R/9/9/9/9/9/9 b R\n1 1c1a 3k5/R8/8R/9/9/9/9/9/9 b -\n1 1c1a 4k4/R8/8R/9/9/9/9/9/9 b -\n1 1c1a 5k3/R8/8R/9/9/9/9/9/9 b -\nend\n";

const PAWN_DROPS: &str =
    "certificate 1 escape 3\nproblem 4k4/9/4P4/9/9/9/9/9/9 b P\n4k4/9/4P4/9/9/9/9/9/9 b P\n9/4k4/9/9/9/9/9/9/9 b Pp\n9/9/4k4/9/9/9/9/9/9 b 2p\nend\n";

// The third entry is left out.
const OPEN_ESCAPE: &str =
    "certificate 1 escape 2\nproblem 4k4/9/4P4/9/9/9/9/9/9 b P\n4k4/9/4P4/9/9/9/9/9/9 b P\n9/4k4/9/9/9/9/9/9/9 b Pp\nend\n";

// The second position of the round is left out.
const BROKEN_CHASE: &str =
    "certificate 1 escape 5\nproblem 5k3/9/9/9/9/9/9/9/4R4 b -\n4k4/9/9/9/9/9/9/9/9 b r\n5k3/9/9/9/9/9/9/9/4R4 b -\n5k3/9/9/9/9/9/9/9/9 b r\n9/4k4/9/9/9/9/9/9/9 b r\n9/5k3/9/9/9/9/9/9/9 b r\nend\n";

// The problem isn't listed, but has a pawn more in hand than what is.
const RICHER_1: &str =
    "certificate 1 mate 1\nproblem 4k4/9/4P4/9/9/9/9/9/9 b GP\n1 G*5b 4k4/9/4P4/9/9/9/9/9/9 b G\nend\n";

const RICHER_2: &str =
    "certificate 2 mate 1\nproblem 4k4/9/4P4/9/9/9/9/9/9 b GP\n1 G*5b 4k4/9/4P4/9/9/9/9/9/9 b G\nend\n";

// The problem has no gold in hand.
const EMPTY_HANDED: &str =
    "certificate 2 mate 1\nproblem 4k4/9/4P4/9/9/9/9/9/9 b -\n1 G*5b 4k4/9/4P4/9/9/9/9/9/9 b G\nend\n";

// One of the two golds might have come into the other hand.
const HELD_BY_BOTH: &str =
    "certificate 2 mate 1\nproblem 4k4/9/4P4/9/9/9/9/9/9 b Gg\n1 G*5b 4k4/9/4P4/9/9/9/9/9/9 b G\nend\n";

// The position after one evasion is listed with the root's rank, and with a lower one where a pawn
// less is in hand.
const RANKS_1: &str =
    "certificate 1 mate 5\nproblem 9/4k4/8R/9/9/9/9/9/9 b RP\n1 1c1a 3k5/R8/8R/9/9/9/9/9/9 b -\n1 1c1a 4k4/R8/8R/9/9/9/9/9/9 b -\n1 1c1a 5k3/R8/8R/9/9/9/9/9/9 b -\n2 1c1a 5k3/R8/8R/9/9/9/9/9/9 b P\n2 R*9b 9/4k4/8R/9/9/9/9/9/9 b RP\nend\n";

const RANKS_2: &str =
    "certificate 2 mate 5\nproblem 9/4k4/8R/9/9/9/9/9/9 b RP\n1 1c1a 3k5/R8/8R/9/9/9/9/9/9 b -\n1 1c1a 4k4/R8/8R/9/9/9/9/9/9 b -\n1 1c1a 5k3/R8/8R/9/9/9/9/9/9 b -\n2 1c1a 5k3/R8/8R/9/9/9/9/9/9 b P\n2 R*9b 9/4k4/8R/9/9/9/9/9/9 b RP\nend\n";

// The root's rank is that of what the positions after it are, or dominate.
const EQUAL_RANKS_2: &str =
    "certificate 2 mate 4\nproblem 9/4k4/8R/9/9/9/9/9/9 b RP\n1 1c1a 3k5/R8/8R/9/9/9/9/9/9 b P\n1 1c1a 4k4/R8/8R/9/9/9/9/9/9 b -\n1 1c1a 5k3/R8/8R/9/9/9/9/9/9 b -\n1 R*9b 9/4k4/8R/9/9/9/9/9/9 b RP\nend\n";

// The problem isn't listed, but has a pawn less in hand than what is, or a pawn more.
const POORER_1: &str =
    "certificate 1 escape 3\nproblem 4k4/9/4P4/9/9/9/9/9/9 b -\n4k4/9/4P4/9/9/9/9/9/9 b P\n9/4k4/9/9/9/9/9/9/9 b Pp\n9/9/4k4/9/9/9/9/9/9 b 2p\nend\n";

const POORER_2: &str =
    "certificate 2 escape 3\nproblem 4k4/9/4P4/9/9/9/9/9/9 b -\n4k4/9/4P4/9/9/9/9/9/9 b P\n9/4k4/9/9/9/9/9/9/9 b Pp\n9/9/4k4/9/9/9/9/9/9 b 2p\nend\n";

const TOO_RICH: &str =
    "certificate 2 escape 3\nproblem 4k4/9/4P4/9/9/9/9/9/9 b 2P\n4k4/9/4P4/9/9/9/9/9/9 b P\n9/4k4/9/9/9/9/9/9/9 b Pp\n9/9/4k4/9/9/9/9/9/9 b 2p\nend\n";

// Of the three entries the last is left out: the king goes back, and the first dominates that.
const FEWER: &str =
    "certificate 2 escape 2\nproblem 4k4/9/4P4/9/9/9/9/9/9 b -\n4k4/9/4P4/9/9/9/9/9/9 b P\n9/4k4/9/9/9/9/9/9/9 b Pp\nend\n";

// The second is left out too.
const TOO_FEW: &str =
    "certificate 2 escape 1\nproblem 4k4/9/4P4/9/9/9/9/9/9 b -\n4k4/9/4P4/9/9/9/9/9/9 b P\nend\n";

const ACCEPTED: [&str; 8] = [
    MATE_IN_ONE,
    TWO_ROOKS,
    PAWN_DROPS,
    CHASE,
    RICHER_2,
    RANKS_2,
    POORER_2,
    FEWER,
];

const ROOTLESS: [&str; 6] = [
    NO_ROOT,
    RICHER_1,
    EMPTY_HANDED,
    HELD_BY_BOTH,
    POORER_1,
    TOO_RICH,
];

fn plain(from: Square, to: Square) -> Move {
    Move::Board {
        from,
        to,
        promote: false,
    }
}

fn refused(entry: u64, why: Why) -> Verdict {
    Verdict::Refused { entry, why }
}

// The certificate of the text is judged so for its own problem, on one thread and on several.
fn judges<R: Threads + Abort + Sync>(
    rt: &R,
    alloc: Global,
    text: &str,
    expected: Verdict,
) -> Result<(), Fail> {
    let certificate = read_cert(alloc, text.as_bytes())?;
    let problem = certificate.problem();
    let verdict = check(alloc, problem, &certificate)?;
    same(rt, text, verdict, expected);
    for pieces in [1, 2, 7, 64] {
        let verdict = check_wide(rt, alloc, problem, &certificate, pieces)?;
        same(rt, (pieces, text), verdict, expected);
    }
    Ok(())
}

#[test]
fn certificates_are_accepted_or_refused_with_the_first_reason(rt: HostRuntime) -> Result<(), Fail> {
    let gold = Move::Drop {
        kind: Kind::Gold,
        to: Square::on(9, 9),
    };
    let pawn = Move::Drop {
        kind: Kind::Pawn,
        to: Square::on(5, 3),
    };
    let out = plain(Square::on(5, 1), Square::on(4, 2));
    let up = plain(Square::on(5, 2), Square::on(4, 1));
    let along = plain(Square::on(5, 9), Square::on(4, 9));
    let push = plain(Square::on(5, 3), Square::on(5, 2));
    for text in ACCEPTED {
        judges(&rt, rt.alloc(), text, Verdict::Accepted)?;
    }
    for text in ROOTLESS {
        judges(&rt, rt.alloc(), text, refused(0, Why::RootMissing))?;
    }
    for (text, entry, why) in [
        (UNGUARDED, 1, Why::EvasionOutside(out)),
        (NO_CHECK, 1, Why::NotACheck(gold)),
        (EQUAL_RANKS, 4, Why::RankNotLower(up)),
        (OPEN_ESCAPE, 2, Why::CheckUnanswered(pawn)),
        (BROKEN_CHASE, 2, Why::CheckUnanswered(along)),
        (RANKS_1, 5, Why::RankNotLower(up)),
        (EQUAL_RANKS_2, 4, Why::RankNotLower(up)),
        (TOO_FEW, 1, Why::CheckUnanswered(push)),
    ] {
        judges(&rt, rt.alloc(), text, refused(entry, why))?;
    }
    Ok(())
}

#[test]
fn what_is_accepted_in_version_1_is_accepted_in_version_2(rt: HostRuntime) -> Result<(), Fail> {
    for text in [MATE_IN_ONE, TWO_ROOKS, PAWN_DROPS, CHASE, RICHER_2] {
        let certificate = upgrade(read_cert(rt.alloc(), text.as_bytes())?);
        same(&rt, text, certificate.version(), Version::Two);
        let verdict = check(rt.alloc(), certificate.problem(), &certificate)?;
        same(&rt, text, verdict, Verdict::Accepted);
    }
    Ok(())
}
