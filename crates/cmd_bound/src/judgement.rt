// What is found out about a mate with a bound, and about a bound alone.
use board_core::Move;
use cert_check::Why;
use run_telling::Status;

/// The first reason against a bound.
#[derive(Clone, Copy, PartialEq, Eq, Debug)]
pub enum BoundWhy {
    /// It doesn't list the problem with the number of moves, or with more; or it is about another
    /// problem.
    Root,
    /// The mate lists the problem with another rank than the text says.
    Rank,
    /// No evasion to this check keeps the entry's number.
    Check(Move),
}

/// What was found out about a mate with a bound, or about a bound alone.
#[derive(Clone, Copy, PartialEq, Eq, Debug)]
pub enum BoundJudgement {
    /// The problem is a mate in so many of the attacker's moves, and in no fewer: certificate and
    /// bound are valid.
    Shortest(u32),
    /// The problem is no mate within so many of the attacker's moves: the bound is valid.
    NoneWithin(u32),
    /// The mate's certificate isn't valid for the problem.
    MateRefused {
        /// The first entry that something speaks against, counted from 1; 0 for the certificate as
        /// a whole.
        entry: u64,
        /// The first reason against it.
        why: Why,
    },
    /// The bound isn't valid for the problem, or the mate has another rank.
    Refused {
        /// The first entry of the bound that something speaks against, counted from 1; 0 for the
        /// bound as a whole.
        entry: u64,
        /// The first reason against it.
        why: BoundWhy,
    },
}

impl Status for BoundJudgement {
    ghost use Rattle.cmd_bound.specs.Text.{bound_status};

    ghost status_of = { bound_status };

    /// 0 where it is accepted, 7 where it is refused.
    fn status(&self) -> u8 {
        match self {
            BoundJudgement::Shortest(_) | BoundJudgement::NoneWithin(_) => 0,
            BoundJudgement::MateRefused { .. } | BoundJudgement::Refused { .. } => 7,
        }
    }
}
