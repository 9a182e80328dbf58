// What is found of the shortest mate of a problem.
use board_core::Move;
use bound_text::Bound;
use cert_text::MateCertificate;
use mate_facts::Rank;
use search_limits::Cause;

/// What is found of the shortest mate of a problem.
#[derive(Drop)]
pub enum Finding {
    /// Its shortest mate takes so many of the attacker's moves.
    Found {
        /// The number of moves.
        rank: Rank,
        /// That the problem is a mate, with this rank.
        certificate: MateCertificate,
        /// That no mate of it is shorter.
        bound: Bound,
        /// A line of play to the mate that is as long, the attacker's moves and the evasions in
        /// turn.
        line: Vec<Move>,
    },
    /// No mate of it takes so many of the attacker's moves or fewer.
    NoneWithin {
        /// The number of moves: the limit up to which one was looked for.
        limit: Rank,
        /// That it is so.
        bound: Bound,
    },
    /// Nothing was found: what was used up, that the search was stopped, or that what was found
    /// lists more entries than are read.
    Unknown(Cause),
}
