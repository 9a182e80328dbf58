// What a text about the shortest mate says.

use bound_text::Bound;
use cert_text::MateCertificate;
use mate_facts::Rank;

/// What a text says of the shortest mate of a problem, and by what it says so. Its form is kept;
/// whether it is so is for a checker to say.
#[derive(Drop)]
pub enum ShortestText {
    /// The shortest mate takes so many of the attacker's moves.
    Found {
        /// The number of moves, 1 to [`mate_facts::MOST_RANK`].
        rank: Rank,
        /// That the problem is a mate; it is of version 1 where it was read from a text.
        certificate: MateCertificate,
        /// That no mate of it is shorter: a bound for the certificate's problem.
        bound: Bound,
    },
    /// No mate takes so many of the attacker's moves or fewer.
    NoneWithin {
        /// The number of moves, 1 to [`mate_facts::MOST_RANK`].
        limit: Rank,
        /// That it is so of the bound's problem.
        bound: Bound,
    },
}
