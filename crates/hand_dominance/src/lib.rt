//! Hand dominance: a position that differs from another in the hands alone, if at all, and not to
//! the attacker's loss.
//!
//! [`dominance_laws`] says what that is worth: a mate carries over to each position that dominates
//! it, within as many moves, and an escape to each that it dominates. So what is known of one hand
//! serves other hands (`specs/Dominance.antt`). [`listing_laws`] says what lists of positions bear
//! out, in both versions: where each has to be listed itself ([`Version::One`]), and where it may
//! dominate a listed position, or be dominated by one, instead ([`Version::Two`]), so that fewer
//! entries say as much (`specs/BorneOut.antt`). [`key_dominates`] tells by keys alone which
//! position dominates which (`specs/ByKey.antt`). Takes no memory.
#![tactic(auto)]

mod by_key;
mod version;

ghost use Rattle.hand_dominance.specs.BorneOut.{BorneOutAbove, BorneOutStays, CoversStays, EscapesWhereCovered, EscapesWhereListed, HeldStays, NoMateWhereCovered, RanksWhereCovered};
ghost use Rattle.hand_dominance.specs.Dominance.{DominanceGoesOn, EachDominatesItself, EscapesCarryDown, EvasionsCarryDown, EvasionsServeBelow, MatedCarryUp, MatesCarryUp};

pub use by_key::{board_of, key_dominates, key_laws};
pub use version::Version;

/// Laws of dominating positions: which dominate which, and to which a mate, and to which an escape
/// carries over, whoever is to move. Does nothing; whoever uses what is known of other hands calls
/// it to know this. Takes no memory.
pub fn dominance_laws()
    // Each position dominates itself, and what those dominate that it dominates.
    ensures itself { EachDominatesItself }
    ensures goes_on { DominanceGoesOn }
    // An evasion from what dominates a position is one from the position, and leads from the one to
    // what dominates what it leads to from the other.
    ensures evades { EvasionsServeBelow }
    // What dominates a position that is mate within so many moves is mate within as many.
    ensures mates { MatesCarryUp }
    // And so it is where the defender is to move.
    ensures mated { MatedCarryUp }
    // Where the defender escapes from a position, he escapes from each that it dominates.
    ensures escapes { EscapesCarryDown }
    // And so it is where the defender is to move.
    ensures evasions { EvasionsCarryDown }
{}

/// Laws of lists of positions, in both versions. Does nothing; whoever judges such a list calls it
/// to know what it is worth. Takes no memory.
pub fn listing_laws()
    // What covers a listed position of a mate is a mate within its rank.
    ensures ranks { RanksWhereCovered }
    // An entry's move serves at each position that covers the entry's.
    ensures above { BorneOutAbove }
    // What a listed position of an escape covers is no mate.
    ensures none { NoMateWhereCovered }
    // From a listed position of an escape of version 1 the defender escapes.
    ensures escapes { EscapesWhereListed }
    // And in both versions he does from each that a listed one covers.
    ensures escapes_covered { EscapesWhereCovered }
    // What is said in version 1 is so in each version.
    ensures covers { CoversStays }
    ensures borne_out { BorneOutStays }
    ensures held { HeldStays }
{}
