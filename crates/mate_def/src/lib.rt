//! What a mate and an escape of a tsume problem are, and the laws about them.
//!
//! The definitions are in `specs/Mate.antt`: a mate is a finite strategy of checks against every
//! legal defence, an escape a finite set of positions, the attacker's to move, each check from
//! which has an evasion back into it. Each function here takes nothing and does nothing: its
//! contract is a law about these definitions. Takes no memory.
#![tactic(auto)]

ghost use Rattle.mate_def.specs.Mate.{EscapeIsNoMate, EscapesIntoMore, EscapesJoined, EscapesPastItself, RankGrows, RankOne};

/// An escape is no mate: no position has both.
pub fn escape_is_no_mate()
    ensures { EscapeIsNoMate }
{}

/// A mate within n moves is a mate within any number that isn't less.
pub fn rank_grows()
    ensures { RankGrows }
{}

/// A position is mate within one move exactly where it has a check without an evasion.
pub fn rank_one()
    ensures { RankOne }
{}

/// Who escapes into some positions escapes into any that hold them.
pub fn escape_grows()
    ensures { EscapesIntoMore }
{}

/// A position may be dropped from those that it escapes into: who is back at it goes on from it as
/// before.
pub fn escape_past_itself()
    ensures { EscapesPastItself }
{}

/// What the checks of a position, the attacker's to move, lead to is joined: where each has an
/// evasion that leads to the position itself, to one of some positions, or to one that escapes into
/// these, the position escapes into the positions named.
pub fn escapes_joined()
    ensures { EscapesJoined }
{}
