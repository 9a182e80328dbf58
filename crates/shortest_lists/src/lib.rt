//! From facts about how many moves mates take to what shows it: a mate, a bound, a line of play.
//!
//! Facts ([`shortest_facts::Facts`]) say of each position how many of the attacker's moves a mate
//! takes at least and at most, and name the moves on which that rests. [`mate_of`] reads from them
//! the certificate of a mate of the problem, whose rank is the most moves; [`bound_of`] the bound
//! that there is none within fewer than the least; and where these meet, [`line_of`] is a line of
//! play on which every rank is exact. The certificate and the bound are valid, so whoever checks
//! them needs no facts. What the facts lead to is defined in `specs/Reached.antt`, and the line in
//! `specs/Line.antt`.
#![tactic(auto)]

mod bound;
mod ends;
mod line;
mod mate;
mod placing;

pub use bound::bound_of;
pub use ends::ListEnd;
pub use line::{line_laws, line_of};
pub use mate::mate_of;
