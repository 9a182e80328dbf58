//! Searches for the cook reports along a line: of each position of the attacker along the moves of
//! a solution, whether each check mates.
//!
//! [`reports_along`] plays the line from its problem, and at each of the attacker's turns has
//! [`cook_search::cook`] report on the position. What a line is, and what the reports along it say
//! together, is `cook_line`'s; on which searches they stand is defined in `specs/Found.antt`.
#![tactic(auto)]

mod along;

pub use along::reports_along;
