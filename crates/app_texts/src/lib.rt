//! What is found out about a problem and about a certificate, what is wrong with a problem's text,
//! and the texts of these.
//!
//! A [`Solution`] is what was found out about a problem, a [`Judgement`] what was found out about a
//! certificate; the text of a solution begins with the line of the USI protocol, and the rest is
//! this program's own ([`solution_text`], [`judgement_text`]). A [`ProblemFault`] prints as the
//! line for the user. [`append_cause`], [`append_counted`] and [`append_line`] write parts of the
//! texts of other answers. `specs/` has the texts in full.
#![tactic(auto)]

mod answer;
mod fault;
mod text;

pub use answer::{Judgement, MainLine, Solution};
pub use fault::ProblemFault;
pub use text::{append_cause, append_counted, append_line, judgement_text, solution_text};
