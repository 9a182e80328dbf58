//! The search for the shortest mate by its length: whether a mate takes so many moves or fewer, for
//! one number after the other, over facts that are kept and only get better.
#![tactic(auto)]

mod child;
mod lengths;
mod onlooker;
mod run;
mod visiting;

pub use lengths::find_length;
pub use onlooker::LengthOnlooker;
pub use run::{Run, VisitEnd};
pub use visiting::visit;
