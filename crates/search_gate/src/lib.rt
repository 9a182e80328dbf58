//! What a search is held by: a gate that it passes for each visit, and a stop that it polls
//! before each. A search stands on this and its limits alone, and on no file or stream.
#![tactic(auto)]

mod clock;
mod gate;
mod stop;

pub use clock::{Clock, DeadlineStop};
pub use gate::{Gate, OpenGate};
pub use stop::{MemStop, QuietStop, Stop};
