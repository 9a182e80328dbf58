//! Jobs by number, done side by side over threads.
//!
//! Whoever has many jobs of one kind says by [`Jobs`] how many they are, what a thread works with
//! from one to the next, and what the job of a number answers. A [`Team`] does them: each thread
//! takes the next job that no other has taken, till there are none or till no further one is to be
//! taken ([`Until`]), and the answers come in the order of the numbers. A job that wanted memory is
//! done again when the threads are over. It stands on `rayon`.
#![tactic(auto)]

mod jobs;
mod member;
mod team;

pub use jobs::{Jobs, Until};
pub use team::{MOST_MEMBERS, Team};
