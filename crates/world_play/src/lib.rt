//! A world of many workers that share one table and one desk, under any schedule.
//!
//! [`World`] plays a schedule of [`Event`](lone_port::Event)s, one after the other. It keeps that
//! what the table and the desk count is what the workers have, all together (`specs/Fair.antt`);
//! `specs/Logs.antt` says how each worker's log goes on.
#![tactic(auto)]

mod crew;
mod laws;
mod world;

pub use crew::{starve_in_crew, turn_in_crew};
pub use laws::step_laws;
pub use world::World;
