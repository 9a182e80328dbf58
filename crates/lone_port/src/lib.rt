//! The table of positions and the desk of a search, as a port for one worker at a time: no lock, no
//! wait; and the worlds that stand on it.
//!
//! A [`LonePort`] has all rows of the table in one shard, counts how many visits are below each
//! slot, and has the desk; so it answers all that a worker asks (`worker_core::Port`). It is proved
//! to do what shard and desk do, on the path of the worker that asks, and that its table shows
//! notes for the problem's attacker alone. Whoever runs a worker over it opens it for each of the
//! worker's turns, and says by that whether a stop was signalled.
//!
//! A world is what workers of one search that share such a port do under any schedule.
//! `specs/World.antt` says what a world is and what each [`Event`] does; `specs/Alone.antt` how the
//! world of one worker goes, and with what it ends. [`step`] has one request of a worker answered.
#![tactic(auto)]

mod event;
mod laws;
mod lone;
mod stepping;

pub use event::Event;
pub use laws::turn_laws;
pub use lone::LonePort;
pub use stepping::step;
