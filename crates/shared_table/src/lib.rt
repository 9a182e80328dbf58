//! The table of positions of a search by several threads.
//!
//! Its rows lie in shards, each behind a lock; which shard has a position, and which word counts
//! the workers below a slot of its row, the position's key says. What comes out of a lock is known
//! by its type alone, so a [`JobShard`] keeps that all its notes are for the attacker whom a
//! [`Job`] names. Whoever asks a shard is lent it for one [`Task`], by [`Rows`]: those behind
//! locks, or plain ones, which tell their shards to proofs.
//!
//! [`look_in`], [`enter_in`] and [`leave_in`] are what a shard does for one request, with the
//! counts of workers that a [`RowSeat`] asks for, one by one, where they matter. A [`SharedTable`]
//! is all shards and all words.
#![tactic(auto)]

mod calls;
mod job;
mod rows;
mod seat;
mod shard;
mod table;

pub use calls::{enter_in, leave_in, look_in};
pub use job::{BlackJob, Job, WhiteJob};
pub use rows::{LockedRows, PlainRows, Rows, Task};
pub use seat::RowSeat;
pub use shard::JobShard;
pub use table::SharedTable;
