//! A worker's port in a search by several threads: the shared table of positions and the shared
//! desk, as one worker has them.
//!
//! A [`TablePort`] has a seat at the words that count workers and one at the desk's. What a worker
//! asks of a position it asks of the key's shard alone, which it is lent for that one request; what
//! it asks of the desk is one step on a word. It is one body for all kinds of rows: over plain ones
//! each answer, and the rows behind it, are told to proofs.
#![tactic(auto)]

mod parts;
mod port;
mod tasks;

pub use parts::{Cut, Seats, Watch};
pub use port::TablePort;
