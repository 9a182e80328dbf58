//! A table of positions that a search shares among its paths: what is known of each position that
//! was visited, in rows of eight slots.
//!
//! A position's row is told by its key without the hands, so that all hands of a board share a row,
//! and what is known of one may be lent to others. An entry has proof and disproof numbers (Nagai
//! 2002), and notes: one that holds on every path, or up to four that hold where the positions
//! stand on the path on whose repetition they lean (Kishimoto and Müller 2004). A full row gives up
//! an entry that no worker is below. Whatever was left in a shard, each of its entries is true: the
//! type keeps it. How many workers are below an entry is counted elsewhere: whoever counts them is
//! asked ([`Pins`]), and only where it matters.
//!
//! Contracts see a shard as the list of its rows, and a row as the list of its entries
//! (`specs/Row.antt`).
#![tactic(auto)]

mod entry;
mod facts;
mod hash;
mod made_rows;
mod pins;
mod row;
mod shard;

pub use hash::{Site, Spot, site_of};
pub use pins::{Pins, RowPins};
pub use shard::Shard;
