//! How much a search may use, and why it ends without an answer.
//!
//! The [`Settings`] of a search are five numbers, each in its range, and whether its table lends
//! what it knows of other hands; numbers that make none are refused with a [`SettingsFault`]. A
//! search that ends without an answer names its [`Cause`]. Words, desks, tables, searches and
//! surveys all speak of these, so they stand below all of them, and each of their limits stands
//! here once.
#![tactic(auto)]

mod cause;
mod expansions;
mod faults;
mod making;
mod many;
mod settings;

pub use cause::Cause;
pub use expansions::{Expansions, MOST_EXPANSIONS};
pub use faults::{Setting, SettingsFault, Size};
pub use making::power_laws;
pub use many::{MOST_COUNT, MOST_SEED};
pub use settings::{
    DEFAULT_SHARDS, LEAST_ROWS, MOST_ROOM, MOST_ROWS, MOST_SHARDS, MOST_WORKERS, Settings,
    default_shards,
};
