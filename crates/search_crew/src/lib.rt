//! Several workers search one problem, each in a thread of its own, over one table of positions and
//! one desk.
//!
//! A search makes the desk, and a seat for each worker there and at the table behind its locks;
//! lets all workers work till each has ended; takes their seats back and closes the desk. It ends
//! with a note that answers the problem, or with the workers as they ended and the cause why they
//! gave up. With one worker it takes no lock and waits for nobody ([`search_by_one`]): it is the
//! search of one worker (`search_pool`). [`Tables`] keeps the table from one search to the next,
//! and empties it; [`search`] is one search of its own, and [`search_with`] one that begins from
//! notes that are known.
#![tactic(auto)]

mod closing;
mod crew;
mod known;
mod lane;
mod tables;

pub use crew::search_by_one;
pub use known::{search_with, search_with_by_one};
pub use tables::{Tables, search};
