//! Searches by proof numbers (df-pn: Nagai 2002): from a problem to a note that answers it, or to
//! the cause why there is none.
//!
//! [`search_alone`] searches with one worker, with no lock and no wait: what it answers is what the
//! world of one worker does under its own steps (`lone_port`), or there was no memory; and that is
//! one answer ([`alone_laws`]). [`search_alone_gated`] passes a gate for each visit,
//! [`search_alone_until`] may be stopped, too, [`search_alone_counted`] tells how many visits were
//! drawn, and [`search_filled_until`] begins from notes that are known. A [`Table`] is for many
//! searches, one after the other.
#![tactic(auto)]

mod alone;
mod end;
mod filled;
mod laws;
mod table;
mod tally;
mod watched;

pub use alone::{search_alone, search_alone_counted, search_alone_gated, search_alone_until};
pub use end::SearchEnd;
pub use filled::search_filled_until;
pub use laws::alone_laws;
pub use table::Table;
pub use tally::Tally;
