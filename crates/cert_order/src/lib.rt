//! Certificates of entries that are yet to be put in order.
//!
//! Who finds a mate or an escape finds its entries in an order of his own. A certificate lists them
//! in the order of the bytes of their positions' SFEN texts. [`mate_certificate`] and
//! [`escape_certificate`] make it of entries that bear out what they claim: it lists the same
//! entries, each once, is valid, and can be read once it is written, where a reader takes that many
//! entries. What else lists positions in that order is put into it by [`text_order`] and
//! [`items_at`].
#![tactic(auto)]

mod certificate;
mod order;

pub use certificate::{escape_certificate, items_at, mate_certificate};
pub use order::text_order;
