//! What a worker knows in one visit of the search by proof numbers, and what it does next there
//! (df-pn: Nagai 2002): a [`Frame`].
//!
//! A frame lists the successors of its position once, and is told what the table shows of them.
//! From that it reckons which child is to be looked at, whether the node is solved on the path
//! (Kishimoto and Müller 2004), the node's own numbers, and which child is visited next with which
//! thresholds (virtual numbers: Kaneko 2010); where the node is solved, it makes the note. Each
//! call is proved equal to the definitions of `visit_log`: a frame has no rule of its own.
//!
//! A round goes over the children a few times, fills two lists of small values that are as long,
//! and takes no memory but for a note that is lent, which is carried to the child, and for the
//! start numbers that are kept. Listing the children takes memory, once a visit, and so does a
//! note. A frame takes at most 384 bytes, and each child of it at most 136 more.
#![tactic(auto)]

mod frame;
mod listing;
mod making;
mod reckoning;
mod telling;

pub use frame::Frame;
pub use start_numbers::Starts;
