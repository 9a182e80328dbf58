//! On which repetitions a disproof depends, and on which paths it may be used.
//!
//! A position that recurs on the path from the root is taken to be no mate there, and a disproof
//! that depends on this may be used only on paths on which that position stands (Kishimoto and
//! Müller 2004). A [`Tag`] is the rising list of the keys of the positions that a disproof depends
//! on, and a [`Path`] the list of the keys of the attacker's positions from the root to where the
//! search is. A tag [`within`](Tag::within) the path says that the disproof holds here.
#![tactic(auto)]

mod laws;
mod merge;
mod path;
mod tag;

pub use laws::{path_laws, tag_laws};
pub use path::Path;
pub use tag::Tag;
