//! Positions of shogi from KIF texts with a board diagram, in UTF-8.
//!
//! [`read_kif`] reads the diagram, the hands and the side to move from the lines before `手数----`,
//! and names the first fault of any other input with its line, or its row and column. Many texts
//! stand for one position; no text stands for two. Nothing here knows how pieces move, and nothing
//! takes memory. Whoever reads what stands behind the header takes a text apart by the same calls:
//! [`without_mark`], [`header_length`], [`begins`], [`split_first`], [`number_of`] and
//! [`piece_of`].
#![tactic(auto)]

mod characters;
mod fault;
mod hand;
mod header;
mod laws;
mod lines;
mod read;
mod row;

pub use characters::{number_of, piece_of, split_first};
pub use fault::KifFault;
pub use header::header_length;
pub use laws::kif_laws;
pub use lines::{begins, without_mark};
pub use read::read_kif;
