//! The lines of an input, one after the other, whatever pieces its source gives it in.
//!
//! [`InputLines`] reads a source a piece at a time and gives each line once it has come whole: so
//! whoever serves a line has done so before more is read than the piece that brought it. Lines end
//! with a line feed; the last may end with the input. A line and an input have a most of bytes.
#![tactic(auto)]

mod lines;

pub use lines::{InputLines, LineEnd, MOST_INPUT_BYTES, MOST_LINE_BYTES};
