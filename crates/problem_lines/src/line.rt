// A line that holds a problem.

/// The most bytes that the text of a problem may have; of a line with one, its remark among them,
/// and its end not.
pub const MOST_PROBLEM_BYTES: usize = 65_536;

/// A line of a collection that holds a problem.
#[derive(Clone, Copy, Debug)]
pub struct Line<'a> {
    /// Its number; skipped lines count, too.
    pub number: u64,
    /// The bytes of the problem: the line without its end and without its remark.
    pub content: &'a [u8],
    /// The bytes of its remark, from the tab on with which it begins, without the line's end; empty
    /// where there is none.
    pub remark: &'a [u8],
    /// Whether the line has more than [`MOST_PROBLEM_BYTES`] bytes.
    pub is_too_long: bool,
}
