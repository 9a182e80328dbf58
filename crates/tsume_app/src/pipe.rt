// Whether somebody still reads what is written.

/// What knows whether the reader of the answer went away, as one does that closed its pipe
/// (`tsume .. | head -1`). No clause says when it does: nothing depends on it but whether the user
/// is told that the answer couldn't be written.
pub trait Pipe {
    /// Whether a write was refused since nobody reads any more.
    fn is_closed(&self) -> bool;
}

/// A pipe that nobody closes, or no pipe.
#[derive(Clone, Copy, Debug, PartialEq, Eq)]
pub struct OpenPipe;

impl Pipe for OpenPipe {
    fn is_closed(&self) -> bool {
        false
    }
}
