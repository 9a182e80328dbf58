// Who looks on while a collection is decided.
use crate::Report;
use search_gate::OpenGate;

/// Who looks on while the lines of a collection are decided, round by round, and has the clock that
/// rounds and deadlines go by. It answers nothing else, so no report depends on it but for one of a
/// search that its deadline stopped.
pub trait Onlooker: Sync {
    /// How many milliseconds have passed since a start of its own.
    fn now(&self) -> u64;

    /// So many lines are to be decided.
    fn begin(&self, lines: usize);

    /// A round of lines is to be decided next. Those before it are told.
    fn begin_round(&self);

    /// A line was decided, and this is told of it.
    fn see(&self, report: &Report);
}

// Nobody looks on, and no time passes.
impl Onlooker for OpenGate {
    fn now(&self) -> u64 {
        0
    }

    fn begin(&self, _lines: usize) {}

    fn begin_round(&self) {}

    fn see(&self, _report: &Report) {}
}
