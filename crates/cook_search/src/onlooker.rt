// Who looks on while the checks of a problem are searched.
use search_gate::OpenGate;

/// Who is told how far the searches of a report have come, if he wants to hear it. Nothing is
/// answered to them, so no result depends on it.
pub trait CheckOnlooker: Sync {
    /// The positions behind this check are searched next: its number, from 1, of so many.
    fn begins(&self, _number: usize, _all: usize) {}
}

// Nobody looks on.
impl CheckOnlooker for OpenGate {}
