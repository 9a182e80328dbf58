// Where a worker may be held up.

/// A gate that a worker passes once for each expansion, when it has drawn it and before it does it,
/// with no lock held. Workers and expansions are numbered from 1. It answers nothing, so no result
/// depends on it.
pub trait Gate: Sync {
    /// The worker of this number has drawn the expansion of this number.
    fn pass(&self, worker: u32, expansion: u64);
}

/// A gate that holds nobody up.
#[derive(Clone, Copy, Debug, PartialEq, Eq)]
pub struct OpenGate;

impl Gate for OpenGate {
    fn pass(&self, _worker: u32, _expansion: u64) {}
}
