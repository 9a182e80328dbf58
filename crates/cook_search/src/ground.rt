// What the searches of a report have in common.
use search_limits::Settings;
use shogi_rules::Problem;

/// What the searches of a report have in common: the handle for threads and memory, the problem
/// whose checks are reported on, the numbers of each search, and the gate that each visit passes.
#[derive(Drop)]
pub struct Ground<'a, R, G> {
    /// The handle for threads and memory.
    pub rt: &'a R,
    /// The problem.
    pub problem: &'a Problem,
    /// The numbers of each search.
    pub settings: &'a Settings,
    /// The gate.
    pub gate: &'a G,
}
