// Versions of what a list says.

/// For which positions those of a list stand, beside themselves. (The versions of certificates are
/// these: docs/formats.md.)
#[derive(Clone, Copy, PartialEq, Eq, Debug)]
pub enum Version {
    /// For none.
    One,
    /// An entry of a mate stands for each position that dominates its own, and a position of an
    /// escape for each that it dominates.
    Two,
}
