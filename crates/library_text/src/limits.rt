// How great a library may be.

/// The greatest number of certificates that a library is read with.
pub const MOST_CERTIFICATES: u32 = 10_000;
