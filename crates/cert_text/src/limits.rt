// How great a certificate may be.

/// The greatest number of entries that a certificate is read with.
pub const MOST_ENTRIES: u32 = 1_400_000;
