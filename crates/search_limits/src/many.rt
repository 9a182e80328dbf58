// How many problems a survey may have.

/// The greatest number with which a survey may begin.
pub const MOST_SEED: u64 = 1_000_000_000;

/// The most problems of a survey.
pub const MOST_COUNT: u32 = 10_000;
