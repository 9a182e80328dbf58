// Why numbers make no settings.

/// One of the numbers of [`Settings`](crate::Settings).
#[derive(Clone, Copy, PartialEq, Eq, Debug)]
pub enum Setting {
    /// The workers.
    Workers,
    /// The visits, the setting `expansions`.
    Expansions,
    /// The room for notes.
    Room,
    /// The rows of the table.
    Rows,
    /// The parts of the table.
    Shards,
}

/// Which size of the table of positions.
#[derive(Clone, Copy, PartialEq, Eq, Debug)]
pub enum Size {
    /// The rows.
    Rows,
    /// The shards.
    Shards,
}

/// Why numbers make no settings: the first test that fails, in the order of these, and of the
/// numbers in each.
#[derive(Clone, Copy, PartialEq, Eq, Debug)]
pub enum SettingsFault {
    /// This number is outside its range.
    OutOfRange(Setting),
    /// This size is no power of two.
    NotPowerOfTwo(Size),
    /// There are more shards than rows.
    MoreShardsThanRows,
}
