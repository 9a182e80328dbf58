// The numbers that a search is run with.
ghost use Rattle.std.specs.Prelude.{◌≡◌, ◌≤◌, min};
ghost use Rattle.std.specs.Int.{IsPowerOfTwo};
ghost use Rattle.search_limits.specs.Sizes.{IsFromTo};
ghost use Rattle.search_limits.specs.declared.expansions.TheConstants.{MOST_EXPANSIONS};
ghost use Rattle.search_limits.specs.declared.settings.TheConstants.{MOST_WORKERS, MOST_ROOM, LEAST_ROWS, MOST_ROWS, MOST_SHARDS, DEFAULT_SHARDS};

/// The most workers of a search.
pub const MOST_WORKERS: u32 = 64;

/// The most notes that a search may make. As a visit makes at most one, this is no limit of its
/// own.
pub const MOST_ROOM: u32 = 1_000_000_000;

/// The fewest rows of a table of positions.
pub const LEAST_ROWS: u64 = 16;

/// The most rows of a table of positions: some 15 GB.
pub const MOST_ROWS: u64 = 16_777_216;

/// The most parts of a table of positions that are locked each by itself.
pub const MOST_SHARDS: u64 = 256;

/// The parts of a table where nothing is said of them, if it has as many rows.
pub const DEFAULT_SHARDS: u64 = 64;

/// The numbers that a search is run with, and whether its table lends what it knows of other hands.
/// Each number lies in its range, the rows and the shards are powers of two, and there are no more
/// shards than rows.
#[derive(Clone, Copy, PartialEq, Eq, Debug)]
pub struct Settings {
    /// Workers that search, 1 to [`MOST_WORKERS`].
    pub workers: u32,
    /// Visits of positions before the search gives up, 1 to
    /// [`MOST_EXPANSIONS`](crate::MOST_EXPANSIONS).
    pub expansions: u64,
    /// Notes that the search may make, 1 to [`MOST_ROOM`].
    pub room: u32,
    /// Rows of the table of positions, a power of two from [`LEAST_ROWS`] to [`MOST_ROWS`].
    pub rows: u64,
    /// Parts of the table that are locked each by itself, a power of two from 1 to [`MOST_SHARDS`].
    pub shards: u64,
    /// Whether the table lends what it knows of other hands on the same board.
    pub lends: bool,
    pub ghost workers_in_range: { IsFromTo 1 MOST_WORKERS workers },
    pub ghost expansions_in_range: { IsFromTo 1 MOST_EXPANSIONS expansions },
    pub ghost room_in_range: { IsFromTo 1 MOST_ROOM room },
    pub ghost rows_in_range: { IsFromTo LEAST_ROWS MOST_ROWS rows },
    pub ghost shards_in_range: { IsFromTo 1 MOST_SHARDS shards },
    pub ghost rows_power_of_two: { ∥ IsPowerOfTwo rows ∥₁ },
    pub ghost shards_power_of_two: { ∥ IsPowerOfTwo shards ∥₁ },
    pub ghost shards_within_rows: { shards ≤ rows },
}

/// The parts of a table of so many rows where nothing is said of them: the lesser of
/// [`DEFAULT_SHARDS`] and the rows.
pub fn default_shards(rows: u64) -> u64
    ensures { result ≡ min DEFAULT_SHARDS rows }
{
    rows.min(DEFAULT_SHARDS)
}
