// Settings are made of numbers that pass each test.
ghost use Rattle.std.specs.Prelude.{◌≡◌, ◌↔◌, false, IsTrue, IsOk, IfOk, IfErr, IfSome, IfNone};
ghost use Rattle.std.specs.Int.{IsPowerOfTwo};
ghost use Rattle.search_limits.specs.Sizes.{IsFromTo, AreInRange, AreSound, numbers_of};
ghost use Rattle.search_limits.specs.Settings.{FailFirst, IsFirstOutside, PowersHaveOneBit, settings_in};

use crate::{
    LEAST_ROWS, MOST_EXPANSIONS, MOST_ROOM, MOST_ROWS, MOST_SHARDS, MOST_WORKERS, Setting,
    Settings, SettingsFault, Size,
};

impl Settings {
    /// Settings of these numbers, for a table that lends; refused exactly where one of the tests
    /// fails, with the first that does: the workers, the expansions, the room, the rows and the
    /// shards lie in their ranges, the rows are a power of two, the shards are one, and there are
    /// no more shards than rows. Takes no memory.
    pub fn new(
        workers: u32,
        expansions: u64,
        room: u32,
        rows: u64,
        shards: u64,
    ) -> Result<Settings, SettingsFault>
        ensures numbers { IfOk result (λ settings. settings_in settings
            ≡ numbers_of workers expansions room rows shards) }
        ensures sound { IsOk result ↔ AreSound (numbers_of workers expansions room rows shards) }
        ensures fault { IfErr result
            (λ fault. FailFirst fault (numbers_of workers expansions room rows shards)) }
    {
        if let Some(setting) = out_of_range(workers, expansions, room, rows, shards) {
            return Err(SettingsFault::OutOfRange(setting));
        }
        if !is_power_of_two(rows) {
            return Err(SettingsFault::NotPowerOfTwo(Size::Rows));
        }
        if !is_power_of_two(shards) {
            return Err(SettingsFault::NotPowerOfTwo(Size::Shards));
        }
        if shards > rows {
            return Err(SettingsFault::MoreShardsThanRows);
        }
        Ok(Settings {
            workers,
            expansions,
            room,
            rows,
            shards,
            lends: true,
        })
    }

    /// The same numbers, for a table that lends nothing: a search with these carries no note from
    /// one hand to another. Takes no memory.
    pub fn lending_nothing(self) -> Settings
        ensures { settings_in result ≡ record (settings_in self) { lends = false } }
    {
        Settings {
            workers: self.workers,
            expansions: self.expansions,
            room: self.room,
            rows: self.rows,
            shards: self.shards,
            lends: false,
        }
    }
}

// The first of the numbers that is outside its range.
fn out_of_range(workers: u32, expansions: u64, room: u32, rows: u64, shards: u64) -> Option<Setting>
    ensures some { IfSome result
        (λ setting. IsFirstOutside setting (numbers_of workers expansions room rows shards)) }
    ensures none { IfNone result (AreInRange (numbers_of workers expansions room rows shards)) }
{
    if !is_within(u64::from(workers), 1, u64::from(MOST_WORKERS)) {
        return Some(Setting::Workers);
    }
    if !is_within(expansions, 1, MOST_EXPANSIONS) {
        return Some(Setting::Expansions);
    }
    if !is_within(u64::from(room), 1, u64::from(MOST_ROOM)) {
        return Some(Setting::Room);
    }
    if !is_within(rows, LEAST_ROWS, MOST_ROWS) {
        return Some(Setting::Rows);
    }
    if !is_within(shards, 1, MOST_SHARDS) {
        return Some(Setting::Shards);
    }
    None
}

// Whether a number lies between two others, or is one of them.
fn is_within(number: u64, low: u64, high: u64) -> bool
    ensures { IsTrue result ↔ IsFromTo low high number }
{
    low <= number && number <= high
}

/// A law: a number has one bit exactly where it is a power of two. Does nothing; whoever has to
/// tell the one by the other calls it.
pub fn power_laws()
    ensures { PowersHaveOneBit }
{}

// Whether a number is a power of two.
fn is_power_of_two(number: u64) -> bool
    ensures { IsTrue result ↔ IsPowerOfTwo number }
{
    number.is_power_of_two()
}
