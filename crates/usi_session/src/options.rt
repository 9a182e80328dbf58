// The options of a session.
ghost use Rattle.std.specs.Prelude.{◌≡◌, ◌≤◌, ◌^◌, true, IfSome, IfNone};
ghost use Rattle.usi_session.specs.Options.{shards_for};

use search_limits::{MOST_EXPANSIONS, MOST_ROOM, Setting, Settings, default_shards};

/// The rows of the table of a session that was told nothing of them.
pub const FIRST_ROWS: u64 = 65_536;

/// The options: the settings of a search by them, and what was said of the shards, if anything.
#[derive(Clone, Copy)]
pub struct Options {
    pub settings: Settings,
    pub shards: Option<u64>,
    pub ghost lends: { settings.lends ≡ true },
    pub ghost parts: { settings.shards ≡ shards_for settings.rows shards },
}

impl Options {
    ghost use Rattle.std.specs.Prelude.{Some, ◌↔◌, IfSome, IfNone, IsSome};
    ghost use Rattle.search_limits.specs.Sizes.{AreSound, numbers_of};
    ghost use Rattle.usi_session.specs.Options.{first_options, with_option, numbers_by, shards_for};
    ghost use Rattle.usi_session.specs.Seen.{options_in};

    /// With which a session begins.
    pub fn first() -> Options
        ensures { options_in result ≡ first_options }
    {
        match Options::of(1, MOST_EXPANSIONS, MOST_ROOM, FIRST_ROWS, None) {
            Some(options) => options,
            None => unreachable!(),
        }
    }

    // These options, where they make the settings of a search.
    fn of(
        workers: u32,
        expansions: u64,
        room: u32,
        rows: u64,
        shards: Option<u64>,
    ) -> Option<Options>
        ensures sound { IsSome result
            ↔ AreSound (numbers_of workers expansions room rows (shards_for rows shards)) }
        ensures options { IfSome result (λ options. options_in options ≡ record {
          workers = workers;
          expansions = expansions;
          room = room;
          rows = rows;
          shards = shards;
        }) }
    {
        match Settings::new(workers, expansions, room, rows, shards_of(rows, shards)) {
            Ok(settings) => Some(Options { settings, shards }),
            Err(_) => None,
        }
    }

    /// The options with this number in place of one of them, where they make the settings of a
    /// search.
    pub fn with(&self, setting: Setting, number: u64) -> Option<Options>
        ensures sound { IsSome result
            ↔ AreSound (numbers_by (with_option setting number (options_in self.now))) }
        ensures options { IfSome result (λ options. options_in options
            ≡ with_option setting number (options_in self.now)) }
    {
        let now = self.settings;
        let shards = self.shards;
        match setting {
            Setting::Workers => Options::of(
                count_of(number)?,
                now.expansions,
                now.room,
                now.rows,
                shards,
            ),
            Setting::Expansions => Options::of(now.workers, number, now.room, now.rows, shards),
            Setting::Room => Options::of(
                now.workers,
                now.expansions,
                count_of(number)?,
                now.rows,
                shards,
            ),
            Setting::Rows => Options::of(now.workers, now.expansions, now.room, number, shards),
            Setting::Shards => Options::of(
                now.workers,
                now.expansions,
                now.room,
                now.rows,
                Some(number),
            ),
        }
    }
}

// The shards of a table of so many rows.
fn shards_of(rows: u64, said: Option<u64>) -> u64
    ensures { result ≡ shards_for rows said }
{
    match said {
        Some(shards) => shards,
        None => default_shards(rows),
    }
}

// A number as one of 32 bits; none where it is greater than the greatest of any option that has
// them.
fn count_of(number: u64) -> Option<u32>
    ensures same { IfSome result (λ count. count ≡ number) }
    ensures none { IfNone result (2 ^ 32 ≤ number) }
{
    u32::try_from(number).ok()
}
