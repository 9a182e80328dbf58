// What clap gives for options.
ghost use Rattle.std.specs.Prelude.{◌≡◌, ◌≤◌, IfOk, codes, option_map, string_bytes};
ghost use Rattle.clap.specs.Words.{found_of, rows_of};
ghost use Rattle.tsume_words.specs.Given.{HasFlag, HasNumber, HasNumberIfAny, IsForSearch, IsNumberGiven, IsNumberIfAny};
ghost use Rattle.tsume_words.specs.Given.{file_of, form_of, is_flagged, number_of, number_if_given, settings_by, shards_for, text_of, watch_in, watch_of};
ghost use Rattle.tsume_words.specs.Meaning.{AreTested};
ghost use Rattle.search_limits.specs.Sizes.{IsFromTo};
ghost use Rattle.search_limits.specs.declared.settings.TheConstants.{MOST_WORKERS, MOST_ROOM, LEAST_ROWS, MOST_ROWS, MOST_SHARDS};
ghost use Rattle.tsume_words.specs.declared.watch.TheConstants.{MOST_DEADLINE};
ghost use Rattle.search_limits.specs.declared.expansions.TheConstants.{MOST_EXPANSIONS};

use crate::{Format, ProblemForm, Watch, WordFault};
use clap::ArgMatches;
use search_limits::{Expansions, Settings, SettingsFault, default_shards, power_laws};
use std::alloc::{AllocError, Global};

/// The number that clap gives for the option of this name.
pub fn number(given: &ArgMatches<'_>, name: &str) -> u64
    requires { IsNumberGiven name.now (rows_of (found_of given.now)) }
    ensures { result ≡ number_of name.now (rows_of (found_of given.now)) }
{
    given.get_one::<u64>(name).unwrap()
}

/// The number that clap gives for the option of this name, which has no default.
pub fn number_if_given(given: &ArgMatches<'_>, name: &str) -> Option<u64>
    requires { IsNumberIfAny name.now (rows_of (found_of given.now)) }
    ensures { result ≡ number_if_given name.now (rows_of (found_of given.now)) }
{
    given.get_one::<u64>(name)
}

/// Whether clap found the flag of this name.
pub fn is_flagged(given: &ArgMatches<'_>, name: &str) -> bool
    requires { HasFlag name.now (rows_of (found_of given.now)) }
    ensures { result ≡ is_flagged name.now (rows_of (found_of given.now)) }
{
    given.get_flag(name)
}

/// The text that clap gives for the option of this name. Errors: want of memory alone.
pub fn text(alloc: Global, given: &ArgMatches<'_>, name: &str) -> Result<Option<String>, AllocError>
    ensures { IfOk result (λ text. option_map string_bytes text
        ≡ text_of name.now (rows_of (found_of given.now))) }
{
    match given.get_str(name) {
        Some(text) => Ok(Some(String::from_str(alloc, text)?)),
        None => Ok(None),
    }
}

/// The file that clap gives for a command: none for the standard input. Errors: want of memory
/// alone.
pub fn file(alloc: Global, given: &ArgMatches<'_>) -> Result<Option<String>, AllocError>
    ensures { IfOk result (λ file. option_map string_bytes file
        ≡ file_of (rows_of (found_of given.now))) }
{
    let Some(word) = text(alloc, given, "file")? else {
        return Ok(None);
    };
    if word.as_str() == "-" {
        return Ok(None);
    }
    Ok(Some(word))
}

/// How many visits of positions clap gives for a search.
pub fn expansions(given: &ArgMatches<'_>) -> Expansions
    requires { HasNumber (codes "expansions") 1 MOST_EXPANSIONS (rows_of (found_of given.now)) }
    ensures { result.count ≡ number_of (codes "expansions") (rows_of (found_of given.now)) }
{
    Expansions {
        count: number(given, "expansions"),
    }
}

// How many notes it gives for one.
fn room(given: &ArgMatches<'_>) -> u32
    requires { HasNumber (codes "room") 1 MOST_ROOM (rows_of (found_of given.now)) }
    ensures { result ≡ number_of (codes "room") (rows_of (found_of given.now)) }
{
    number(given, "room") as u32
}

// How many rows it gives for one.
fn rows(given: &ArgMatches<'_>) -> u64
    requires { HasNumber (codes "rows") LEAST_ROWS MOST_ROWS (rows_of (found_of given.now)) }
    ensures number { result ≡ number_of (codes "rows") (rows_of (found_of given.now)) }
    ensures range { IsFromTo LEAST_ROWS MOST_ROWS result }
{
    number(given, "rows")
}

// The parts of a table of so many rows: as many as the words say, or else as many as it has by
// default.
fn shards(given: &ArgMatches<'_>, rows: u64) -> u64
    requires shards { HasNumberIfAny (codes "shards") 1 MOST_SHARDS (rows_of (found_of given.now)) }
    requires rows { LEAST_ROWS ≤ rows }
    ensures number { result
        ≡ shards_for rows (number_if_given (codes "shards") (rows_of (found_of given.now))) }
    ensures range { IsFromTo 1 MOST_SHARDS result }
{
    match number_if_given(given, "shards") {
        Some(shards) => shards,
        None => default_shards(rows),
    }
}

/// The numbers that clap gives for a search by so many workers, tested. Errors: the first test that
/// fails.
pub fn settings(given: &ArgMatches<'_>, workers: u32) -> Result<Settings, WordFault>
    requires workers { IsFromTo 1 MOST_WORKERS workers }
    requires given { IsForSearch (rows_of (found_of given.now)) }
    ensures { AreTested (settings_by workers (rows_of (found_of given.now))) result }
{
    let expansions = expansions(given).count;
    let room = room(given);
    let rows = rows(given);
    let shards = shards(given, rows);
    power_laws();
    match Settings::new(workers, expansions, room, rows, shards) {
        Ok(settings) => Ok(settings),
        Err(SettingsFault::NotPowerOfTwo(size)) => Err(WordFault::NotPowerOfTwo(size)),
        Err(SettingsFault::MoreShardsThanRows) => Err(WordFault::MoreShardsThanRows),
        // Clap sees to the ranges.
        Err(SettingsFault::OutOfRange(_)) => unreachable!(),
    }
}

/// How the words say that the problem is given.
pub fn problem_form(given: &ArgMatches<'_>) -> ProblemForm
    requires kif { HasFlag (codes "kif") (rows_of (found_of given.now)) }
    requires rest { HasFlag (codes "rest") (rows_of (found_of given.now)) }
    ensures { result ≡ form_of (rows_of (found_of given.now)) }
{
    let format = if is_flagged(given, "kif") {
        Format::Kif
    } else {
        Format::Sfen
    };
    let rest = is_flagged(given, "rest");
    ProblemForm { format, rest }
}

/// How the words say that the search is watched.
pub fn search_watch(given: &ArgMatches<'_>) -> Watch
    requires deadline { HasNumberIfAny (codes "deadline") 1 MOST_DEADLINE
        (rows_of (found_of given.now)) }
    requires progress { HasFlag (codes "progress") (rows_of (found_of given.now)) }
    ensures { watch_in result ≡ watch_of (rows_of (found_of given.now)) }
{
    let deadline = number_if_given(given, "deadline");
    let progress = is_flagged(given, "progress");
    Watch { deadline, progress }
}
