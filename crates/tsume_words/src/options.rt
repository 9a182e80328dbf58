// The kinds of options that commands have, and those that several have, as clap is told of them.
// Lines of help end below 80 columns, where a test looks; clap doesn't wrap them.
ghost use Rattle.std.specs.Prelude.{◌≡◌, codes, false};
ghost use Rattle.clap.specs.Words.{rule_of};
ghost use Rattle.tsume_words.specs.Options.{number_option, number_if_any_option, text_option, flag_option, file_word};
ghost use Rattle.tsume_words.specs.Options.{expansions_option, room_option, rows_option, shards_option, deadline_option, progress_flag, kif_flag, rest_flag};

use crate::watch::MOST_DEADLINE;
use clap::builder::ValueParser;
use clap::{Arg, ArgAction};
use search_limits::{LEAST_ROWS, MOST_EXPANSIONS, MOST_ROOM, MOST_ROWS, MOST_SHARDS};
use std::alloc::Global;

/// An option that takes one number of a range, and has a default.
pub fn number_option<'a>(
    alloc: Global,
    name: &'a str,
    low: u64,
    high: u64,
    default: &'a str,
    help: &'a str,
) -> Arg<'a>
    ensures rule { rule_of result ≡ number_option name.entry.now low high default.entry.now }
    ensures local { result.global ≡ false }
{
    Arg::new(alloc, name)
        .long(name)
        .action(ArgAction::Set)
        .value_name("N")
        .default_value(default)
        .value_parser(ValueParser::unsigned(low, high))
        .help(help)
}

/// An option that takes one number of a range, which help calls by this name, and has no default.
pub fn number_if_any_option<'a>(
    alloc: Global,
    name: &'a str,
    value: &'a str,
    low: u64,
    high: u64,
    help: &'a str,
) -> Arg<'a>
    ensures rule { rule_of result ≡ number_if_any_option name.entry.now low high }
    ensures local { result.global ≡ false }
{
    Arg::new(alloc, name)
        .long(name)
        .action(ArgAction::Set)
        .value_name(value)
        .value_parser(ValueParser::unsigned(low, high))
        .help(help)
}

/// An option that takes any text, which help calls by this name, and has no default.
pub fn text_option<'a>(alloc: Global, name: &'a str, value: &'a str, help: &'a str) -> Arg<'a>
    ensures rule { rule_of result ≡ text_option name.entry.now }
    ensures local { result.global ≡ false }
{
    Arg::new(alloc, name)
        .long(name)
        .action(ArgAction::Set)
        .value_name(value)
        .help(help)
}

/// A flag.
pub fn flag_option<'a>(alloc: Global, name: &'a str, help: &'a str) -> Arg<'a>
    ensures rule { rule_of result ≡ flag_option name.entry.now }
    ensures local { result.global ≡ false }
{
    Arg::new(alloc, name)
        .long(name)
        .action(ArgAction::SetTrue)
        .help(help)
}

/// The word that names the file.
pub fn file_word<'a>(alloc: Global, help: &'a str) -> Arg<'a>
    ensures rule { rule_of result ≡ file_word }
    ensures local { result.global ≡ false }
{
    Arg::new(alloc, "file")
        .action(ArgAction::Set)
        .value_name("FILE")
        .help(help)
}

/// How many positions may be visited.
pub fn expansions_option<'a>(alloc: Global, default: &'a str) -> Arg<'a>
    ensures rule { rule_of result ≡ expansions_option default.entry.now }
    ensures local { result.global ≡ false }
{
    number_option(
        alloc,
        "expansions",
        1,
        MOST_EXPANSIONS,
        default,
        "Visits of positions, of both sides, before it gives up,\n\
         1 to 1000000000; a position is visited as often as the\n\
         search comes back to it",
    )
}

/// How many solved positions may be noted down.
pub fn room_option<'a>(alloc: Global) -> Arg<'a>
    ensures rule { rule_of result ≡ room_option }
    ensures local { result.global ≡ false }
{
    number_option(
        alloc,
        "room",
        1,
        u64::from(MOST_ROOM),
        "1000000000",
        "Solved positions that it may note down before it gives\n\
         up, 1 to 1000000000. A visit notes at most one, so this\n\
         is no limit where it isn't given. Each takes some 400\n\
         bytes",
    )
}

/// How many rows the table has.
pub fn rows_option<'a>(alloc: Global) -> Arg<'a>
    ensures rule { rule_of result ≡ rows_option }
    ensures local { result.global ≡ false }
{
    number_option(
        alloc,
        "rows",
        LEAST_ROWS,
        MOST_ROWS,
        "65536",
        "Rows of the table in which it keeps what it knows, a\n\
         power of two, 16 to 16777216. A row takes 1 KB when\n\
         it is used. A larger table helps where the visits\n\
         allowed aren't enough",
    )
}

/// Into how many parts the table is cut, which matters to several workers alone.
pub fn shards_option<'a>(alloc: Global) -> Arg<'a>
    ensures rule { rule_of result ≡ shards_option }
    ensures local { result.global ≡ false }
{
    number_if_any_option(
        alloc,
        "shards",
        "N",
        1,
        MOST_SHARDS,
        "Parts of the table, a lock each: a power of two, 1 to\n\
         256, at most the rows; 64 or the rows, the lesser,\n\
         unless given",
    )
}

/// After how long a search gives up.
pub fn deadline_option<'a>(alloc: Global) -> Arg<'a>
    ensures rule { rule_of result ≡ deadline_option }
    ensures local { result.global ≡ false }
{
    number_if_any_option(
        alloc,
        "deadline",
        "MS",
        1,
        MOST_DEADLINE,
        "Milliseconds after which it gives up, 1 to 86400000 (a\n\
             day), counted from when the problem is read and the\n\
             search begins. Whether it gives up then depends on the\n\
             machine. Default: no end in time",
    )
}

/// That the user is told how far a search has come.
pub fn progress_flag<'a>(alloc: Global) -> Arg<'a>
    ensures rule { rule_of result ≡ progress_flag }
    ensures local { result.global ≡ false }
{
    flag_option(
        alloc,
        "progress",
        "Tell on standard error, a few times a second, how many\n\
             visits were used, and behind a verdict how many. The\n\
             answer stays the same. Off unless given; it costs next\n\
             to nothing",
    )
}

/// That the text is the diagram of a KIF file.
pub fn kif_flag<'a>(alloc: Global) -> Arg<'a>
    ensures rule { rule_of result ≡ kif_flag }
    ensures local { result.global ≡ false }
{
    flag_option(
        alloc,
        "kif",
        "Read the board diagram of a KIF file, in UTF-8, instead\n\
             of an SFEN. Its moves aren't played. Off unless given;\n\
             it costs nothing",
    )
}

/// That the defender is given the rest of the pieces.
pub fn rest_flag<'a>(alloc: Global) -> Arg<'a>
    ensures rule { rule_of result ≡ rest_flag }
    ensures local { result.global ≡ false }
{
    flag_option(
        alloc,
        "rest",
        "Give the defender all pieces but kings that are neither\n\
             on the board nor in a hand, as most printed problems\n\
             mean it. Off unless given; the search may list more",
    )
}
