// The words of `collection`. Lines of help end below 80 columns, where a test looks.
ghost use Rattle.std.specs.Prelude.{◌≡◌, codes, false};
ghost use Rattle.std.specs.Option.{ForSome};
ghost use Rattle.clap.specs.Words.{found_of, rows_of, rule_of};
ghost use Rattle.search_limits.specs.Sizes.{IsFromTo};
ghost use Rattle.tsume_words.specs.Given.{HasNumber, HasNumberIfAny, number_if_given, number_of};
ghost use Rattle.tsume_words.specs.Options.{deadline_option, progress_flag};
ghost use Rattle.tsume_words.specs.declared.watch.TheConstants.{MOST_DEADLINE};
ghost use Rattle.cmd_collection.specs.declared.form.TheConstants.{MOST_FIRST, MOST_THREADS};
ghost use Rattle.cmd_collection.specs.Line.{certificates_flag, first_option, remarks_flag, threads_option};
ghost use Rattle.cmd_collection.specs.Words.{IsForCollection, collection_in, collection_of};

use crate::{Collection, CollectionForm, MOST_FIRST, MOST_THREADS};
use clap::{Arg, ArgMatches, Command};
use std::alloc::{AllocError, Global};
use tsume_words::{
    CommandWords, MOST_DEADLINE, WordsEnd, expansions_option, file, file_word, flag_option,
    is_flagged, number, number_if_any_option, number_if_given, number_option, rest_flag,
    room_option, rows_option, settings, shards_option,
};

fn threads_option<'a>(alloc: Global) -> Arg<'a>
    ensures rule { rule_of result ≡ threads_option }
    ensures local { result.global ≡ false }
{
    number_if_any_option(
        alloc,
        "threads",
        "N",
        1,
        MOST_THREADS,
        "Problems that are decided side by side, 1 to 64; where\n\
             nothing is said, one a processor, 32 at most. It\n\
             changes no byte of the output, unless there is a\n\
             deadline. Each takes the memory\n\
             of a search: a table of so many rows, 64 MB where\n\
             nothing is said of them, and its notes",
    )
}

fn deadline_option<'a>(alloc: Global) -> Arg<'a>
    ensures rule { rule_of result ≡ deadline_option }
    ensures local { result.global ≡ false }
{
    number_if_any_option(
        alloc,
        "deadline",
        "MS",
        1,
        MOST_DEADLINE,
        "Milliseconds after which each search gives up, 1 to\n\
             86400000 (a day), counted from when it begins. Which\n\
             ones do depends on the machine. Default: no end in time",
    )
}

fn first_option<'a>(alloc: Global) -> Arg<'a>
    ensures rule { rule_of result ≡ first_option }
    ensures local { result.global ≡ false }
{
    number_option(
        alloc,
        "first",
        1,
        MOST_FIRST,
        "1",
        "Number of the text's first line, 1 to 1000000000: so\n\
             that a part of a longer text keeps its lines' numbers.\n\
             It costs nothing",
    )
}

fn remarks_flag<'a>(alloc: Global) -> Arg<'a>
    ensures rule { rule_of result ≡ remarks_flag }
    ensures local { result.global ≡ false }
{
    flag_option(
        alloc,
        "remarks",
        "End each line that tells of a problem with the remark\n\
             of its line in the text, behind a tab. Off unless\n\
             given; it costs nothing",
    )
}

fn certificates_flag<'a>(alloc: Global) -> Arg<'a>
    ensures rule { rule_of result ≡ certificates_flag }
    ensures local { result.global ≡ false }
{
    flag_option(
        alloc,
        "certificates",
        "Print the certificate of each mate and each no mate\n\
             behind its line. Off unless given; the output may be\n\
             many times longer, the search isn't",
    )
}

fn progress_flag<'a>(alloc: Global) -> Arg<'a>
    ensures rule { rule_of result ≡ progress_flag }
    ensures local { result.global ≡ false }
{
    flag_option(
        alloc,
        "progress",
        "Tell on standard error, about once a second, how many\n\
             problems of how many are decided, of them m mates, n\n\
             without one, u unknown and f faults, and for how long\n\
             it has run. The output stays the same. Off unless given",
    )
}

fn threads(given: &ArgMatches<'_>) -> Option<u32>
    requires { HasNumberIfAny (codes "threads") 1 MOST_THREADS (rows_of (found_of given.now)) }
    ensures number { result ≡ number_if_given (codes "threads") (rows_of (found_of given.now)) }
    ensures range { ForSome result (IsFromTo 1 MOST_THREADS) }
{
    match number_if_given(given, "threads") {
        Some(threads) => Some(threads as u32),
        None => None,
    }
}

fn first(given: &ArgMatches<'_>) -> u64
    requires { HasNumber (codes "first") 1 MOST_FIRST (rows_of (found_of given.now)) }
    ensures number { result ≡ number_of (codes "first") (rows_of (found_of given.now)) }
    ensures range { IsFromTo 1 MOST_FIRST result }
{
    number(given, "first")
}

fn deadline(given: &ArgMatches<'_>) -> Option<u64>
    requires { HasNumberIfAny (codes "deadline") 1 MOST_DEADLINE (rows_of (found_of given.now)) }
    ensures number { result ≡ number_if_given (codes "deadline") (rows_of (found_of given.now)) }
    ensures range { ForSome result (IsFromTo 1 MOST_DEADLINE) }
{
    number_if_given(given, "deadline")
}

fn collection_form(given: &ArgMatches<'_>) -> CollectionForm
    requires { IsForCollection (rows_of (found_of given.now)) }
    ensures { collection_in result ≡ collection_of (rows_of (found_of given.now)) }
{
    let rest = is_flagged(given, "rest");
    let certificates = is_flagged(given, "certificates");
    let first = first(given);
    let remarks = is_flagged(given, "remarks");
    let threads = threads(given);
    let deadline = deadline(given);
    let progress = is_flagged(given, "progress");
    CollectionForm {
        rest,
        certificates,
        first,
        remarks,
        threads,
        deadline,
        progress,
    }
}

impl CommandWords for Collection {
    ghost use Rattle.cmd_collection.specs.Asked.{collect_in};
    ghost use Rattle.cmd_collection.specs.Words.{CollectView, collection_words};

    ghost View = { CollectView };

    ghost view = { collect_in };

    ghost meaning = { collection_words };

    fn line<'a>(alloc: Global) -> Result<Command<'a>, AllocError> {
        Command::new(alloc, "collection")
            .about("Tells of every problem of a text, an SFEN a line, what is found")
            .after_help(
                "What follows a tab in a line is a remark. A line that is empty then, or of\n\
                 spaces alone, or that begins with #, is skipped. A line of the output begins\n\
                 with the number of the input's line; the last line has the counts. The\n\
                 expansions, the room and the rows count for each problem by itself. As with\n\
                 `solve`, every interposition counts, and a mate need not be the shortest.\n\n\
                 Status: 0 a verdict for each, 1 gave up on one, 3 a line is no problem or the\n\
                 text is too long, 2 words refused, 4 reading failed, 5 writing failed, 6 out of\n\
                 memory.\n\n\
                 Example:\n  tsume collection problems.txt --rest",
            )
            .arg(expansions_option(alloc, "100000"))?
            .arg(room_option(alloc))?
            .arg(rows_option(alloc))?
            .arg(shards_option(alloc))?
            .arg(threads_option(alloc))?
            .arg(deadline_option(alloc))?
            .arg(first_option(alloc))?
            .arg(rest_flag(alloc))?
            .arg(certificates_flag(alloc))?
            .arg(remarks_flag(alloc))?
            .arg(progress_flag(alloc))?
            .arg(file_word(
                alloc,
                "The text's file, 16777216 bytes at most; - or none: standard input",
            ))
    }

    fn read(_alloc: Global, given: &ArgMatches<'_>) -> Result<Collection, WordsEnd> {
        let form = collection_form(given);
        let settings = settings(given, 1)?;
        Ok(Collection { settings, form })
    }

    fn file(alloc: Global, given: &ArgMatches<'_>) -> Result<Option<String>, AllocError> {
        file(alloc, given)
    }
}
