// The words of `check`, and what they ask for. Lines of help end below 80 columns, where a test
// looks.
ghost use Rattle.std.specs.Prelude.{◌≡◌, codes, false};
ghost use Rattle.std.specs.Option.{ForSome};
ghost use Rattle.clap.specs.Words.{found_of, rows_of, rule_of};
ghost use Rattle.search_limits.specs.Sizes.{IsFromTo};
ghost use Rattle.search_limits.specs.declared.settings.TheConstants.{MOST_WORKERS};
ghost use Rattle.tsume_words.specs.Given.{HasNumberIfAny, number_if_given};
ghost use Rattle.cmd_check.specs.Line.{bound_flag, collection_flag, problem_option, workers_option};
ghost use Rattle.tsume_words.specs.Options.{progress_flag};

use crate::clash::clash_among;
use clap::{Arg, ArgMatches, Command};
use search_limits::MOST_WORKERS;
use std::alloc::{AllocError, Global};
use tsume_words::{
    CommandWords, WordFault, WordsEnd, file, file_word, flag_option, is_flagged,
    number_if_any_option, number_if_given, text, text_option,
};

/// What `check` is asked.
#[derive(Debug, Drop)]
pub struct Check {
    /// The text of the problem that the certificate has to be for, an SFEN, as the words have it;
    /// none where its own problem is meant.
    pub problem: Option<String>,
    /// How many entries are checked at a time, at most, 1 to
    /// [`MOST_WORKERS`](search_limits::MOST_WORKERS); none where it is as many as there are
    /// processors. It changes no byte.
    pub workers: Option<u32>,
    /// Whether the text has a bound: behind a mate's certificate, or alone. A run of
    /// [`check`](crate::check) reads a certificate all the same: another crate reads the other.
    pub bound: bool,
    /// Whether the text is what `collection --certificates` printed, of many certificates. It goes
    /// with neither a bound nor a given problem. A run of [`check`](crate::check) reads one
    /// certificate all the same: another crate reads the many.
    pub collection: bool,
    /// Whether the user is told which problem was accepted.
    pub progress: bool,
    pub ghost workers_in_range: { ForSome workers (IsFromTo 1 MOST_WORKERS) },
}

fn workers_option<'a>(alloc: Global) -> Arg<'a>
    ensures rule { rule_of result ≡ workers_option }
    ensures local { result.global ≡ false }
{
    number_if_any_option(
        alloc,
        "workers",
        "N",
        1,
        u64::from(MOST_WORKERS),
        "Threads that judge the entries side by side, 1 to 64;\n\
         where nothing is said, one a processor, 32 at most.\n\
         It changes no byte of the output, and takes next to no\n\
         memory",
    )
}

fn problem_option<'a>(alloc: Global) -> Arg<'a>
    ensures rule { rule_of result ≡ problem_option }
    ensures local { result.global ≡ false }
{
    text_option(
        alloc,
        "problem",
        "SFEN",
        "Accept the certificate for this problem alone: any SFEN\n\
         that `solve` reads, in quotes. Positions are compared,\n\
         hands too. Default: the certificate's own problem. It\n\
         costs nothing",
    )
}

fn bound_flag<'a>(alloc: Global) -> Arg<'a>
    ensures rule { rule_of result ≡ bound_flag }
    ensures local { result.global ≡ false }
{
    flag_option(
        alloc,
        "bound",
        "Check that no mate is shorter: a mate's certificate and\n\
         a bound behind it (`shortest N`), or a bound alone\n\
         (`none within N`). Off unless given; it costs nothing",
    )
}

fn collection_flag<'a>(alloc: Global) -> Arg<'a>
    ensures rule { rule_of result ≡ collection_flag }
    ensures local { result.global ≡ false }
{
    flag_option(
        alloc,
        "collection",
        "Check what `collection --certificates` printed, parts\n\
         of it too: the certificate behind each line that tells\n\
         a mate or no mate, for its own problem. Neither with\n\
         --bound nor --problem. Off unless given; it costs\n\
         nothing",
    )
}

// The flag has the name of that of a search, and another text.
fn told_flag<'a>(alloc: Global) -> Arg<'a>
    ensures rule { rule_of result ≡ progress_flag }
    ensures local { result.global ≡ false }
{
    flag_option(
        alloc,
        "progress",
        "Tell on standard error which problem was accepted. Off\n\
         unless given; it costs nothing",
    )
}

fn workers(given: &ArgMatches<'_>) -> Option<u32>
    requires { HasNumberIfAny (codes "workers") 1 MOST_WORKERS (rows_of (found_of given.now)) }
    ensures number { result ≡ number_if_given (codes "workers") (rows_of (found_of given.now)) }
    ensures range { ForSome result (IsFromTo 1 MOST_WORKERS) }
{
    match number_if_given(given, "workers") {
        Some(workers) => Some(workers as u32),
        None => None,
    }
}

impl CommandWords for Check {
    ghost use Rattle.cmd_check.specs.Words.{CheckView, check_view, check_words};

    ghost View = { CheckView };

    ghost view = { check_view };

    ghost meaning = { check_words };

    fn line<'a>(alloc: Global) -> Result<Command<'a>, AllocError> {
        Command::new(alloc, "check")
            .about("Checks a certificate, alone or behind the line `solve` prints")
            .after_help(
                "The moves of that first line aren't compared with the certificate. In `accepted\n\
                 mate N` and `accepted escape N` the number counts the certificate's entries,\n\
                 and not moves.\n\n\
                 With --bound the answers are `accepted shortest N`: a mate in N of the\n\
                 attacker's moves, and none shorter; and `accepted none within N`.\n\n\
                 With --collection there is such an answer for each line that tells a verdict,\n\
                 behind the line's number, or `fault` and the fault of its certificate; last\n\
                 comes `certificates C accepted A refused R fault F`.\n\n\
                 Status: 0 accepted, 7 refused, 2 words refused, 3 no certificate, 4 reading\n\
                 failed, 5 writing failed, 6 out of memory. With --collection: 7 where one is\n\
                 refused, else 3 where one is no certificate, else 0.\n\n\
                 Example:\n  tsume solve problem.sfen | tsume check",
            )
            .arg(workers_option(alloc))?
            .arg(problem_option(alloc))?
            .arg(bound_flag(alloc))?
            .arg(collection_flag(alloc))?
            .arg(told_flag(alloc))?
            .arg(file_word(
                alloc,
                "The certificate's file, 268435456 bytes at most; - or none: standard\ninput",
            ))
    }

    fn read(alloc: Global, given: &ArgMatches<'_>) -> Result<Check, WordsEnd> {
        let workers = workers(given);
        let bound = is_flagged(given, "bound");
        let collection = is_flagged(given, "collection");
        let progress = is_flagged(given, "progress");
        let problem = text(alloc, given, "problem")?;
        if let Some(clash) = clash_among(collection, bound, &problem) {
            return Err(WordFault::Clash(clash).into());
        }
        Ok(Check {
            problem,
            workers,
            bound,
            collection,
            progress,
        })
    }

    fn file(alloc: Global, given: &ArgMatches<'_>) -> Result<Option<String>, AllocError> {
        file(alloc, given)
    }
}
