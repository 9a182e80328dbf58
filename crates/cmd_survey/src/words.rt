// The words of `survey`, and what they ask for. Lines of help end below 80 columns, where a test
// looks.
ghost use Rattle.std.specs.Prelude.{◌≡◌, ◌≤◌, codes, false};
ghost use Rattle.clap.specs.Words.{found_of, rows_of, rule_of};
ghost use Rattle.search_limits.specs.Sizes.{IsFromTo};
ghost use Rattle.search_limits.specs.declared.many.TheConstants.{MOST_SEED, MOST_COUNT};
ghost use Rattle.tsume_words.specs.Given.{HasNumber, number_of};
ghost use Rattle.cmd_survey.specs.Line.{seed_option, count_option};

use clap::{Arg, ArgMatches, Command};
use search_limits::{Expansions, MOST_COUNT, MOST_SEED};
use std::alloc::{AllocError, Global};
use tsume_words::{CommandWords, WordsEnd, expansions, expansions_option, number, number_option};

/// What `survey` is asked: which of the problems that the generator makes are solved, and how long
/// each is tried.
#[derive(Clone, Copy, Debug, PartialEq, Eq)]
pub struct SurveyRange {
    /// The number of the first, 0 to [`MOST_SEED`](search_limits::MOST_SEED).
    pub seed: u64,
    /// How many, 1 to [`MOST_COUNT`](search_limits::MOST_COUNT), by rising number.
    pub count: u32,
    /// How many visits of positions the search of a problem may make before it gives up.
    pub expansions: Expansions,
    pub ghost seed_in_range: { seed ≤ MOST_SEED },
    pub ghost count_in_range: { IsFromTo 1 MOST_COUNT count },
}

fn seed_option<'a>(alloc: Global) -> Arg<'a>
    ensures rule { rule_of result ≡ seed_option }
    ensures local { result.global ≡ false }
{
    number_option(
        alloc,
        "seed",
        0,
        MOST_SEED,
        "0",
        "Number of the first problem, 0 to 1000000000. A number\n\
         stands for the same problem on every machine. It costs\n\
         nothing",
    )
}

fn count_option<'a>(alloc: Global) -> Arg<'a>
    ensures rule { rule_of result ≡ count_option }
    ensures local { result.global ≡ false }
{
    number_option(
        alloc,
        "count",
        1,
        u64::from(MOST_COUNT),
        "100",
        "How many problems, 1 to 10000, by rising number. Each\n\
         is one more search",
    )
}

fn seed(given: &ArgMatches<'_>) -> u64
    requires { HasNumber (codes "seed") 0 MOST_SEED (rows_of (found_of given.now)) }
    ensures number { result ≡ number_of (codes "seed") (rows_of (found_of given.now)) }
    ensures range { result ≤ MOST_SEED }
{
    number(given, "seed")
}

fn count(given: &ArgMatches<'_>) -> u32
    requires { HasNumber (codes "count") 1 MOST_COUNT (rows_of (found_of given.now)) }
    ensures number { result ≡ number_of (codes "count") (rows_of (found_of given.now)) }
    ensures range { IsFromTo 1 MOST_COUNT result }
{
    number(given, "count") as u32
}

impl CommandWords for SurveyRange {
    ghost use Rattle.cmd_survey.specs.Words.{SurveyView, survey_in, survey_words};

    ghost View = { SurveyView };

    ghost view = { survey_in };

    ghost meaning = { survey_words };

    fn line<'a>(alloc: Global) -> Result<Command<'a>, AllocError> {
        Command::new(alloc, "survey")
            .about("Solves problems that it makes by number; counts how they end")
            .after_help(
                "It reads nothing. The expansions count for each problem by itself; each has a\n\
                 table of 1024 rows, 1 MB. The same words print the same four lines everywhere.\n\n\
                 Status: 0 counted, 2 words refused, 5 writing failed, 6 out of memory.\n\n\
                 Example:\n  tsume survey --seed 1000 --count 50",
            )
            .arg(seed_option(alloc))?
            .arg(count_option(alloc))?
            .arg(expansions_option(alloc, "10000"))
    }

    fn read(_alloc: Global, given: &ArgMatches<'_>) -> Result<SurveyRange, WordsEnd> {
        Ok(SurveyRange {
            seed: seed(given),
            count: count(given),
            expansions: expansions(given),
        })
    }

    fn file(_alloc: Global, _given: &ArgMatches<'_>) -> Result<Option<String>, AllocError> {
        Ok(None)
    }
}
