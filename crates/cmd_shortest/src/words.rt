// The words of `shortest`. Lines of help end below 80 columns, where a test looks.
ghost use Rattle.std.specs.Prelude.{◌≡◌, codes, false};
ghost use Rattle.clap.specs.Words.{found_of, rows_of, rule_of};
ghost use Rattle.search_limits.specs.Sizes.{IsFromTo};
ghost use Rattle.shortest_mate.specs.declared.search.TheConstants.{MOST_LIMIT};
ghost use Rattle.tsume_words.specs.Given.{HasNumber, number_of};
ghost use Rattle.cmd_shortest.specs.Line.{limit_option};

use crate::Shortest;
use clap::{Arg, ArgMatches, Command};
use shortest_mate::MOST_LIMIT;
use std::alloc::{AllocError, Global};
use tsume_words::{
    CommandWords, WordsEnd, deadline_option, expansions, expansions_option, file, file_word,
    kif_flag, number, number_option, problem_form, progress_flag, rest_flag, search_watch,
};

fn limit_option<'a>(alloc: Global) -> Arg<'a>
    ensures rule { rule_of result ≡ limit_option }
    ensures local { result.global ≡ false }
{
    number_option(
        alloc,
        "limit",
        1,
        u64::from(MOST_LIMIT),
        "50",
        "Moves of the attacker up to which it looks for a mate,\n\
         1 to 2000. Where there is a mate, a greater number\n\
         costs nothing",
    )
}

fn limit(given: &ArgMatches<'_>) -> u32
    requires { HasNumber (codes "limit") 1 MOST_LIMIT (rows_of (found_of given.now)) }
    ensures number { result ≡ number_of (codes "limit") (rows_of (found_of given.now)) }
    ensures range { IsFromTo 1 MOST_LIMIT result }
{
    number(given, "limit") as u32
}

impl CommandWords for Shortest {
    ghost use Rattle.cmd_shortest.specs.Asked.{ShortestView, shortest_in};
    ghost use Rattle.cmd_shortest.specs.Words.{shortest_words};

    ghost View = { ShortestView };

    ghost view = { shortest_in };

    ghost meaning = { shortest_words };

    fn line<'a>(alloc: Global) -> Result<Command<'a>, AllocError> {
        Command::new(alloc, "shortest")
            .about("Finds the shortest mate of a problem, and that none is shorter")
            .after_help(
                "It prints the mate's certificate and a bound behind it, which\n\
                 `tsume check --bound` accepts. Every interposition counts, as for solve. The\n\
                 expansions bound its memory: 100 MB for each million.\n\n\
                 Status: 0 the shortest mate, or none within the limit, 1 gave up, 2 words\n\
                 refused, 3 no problem, 4 reading failed, 5 writing failed, 6 out of memory.\n\n\
                 Example:\n  echo '9/4k4/8R/9/9/9/9/9/9 b R 1' | tsume shortest | tsume check --bound",
            )
            .arg(limit_option(alloc))?
            .arg(expansions_option(alloc, "1000000"))?
            .arg(deadline_option(alloc))?
            .arg(kif_flag(alloc))?
            .arg(rest_flag(alloc))?
            .arg(progress_flag(alloc))?
            .arg(file_word(
                alloc,
                "The problem's file, 65536 bytes at most; - or none: standard input",
            ))
    }

    fn read(_alloc: Global, given: &ArgMatches<'_>) -> Result<Shortest, WordsEnd> {
        Ok(Shortest {
            limit: limit(given),
            expansions: expansions(given),
            form: problem_form(given),
            watch: search_watch(given),
        })
    }

    fn file(alloc: Global, given: &ArgMatches<'_>) -> Result<Option<String>, AllocError> {
        file(alloc, given)
    }
}
