// The words of `solve`. Lines of help end below 80 columns, where a test looks.
ghost use Rattle.std.specs.Prelude.{◌≡◌, IfOk, MatchResult, codes, false, true};
ghost use Rattle.clap.specs.Words.{app_of, found_of, rows_of, rule_of};
ghost use Rattle.clap.specs.declared.builder.command.Command.TheViews.{out-Command as fields_of};
ghost use Rattle.search_limits.specs.Sizes.{IsFromTo};
ghost use Rattle.search_limits.specs.declared.settings.TheConstants.{MOST_WORKERS};
ghost use Rattle.tsume_words.specs.Given.{HasNumber, number_of};
ghost use Rattle.tsume_words.specs.Meaning.{FailFirst, are_sound};
ghost use Rattle.cmd_solve.specs.Asked.{solve_in};
ghost use Rattle.cmd_solve.specs.Line.{library_flag, with_search, workers_option};
ghost use Rattle.cmd_solve.specs.Words.{IsForSearch as IsForIt, search_of};

use crate::Solve;
use clap::{Arg, ArgMatches, Command};
use search_limits::MOST_WORKERS;
use std::alloc::{AllocError, Global};
use tsume_words::{
    Clash, CommandWords, Format, WordFault, WordsEnd, deadline_option, expansions_option, file,
    file_word, flag_option, is_flagged, kif_flag, number, number_option, problem_form,
    progress_flag, rest_flag, room_option, rows_option, search_watch, settings, shards_option,
};

/// What the words of `solve` ask for.
#[derive(Clone, Copy, Debug, PartialEq, Eq)]
pub struct SolveWords {
    /// What is asked of the problem.
    pub solve: Solve,
    /// Whether a library stands behind the problem. A run of [`solve`](crate::solve) reads a
    /// problem all the same: another crate reads both.
    pub library: bool,
}

fn workers_option<'a>(alloc: Global) -> Arg<'a>
    ensures rule { rule_of result ≡ workers_option }
    ensures local { result.global ≡ false }
{
    number_option(
        alloc,
        "workers",
        1,
        u64::from(MOST_WORKERS),
        "1",
        "Workers, a thread each (1 to 64)",
    )
}

fn library_flag<'a>(alloc: Global) -> Arg<'a>
    ensures rule { rule_of result ≡ library_flag }
    ensures local { result.global ≡ false }
{
    flag_option(
        alloc,
        "library",
        "Certificates stand behind the problem's line, of this\n\
         problem or of others: each is checked, and the search\n\
         begins with what they show. A library of 1000000\n\
         entries takes some 700 MB. Off unless given",
    )
}

fn workers(given: &ArgMatches<'_>) -> u32
    requires { HasNumber (codes "workers") 1 MOST_WORKERS (rows_of (found_of given.now)) }
    ensures number { result ≡ number_of (codes "workers") (rows_of (found_of given.now)) }
    ensures range { IsFromTo 1 MOST_WORKERS result }
{
    number(given, "workers") as u32
}

/// Puts behind a command's line what `solve` is asked: the numbers of a search, its deadline, how
/// the problem is read, whether its progress is told, and the file. Errors: want of memory alone.
pub fn search_options<'a>(alloc: Global, line: Command<'a>) -> Result<Command<'a>, AllocError>
    ensures app { IfOk result (λ made. app_of made ≡ with_search (app_of line.entry)) }
    ensures local { (fields_of line.entry).has_globals ≡ false
        → IfOk result (λ made. (fields_of made).has_globals ≡ false) }
{
    line.arg(workers_option(alloc))?
        .arg(expansions_option(alloc, "1000000"))?
        .arg(room_option(alloc))?
        .arg(rows_option(alloc))?
        .arg(shards_option(alloc))?
        .arg(deadline_option(alloc))?
        .arg(kif_flag(alloc))?
        .arg(rest_flag(alloc))?
        .arg(progress_flag(alloc))?
        .arg(file_word(
            alloc,
            "The problem's file, 65536 bytes at most; - or none: standard input",
        ))
}

/// What clap gives for a search, whichever command asks for it, tested. Errors: the first test that
/// fails.
pub fn search_asked(given: &ArgMatches<'_>) -> Result<Solve, WordFault>
    requires { IsForIt (rows_of (found_of given.now)) }
    ensures { MatchResult result
        (λ asked. (solve_in asked ≡ search_of (rows_of (found_of given.now)))
        × (are_sound (search_of (rows_of (found_of given.now))).settings ≡ true))
        (λ fault. FailFirst fault (search_of (rows_of (found_of given.now))).settings) }
{
    let form = problem_form(given);
    let watch = search_watch(given);
    let settings = settings(given, workers(given))?;
    Ok(Solve {
        settings,
        form,
        watch,
    })
}

impl CommandWords for SolveWords {
    ghost use Rattle.cmd_solve.specs.Words.{SolveWordsView, solve_view, solve_words};

    ghost View = { SolveWordsView };

    ghost view = { solve_view };

    ghost meaning = { solve_words };

    fn line<'a>(alloc: Global) -> Result<Command<'a>, AllocError> {
        let line = Command::new(alloc, "solve")
            .about("Solves a problem (SFEN or KIF): its mate, or that there is none")
            .after_help(
                "It prints a certificate too, which `tsume check` accepts. Every interposition\n\
                 counts, also one that only delays (the convention that leaves out useless ones\n\
                 isn't applied), so a mate may be longer than a problem's title says; nor need\n\
                 the mate be the shortest.\n\n\
                 With --library the input is the problem's line, `library 1 K`, K certificates\n\
                 and `end library`, 268435456 bytes at most (SFEN alone, no --kif). The first\n\
                 certificate that isn't valid is told: `refused library I E W`, status 7.\n\n\
                 Status: 0 a mate or none, 1 gave up, 2 words refused, 3 no problem or library,\n\
                 4 reading failed, 5 writing failed, 6 out of memory, 7 library refused.\n\n\
                 Example:\n  echo '4k4/9/4P4/9/9/9/9/9/9 b G 1' | tsume solve --expansions 100000",
            );
        search_options(alloc, line.arg(library_flag(alloc))?)
    }

    fn read(_alloc: Global, given: &ArgMatches<'_>) -> Result<SolveWords, WordsEnd> {
        let library = is_flagged(given, "library");
        let solve = search_asked(given)?;
        if library && solve.form.format == Format::Kif {
            return Err(WordsEnd::Fault(WordFault::Clash(Clash::LibraryWithKif)));
        }
        Ok(SolveWords { solve, library })
    }

    fn file(alloc: Global, given: &ArgMatches<'_>) -> Result<Option<String>, AllocError> {
        file(alloc, given)
    }
}
