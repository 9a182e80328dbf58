// The words of `cook`. Lines of help end below 80 columns, where a test looks.
ghost use Rattle.std.specs.Prelude.{◌≡◌, false};
ghost use Rattle.clap.specs.Words.{rule_of};
ghost use Rattle.cmd_cook.specs.Line.{line_option};

use crate::Cook;
use clap::{Arg, ArgMatches, Command};
use cmd_solve::{search_asked, search_options};
use std::alloc::{AllocError, Global};
use tsume_words::{CommandWords, WordsEnd, file, text, text_option};

fn line_option<'a>(alloc: Global) -> Arg<'a>
    ensures rule { rule_of result ≡ line_option }
    ensures local { result.global ≡ false }
{
    text_option(
        alloc,
        "line",
        "MOVES",
        "Report at each check along these moves of a solution:\n\
         USI texts, checks and evasions in turn, in quotes, a\n\
         space between two. Default: the problem alone",
    )
}

impl CommandWords for Cook {
    ghost use Rattle.cmd_cook.specs.Asked.{CookView, cook_in};
    ghost use Rattle.cmd_cook.specs.Words.{cook_words};

    ghost View = { CookView };

    ghost view = { cook_in };

    ghost meaning = { cook_words };

    fn line<'a>(alloc: Global) -> Result<Command<'a>, AllocError> {
        let line = Command::new(alloc, "cook")
            .about("Tells which first checks mate: is the first move the only one?")
            .after_help(
                "It prints a word: sound, exactly one first check mates; cooked, two or more do;\n\
                 open, one is unknown, and fewer than two are known to mate; nomate, none does.\n\
                 Behind it comes for each check what shows that it mates or doesn't. Each search\n\
                 behind a check and an evasion has all expansions; the deadline is of the whole.\n\n\
                 With --line it prints such a report for each check of the line, and a word for\n\
                 all: sound, where each is the only one that mates. Where there is no evasion\n\
                 to the last check, its report counts for open alone.\n\n\
                 Status: 0 each check is known, 1 one is unknown, 2 words refused, 3 no problem,\n\
                 4 reading failed, 5 writing failed, 6 out of memory.\n\n\
                 Example:\n  echo '4k4/9/4P4/9/9/9/9/9/9 b G 1' | tsume cook",
            );
        search_options(alloc, line.arg(line_option(alloc))?)
    }

    fn read(alloc: Global, given: &ArgMatches<'_>) -> Result<Cook, WordsEnd> {
        let solve = search_asked(given)?;
        let line = text(alloc, given, "line")?;
        Ok(Cook { solve, line })
    }

    fn file(alloc: Global, given: &ArgMatches<'_>) -> Result<Option<String>, AllocError> {
        file(alloc, given)
    }
}
