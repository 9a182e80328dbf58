// The words of `solution`, and what they ask for. Lines of help end below 80 columns, where a test
// looks.
use clap::{ArgMatches, Command};
use std::alloc::{AllocError, Global};
use tsume_words::{CommandWords, WordsEnd, file, file_word};

/// What `solution` is asked: to judge the solution of one text.
#[derive(Clone, Copy, Debug, PartialEq, Eq)]
pub struct JudgeSolution;

impl CommandWords for JudgeSolution {
    ghost use Rattle.cmd_solution.specs.Words.{solution_words};

    ghost View = { Unit {0} };

    ghost view = { λ asked. tt };

    ghost meaning = { solution_words };

    fn line<'a>(alloc: Global) -> Result<Command<'a>, AllocError> {
        Command::new(alloc, "solution")
            .about("Judges a KIF file's moves: checks and answers in turn, and mate?")
            .after_help(
                "The answer is `solution N mate` where the defender has no answer to the last of\n\
                 N moves, else `solution N open`.\n\n\
                 Status: 0 answered, 2 words refused, 3 a faulty text or a wrong move, 4 reading\n\
                 failed, 5 writing failed, 6 out of memory.\n\n\
                 Example:\n  tsume solution problem.kif",
            )
            .arg(file_word(
                alloc,
                "The KIF file, UTF-8, 65536 bytes at most; - or none: standard input",
            ))
    }

    fn read(_alloc: Global, _given: &ArgMatches<'_>) -> Result<JudgeSolution, WordsEnd> {
        Ok(JudgeSolution)
    }

    fn file(alloc: Global, given: &ArgMatches<'_>) -> Result<Option<String>, AllocError> {
        file(alloc, given)
    }
}
