// What the words of a command are of its own.
use crate::WordsEnd;
use clap::{ArgMatches, Command};
use std::alloc::{AllocError, Global};

/// The words of a command: its line of the command line, and what they ask for, which is the type's
/// own. A program reads the words of all its commands in one way.
pub trait CommandWords: Drop + Sized {
    ghost use Rattle.std.specs.Prelude.{◌≡◌, IfOk, false, option_map, string_bytes};
    ghost use Rattle.clap.specs.Words.{app_of, found_of, rows_of};
    ghost use Rattle.clap.specs.declared.builder.command.Command.TheViews.{out-Command as fields_of};
    ghost use Rattle.tsume_words.specs.Meaning.{CommandMeaning, IsOutcome};

    /// What they ask for, as contracts see it.
    ghost View: { Type 0 };

    /// What this asks for.
    ghost view: { Self → View };

    /// What they mean.
    ghost meaning: { CommandMeaning View };

    /// The command's line, as clap is told of it. Errors: want of memory alone.
    fn line<'a>(alloc: Global) -> Result<Command<'a>, AllocError>
        ensures app { IfOk result (λ command. app_of command ≡ meaning.line) }
        ensures local { IfOk result (λ command. (fields_of command).has_globals ≡ false) };

    /// What the words ask for, by what clap gives for them, tested. Errors: the first test that
    /// fails; want of memory.
    fn read(alloc: Global, given: &ArgMatches<'_>) -> Result<Self, WordsEnd>
        requires { meaning.IsGiven (rows_of (found_of given.now)) }
        ensures { IsOutcome meaning.tests view (meaning.given (rows_of (found_of given.now))) result };

    /// The file that is read: none for the standard input, and where the command reads nothing.
    /// Errors: want of memory alone.
    fn file(alloc: Global, given: &ArgMatches<'_>) -> Result<Option<String>, AllocError>
        ensures { IfOk result (λ file. option_map string_bytes file
            ≡ meaning.file (rows_of (found_of given.now))) };
}
