// What is done with the words of each command.
ghost use Rattle.std.specs.Prelude.{◌≡◌, IfOk, IsSomeAnd, option_and_then, option_map, string_bytes};
ghost use Rattle.clap.specs.Words.{app_of, found_of, rows_of, subcommand_rows_of, with_subcommand};
ghost use Rattle.tsume_words.specs.Meaning.{IsOutcome};
ghost use Rattle.program_words.specs.Commands.{commands};
ghost use Rattle.program_words.specs.Line.{tsume_line};
ghost use Rattle.program_words.specs.Meaning.{asked_file, asked_view, command_tests};

use crate::line::bare_line;
use crate::{Asked, Command};
use clap::ArgMatches;
use std::alloc::{AllocError, Global};
use tsume_words::{CommandWords, WordsEnd};

// Does this with the commands, in the order of the help: the name of each, its variant, and the
// type of its words.
macro_rules! with_each_command {
    ($then:ident, $($given:ident),*) => {
        $then!($($given),*;
            "solve" Solve cmd_solve::SolveWords,
            "shortest" Shortest cmd_shortest::Shortest,
            "cook" Cook cmd_cook::Cook,
            "check" Check cmd_check::Check,
            "survey" Survey cmd_survey::SurveyRange,
            "collection" Collection cmd_collection::Collection,
            "solution" Solution cmd_solution::JudgeSolution,
            "record" Record cmd_record::Record,
            "upgrade" Upgrade cmd_upgrade::Upgrade,
            "usi" Usi cmd_usi::Usi,
        )
    };
}

// Puts the line of each command behind the program's.
macro_rules! add_lines {
    ($alloc:ident, $line:ident; $($name:literal $command:ident $words:ty,)*) => {{
        $(let $line = with_line::<$words>($alloc, $line)?;)*
        Ok($line)
    }};
}

// Reads what the command is asked whose name clap found.
macro_rules! read_named {
    ($alloc:ident, $matches:ident; $($name:literal $command:ident $words:ty,)*) => {{
        $(
            if let Some(given) = $matches.subcommand_matches($name) {
                let (asked, file) = read_for::<$words>($alloc, given)?;
                return Ok(Asked { command: Command::$command(asked), file });
            }
        )*
        unreachable!()
    }};
}

// A line with that of a command behind it.
fn with_line<'a, C: CommandWords>(
    alloc: Global,
    line: clap::Command<'a>,
) -> Result<clap::Command<'a>, AllocError>
    ensures { IfOk result (λ made. app_of made
        ≡ with_subcommand (app_of line.entry) C.meaning.line.top) }
{
    let added = C::line(alloc)?;
    line.subcommand(added)
}

/// The command line of the program.
pub(crate) fn command_line<'a>(alloc: Global) -> Result<clap::Command<'a>, AllocError>
    ensures { IfOk result (λ command. app_of command ≡ tsume_line) }
{
    let line = bare_line(alloc);
    with_each_command!(add_lines, alloc, line)
}

// What the words of a command ask for, and the file that it reads.
fn read_for<C: CommandWords>(
    alloc: Global,
    given: &ArgMatches<'_>,
) -> Result<(C, Option<String>), WordsEnd>
    requires { C.meaning.IsGiven (rows_of (found_of given.now)) }
    ensures outcome { IsOutcome C.meaning.tests (λ read. C.view read.0)
        (C.meaning.given (rows_of (found_of given.now))) result }
    ensures file { IfOk result (λ read. option_map string_bytes read.1
        ≡ C.meaning.file (rows_of (found_of given.now))) }
{
    let asked = C::read(alloc, given)?;
    let file = C::file(alloc, given)?;
    Ok((asked, file))
}

/// What clap found for one of the commands, tested.
pub(crate) fn asked(alloc: Global, matches: &ArgMatches<'_>) -> Result<Asked, WordsEnd>
    requires { IsSomeAnd (subcommand_rows_of matches.now) commands.IsGiven }
    ensures outcome { IsSomeAnd (option_and_then commands.named (subcommand_rows_of matches.now))
        (λ view. IsOutcome command_tests asked_view view result) }
    ensures file { IfOk result (λ asked. asked_file asked
        ≡ option_and_then commands.file (subcommand_rows_of matches.now)) }
{
    with_each_command!(read_named, alloc, matches)
}
