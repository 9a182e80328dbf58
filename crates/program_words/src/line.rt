// The command line, as clap is told of it, without its commands.
ghost use Rattle.std.specs.Prelude.{◌≡◌};
ghost use Rattle.clap.specs.Words.{app_of};
ghost use Rattle.program_words.specs.Line.{bare_line};

use clap::Command;
use std::alloc::Global;

// What `--version` prints behind the program's name.
const VERSION: &str = "0.1.0";

/// The command line of the program, before its commands.
pub(crate) fn bare_line<'a>(alloc: Global) -> Command<'a>
    ensures { app_of result ≡ bare_line }
{
    Command::new(alloc, "tsume")
        .about(
            "Solves tsume-shogi problems: what `solve` finds comes with a certificate that\n\
             can be checked, by this program or by one of your own",
        )
        .after_help("`tsume solve --help`, and so on for each command, has its options.")
        .version(VERSION)
        .subcommand_required(true)
        .arg_required_else_help(true)
}
