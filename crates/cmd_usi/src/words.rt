// The words of `usi`, and what they ask for. Lines of help end below 80 columns, where a test
// looks.
use clap::{ArgMatches, Command};
use std::alloc::{AllocError, Global};
use tsume_words::{CommandWords, WordsEnd};

/// What `usi` is asked: nothing but a session.
#[derive(Clone, Copy, Debug)]
pub struct Usi;

impl CommandWords for Usi {
    ghost use Rattle.cmd_usi.specs.Words.{usi_words};

    ghost View = { Unit {0} };

    ghost view = { λ asked. tt };

    ghost meaning = { usi_words };

    fn line<'a>(alloc: Global) -> Result<Command<'a>, AllocError> {
        let line = Command::new(alloc, "usi")
            .about("Serves a mate session in the USI protocol, for boards on screens")
            .after_help(
                "It reads standard input a line at a time: usi, isready, setoption, position,\n\
                 go mate MS, go mate infinite, stop, quit; and answers each line before the\n\
                 next. Its options are Workers, Expansions, Room, Rows, Shards. A search without\n\
                 a time may want all memory there is; the option Room prevents it. No\n\
                 certificate is told: solve prints it for the same position.\n\n\
                 Status: 0 the session is over, 2 words refused, 3 a line of more than 65536\n\
                 bytes or more than 16777216 in all, 4 reading failed, 5 writing failed, 6 out\n\
                 of memory.\n\n\
                 Example, whose answer is checkmate G*5b:\n\
                 \x20 printf 'position sfen 4k4/9/4P4/9/9/9/9/9/9 b G 1\\ngo mate 1000\\n' |\n\
                 \x20   tsume usi",
            );
        Ok(line)
    }

    fn read(_alloc: Global, _given: &ArgMatches<'_>) -> Result<Usi, WordsEnd> {
        Ok(Usi)
    }

    fn file(_alloc: Global, _given: &ArgMatches<'_>) -> Result<Option<String>, AllocError> {
        Ok(None)
    }
}
