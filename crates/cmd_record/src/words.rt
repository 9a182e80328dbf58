// The words of `record`, and what they ask for. Lines of help end below 80 columns, where a test
// looks.
use clap::{ArgMatches, Command};
use std::alloc::{AllocError, Global};
use tsume_words::{CommandWords, WordsEnd, file, file_word};

/// What `record` is asked: nothing but the record.
#[derive(Clone, Copy, Debug)]
pub struct Record;

impl CommandWords for Record {
    ghost use Rattle.cmd_record.specs.Words.{record_words};

    ghost View = { Unit {0} };

    ghost view = { λ asked. tt };

    ghost meaning = { record_words };

    fn line<'a>(alloc: Global) -> Result<Command<'a>, AllocError> {
        Command::new(alloc, "record")
            .about("Writes a mate's main line as a KIF record, for board programs")
            .after_help(
                "The mate's certificate, alone or behind the line `solve` prints, is checked\n\
                 first. The record has the problem's diagram, and the moves of the certificate\n\
                 against the defence that lasts longest by it.\n\n\
                 Status: 0 written, 7 refused, 2 words refused, 3 no mate's certificate, 4\n\
                 reading failed, 5 writing failed, 6 out of memory.\n\n\
                 Example:\n  tsume solve problem.sfen | tsume record > problem.kif",
            )
            .arg(file_word(
                alloc,
                "The certificate's file, 268435456 bytes at most; - or none: standard\ninput",
            ))
    }

    fn read(alloc: Global, given: &ArgMatches<'_>) -> Result<Record, WordsEnd> {
        Ok(Record)
    }

    fn file(alloc: Global, given: &ArgMatches<'_>) -> Result<Option<String>, AllocError> {
        file(alloc, given)
    }
}
