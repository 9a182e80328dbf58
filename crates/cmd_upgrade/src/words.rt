// The words of `upgrade`, and what they ask for. Lines of help end below 80 columns, where a test
// looks.
use clap::{ArgMatches, Command};
use std::alloc::{AllocError, Global};
use tsume_words::{CommandWords, WordsEnd, file, file_word};

/// What `upgrade` is asked: nothing but the certificate in version 2.
#[derive(Clone, Copy, Debug)]
pub struct Upgrade;

impl CommandWords for Upgrade {
    ghost use Rattle.cmd_upgrade.specs.Words.{upgrade_words};

    ghost View = { Unit {0} };

    ghost view = { λ asked. tt };

    ghost meaning = { upgrade_words };

    fn line<'a>(alloc: Global) -> Result<Command<'a>, AllocError> {
        Command::new(alloc, "upgrade")
            .about("Writes a certificate in version 2: a position stands for others")
            .after_help(
                "The certificate, alone or behind the line `solve` prints, is checked first. In\n\
                 version 2 a mate's position stands for those with more in the attacker's hand\n\
                 and less in the defender's, an escape's for those with less and more: entries\n\
                 that others stand for may then be left out by hand.\n\n\
                 Status: 0 written, 7 refused, 2 words refused, 3 no certificate, 4 reading\n\
                 failed, 5 writing failed, 6 out of memory.\n\n\
                 Example:\n  tsume solve problem.sfen | tsume upgrade > problem.cert",
            )
            .arg(file_word(
                alloc,
                "The certificate's file, 268435456 bytes at most; - or none: standard\ninput",
            ))
    }

    fn read(alloc: Global, given: &ArgMatches<'_>) -> Result<Upgrade, WordsEnd> {
        Ok(Upgrade)
    }

    fn file(alloc: Global, given: &ArgMatches<'_>) -> Result<Option<String>, AllocError> {
        file(alloc, given)
    }
}
