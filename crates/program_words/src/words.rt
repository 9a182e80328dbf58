// Words that were read.
ghost use Rattle.std.specs.Prelude.{◌≡◌, ◌⊎◌, Err, Some, IfErr, IfOk, IsOkAnd};
ghost use Rattle.tsume_words.specs.Meaning.{IsHelp, texts_of};
ghost use Rattle.tsume_words.specs.declared.faults.WordFault.{WordFault};
ghost use Rattle.program_words.specs.Commands.{CommandView};
ghost use Rattle.program_words.specs.Meaning.{AsksForHelp, FailsFirst, IsEndFor, IsRead, asked_file, asked_view, command_of, file_of};

use crate::{Asked, read_words};
use std::alloc::Global;
use std::marker::Model;
use tsume_words::WordsEnd;

/// The words of the command line, those behind the program's name, and what reading them came to.
/// Contracts see the words.
#[derive(Drop)]
pub struct WordsRead {
    words: Vec<String>,
    reading: Result<Asked, WordsEnd>,
}

impl Model for WordsRead {
    ghost use Rattle.std.specs.Prelude.{List};
    ghost use Rattle.clap.specs.Words.{Text};
    ghost use Rattle.tsume_words.specs.Meaning.{texts_of};
    ghost use Rattle.program_words.specs.Meaning.{IsRead};

    ghost Value = { List Text };

    ghost view = { λ read. texts_of read.words.items };

    // What is kept beside the words is what reading them came to.
    ghost invariant = { λ read. IsRead (texts_of read.words.items) read.reading };
}

impl WordsRead {
    /// Reads the words: see [`read_words`].
    pub fn new(alloc: Global, words: Vec<String>) -> WordsRead
        ensures { result ≡ texts_of words.items }
    {
        let reading = read_words(alloc, &words);
        WordsRead { words, reading }
    }

    /// What the words ask for, or why they ask for nothing.
    pub fn reading(&self) -> &Result<Asked, WordsEnd>
        // What the words ask for, and the file that they name.
        ensures command { IfOk result.now (λ asked. command_of self.now ≡ Some (asked_view asked)) }
        ensures file { IfOk result.now (λ asked. asked_file asked ≡ file_of self.now) }
        // Help, a refusal or a test's fault comes only with its cause, and wherever its cause is
        // there, but for want of memory.
        ensures ended { IfErr result.now (IsEndFor self.now) }
        ensures help { AsksForHelp self.now → IsHelp result.now
            ⊎ (result.now ≡ Err WordsEnd.NoMemory) }
        ensures failed { (fault : WordFault) → FailsFirst self.now fault
            → (result.now ≡ Err (WordsEnd.Fault fault)) ⊎ (result.now ≡ Err WordsEnd.NoMemory) }
        // Words that ask for something are not refused, but for want of memory.
        ensures complete { (view : CommandView) → command_of self.now ≡ Some view
            → IsOkAnd result.now (λ asked. asked_view asked ≡ view)
            ⊎ (result.now ≡ Err WordsEnd.NoMemory) }
    {
        self.kept()
    }

    /// The same, without the words.
    pub fn into_reading(self) -> Result<Asked, WordsEnd>
        // What the words ask for, and the file that they name.
        ensures command { IfOk result (λ asked. command_of self ≡ Some (asked_view asked)) }
        ensures file { IfOk result (λ asked. asked_file asked ≡ file_of self) }
        // Help, a refusal or a test's fault comes only with its cause, and wherever its cause is
        // there, but for want of memory.
        ensures ended { IfErr result (IsEndFor self) }
        ensures help { AsksForHelp self → IsHelp result ⊎ (result ≡ Err WordsEnd.NoMemory) }
        ensures failed { (fault : WordFault) → FailsFirst self fault
            → (result ≡ Err (WordsEnd.Fault fault)) ⊎ (result ≡ Err WordsEnd.NoMemory) }
        // Words that ask for something are not refused, but for want of memory.
        ensures complete { (view : CommandView) → command_of self ≡ Some view
            → IsOkAnd result (λ asked. asked_view asked ≡ view) ⊎ (result ≡ Err WordsEnd.NoMemory) }
    {
        self.into_kept()
    }

    fn kept(&self) -> &Result<Asked, WordsEnd>
        ensures { IsRead self.now result.now }
    {
        &self.reading
    }

    fn into_kept(self) -> Result<Asked, WordsEnd>
        ensures { IsRead self result }
    {
        self.reading
    }
}
