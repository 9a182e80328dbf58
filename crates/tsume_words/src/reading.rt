// What words are read by, whatever they ask for.
ghost use Rattle.std.specs.Prelude.{◌≡◌, IfOk, map};
ghost use Rattle.clap.specs.Words.{kind_of};
ghost use Rattle.tsume_words.specs.Meaning.{IsClapsEnd, all_words, is_help, texts_of};

use crate::{WordFault, WordsEnd};
use clap::error::ErrorKind;
use std::alloc::{AllocError, Global};

/// The words that clap reads: the program's name, and these behind it. Errors: want of memory
/// alone.
pub fn with_program<'a>(alloc: Global, words: &'a [String]) -> Result<Vec<&'a str>, AllocError>
    ensures { IfOk result (λ texts. map (λ text. text.now) texts.items
        ≡ all_words (texts_of words.entry.now)) }
{
    let mut texts = vec![in alloc; "tsume"]?;
    for word in words {
        texts.push(word.as_str())?;
    }
    Ok(texts)
}

// Whether a kind of clap's error is a request for help or for the version.
fn is_help(kind: ErrorKind) -> bool
    ensures { result ≡ is_help kind }
{
    match kind {
        ErrorKind::DisplayHelp | ErrorKind::DisplayVersion => true,
        _ => false,
    }
}

/// Clap's error as the end of a reading: its text, or want of memory.
pub fn end_of(alloc: Global, error: &clap::Error) -> WordsEnd
    ensures memory { kind_of error.now ≡ ErrorKind.OutOfMemory → result ≡ WordsEnd.NoMemory }
    ensures text { IsClapsEnd (kind_of error.now) result }
{
    let kind = error.kind();
    if kind == ErrorKind::OutOfMemory {
        return WordsEnd::NoMemory;
    }
    let Ok(text) = format!(in alloc; "{error}") else {
        return WordsEnd::NoMemory;
    };
    if is_help(kind) {
        return WordsEnd::Help(text);
    }
    WordsEnd::Fault(WordFault::Clap(text))
}
