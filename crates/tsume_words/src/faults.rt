// Why words are refused.
ghost use Rattle.std.specs.Prelude.{◌≡◌};

use search_limits::Size;
use std::alloc::{AllocError, AllocFailed};
use std::error::Error;
use std::fmt;

/// Why words are refused. It prints as the text for the user, with no line feed at the end: the
/// caller adds one.
#[derive(Debug, Drop)]
pub enum WordFault {
    /// Clap refuses the words: its text, as it made it.
    Clap(String),
    /// The size is no power of two.
    NotPowerOfTwo(Size),
    /// There are more shards than rows.
    MoreShardsThanRows,
    /// Two options are given that don't go together.
    Clash(Clash),
}

/// Which two options are given that don't go together.
#[derive(Clone, Copy, Debug, PartialEq, Eq)]
pub enum Clash {
    /// A library is of SFEN alone, and the problem is said to be KIF.
    LibraryWithKif,
    /// What a collection printed has no bounds.
    CollectionWithBound,
    /// What a collection printed is of many problems, and one is given.
    CollectionWithProblem,
}

impl fmt::Display for WordFault {
    ghost use Rattle.std.specs.Prelude.{Some};
    ghost use Rattle.tsume_words.specs.FaultText.{word_fault_text};

    ghost output = { λ fault. Some (word_fault_text fault) };

    fn fmt<W: fmt::Write>(&self, f: &mut fmt::Formatter<W>) -> fmt::Result {
        f.write_str(match self {
            WordFault::Clap(text) => text.as_str().trim_end(),
            WordFault::NotPowerOfTwo(Size::Rows) => "rows is no power of two",
            WordFault::NotPowerOfTwo(Size::Shards) => "shards is no power of two",
            WordFault::MoreShardsThanRows => "more shards than rows",
            WordFault::Clash(Clash::LibraryWithKif) => "library with kif",
            WordFault::Clash(Clash::CollectionWithBound) => "collection with bound",
            WordFault::Clash(Clash::CollectionWithProblem) => "collection with problem",
        })
    }
}

impl Error for WordFault {}

/// Why the words gave no command.
#[derive(Debug, Drop)]
pub enum WordsEnd {
    /// They ask for help or for the version: clap's text, as it made it.
    Help(String),
    /// The words are refused.
    Fault(WordFault),
    /// Memory was wanted and not there.
    NoMemory,
}

impl From<WordFault> for WordsEnd {
    ghost use Rattle.tsume_words.specs.declared.faults.WordsEnd.TheVariants.{Fault};

    ghost from_gives = { λ fault end. end ≡ Fault fault };

    fn from(fault: WordFault) -> WordsEnd {
        WordsEnd::Fault(fault)
    }
}

impl From<AllocError> for WordsEnd {
    ghost use Rattle.tsume_words.specs.declared.faults.WordsEnd.TheVariants.{NoMemory};

    ghost from_gives = { λ _ end. end ≡ NoMemory };

    fn from(_error: AllocError) -> WordsEnd {
        WordsEnd::NoMemory
    }
}

impl<T: Drop> From<AllocFailed<T>> for WordsEnd {
    ghost use Rattle.tsume_words.specs.declared.faults.WordsEnd.TheVariants.{NoMemory};

    ghost from_gives = { λ _ end. end ≡ NoMemory };

    fn from(_error: AllocFailed<T>) -> WordsEnd {
        WordsEnd::NoMemory
    }
}
