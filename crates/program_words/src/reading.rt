// The reading of the words.
ghost use Rattle.tsume_words.specs.Meaning.{texts_of};
ghost use Rattle.program_words.specs.Meaning.{IsRead};

use crate::Asked;
use crate::commands::{asked, command_line};
use search_limits::power_laws;
use std::alloc::Global;
use tsume_words::{WordsEnd, end_of, with_program};

/// The command that the words ask for, and the file that it reads; they are the words after the
/// program's name.
///
/// A request for help or for the version is `Help` with clap's text; words that clap refuses are
/// `Clap` with it. Then come the tests of the command: of a search, in this order, that the rows
/// and the shards are powers of two and that there are no more shards than rows; and behind them
/// that no two options stand beside one another that can't. A number is what clap takes for one of
/// its type, `+5` and `05` too. Want of memory is `NoMemory`.
pub fn read_words(alloc: Global, words: &[String]) -> Result<Asked, WordsEnd>
    // What comes back is what the words ask for, with the file that they name; help, a refusal or a
    // test's fault comes only with its cause; each of them comes where its cause is there, and
    // words that ask for something aren't refused, but for want of memory.
    ensures { IsRead (texts_of words.now) result }
{
    power_laws();
    let texts = with_program(alloc, words)?;
    match command_line(alloc)?.try_get_matches_from(texts.as_slice()) {
        Ok(matches) => asked(alloc, &matches),
        Err(error) => Err(end_of(alloc, &error)),
    }
}
