// What is said of words of the command line that are refused, by what is told of them first.
ghost use Rattle.std.specs.Option.{IfSome};
ghost use Rattle.explanations.specs.Shown.{IsPlain};

use crate::look::holds;

const ON_SFEN_IN_WORDS: &str =
    "An SFEN is read from standard input or from a file, and is no word of the line:\necho '9/4k4/8R/9/9/9/9/9/9 b R' | tsume solve\n";

const ON_DEADLINE: &str =
    "Expected: milliseconds, in digits alone. Five seconds are --deadline 5000\n";

const ON_NUMBER: &str =
    "Expected: digits alone, with no unit, comma or exponent. A million is 1000000.\n";

const ON_WORKERS_OF_SOLVE: &str =
    "`tsume solve` searches one problem with --workers N, a thread each.\n";

const ON_WORKERS_OF_SHORTEST: &str = "`tsume shortest` searches with one worker.\n";

const ON_WORKERS_OF_CHECK: &str = "`tsume check` judges with --workers N, a thread each.\n";

const ON_THREADS_OF_COLLECTION: &str =
    "`tsume collection` searches each problem with one worker, and decides\n--threads N problems side by side.\n";

const ON_THREADS_OF_SURVEY: &str =
    "`tsume survey` takes as many threads as there are processors, 32 at most.\n";

const ON_KIF_OF_COLLECTION: &str =
    "`tsume collection` reads SFEN alone. `tsume solve --kif` reads one KIF file.\n";

// Whether a field of an SFEN stands where no word was expected: a side to move, or what may stand
// in front of the board.
fn is_sfen_in_words(told: &[u8]) -> bool {
    holds(told, b"unexpected argument 'b' found")
        || holds(told, b"unexpected argument 'w' found")
        || holds(told, b"unexpected argument 'sfen' found")
}

fn advice_on_number(told: &[u8]) -> &'static str
    ensures { IsPlain result.now }
{
    if holds(told, b"'--deadline <MS>'") {
        return ON_DEADLINE;
    }
    ON_NUMBER
}

// What is said where the words ask for threads, or for workers, as another command does.
fn advice_on_threads(told: &[u8]) -> Option<&'static str>
    ensures { IfSome result (λ advice. IsPlain advice.now) }
{
    if holds(told, b"Usage: tsume solve") {
        return Some(ON_WORKERS_OF_SOLVE);
    }
    if holds(told, b"Usage: tsume shortest") {
        return Some(ON_WORKERS_OF_SHORTEST);
    }
    if holds(told, b"Usage: tsume check") {
        return Some(ON_WORKERS_OF_CHECK);
    }
    if holds(told, b"Usage: tsume collection") {
        return Some(ON_THREADS_OF_COLLECTION);
    }
    if holds(told, b"Usage: tsume survey") {
        return Some(ON_THREADS_OF_SURVEY);
    }
    None
}

/// What is said of words of which this is told, where there is something to say; else none.
pub(crate) fn advice_on_words(told: &[u8]) -> Option<&'static str>
    ensures { IfSome result (λ advice. IsPlain advice.now) }
{
    if is_sfen_in_words(told) {
        return Some(ON_SFEN_IN_WORDS);
    }
    if holds(told, b"invalid digit found in string") {
        return Some(advice_on_number(told));
    }
    if holds(told, b"unexpected argument '--thread")
        || holds(told, b"unexpected argument '--worker")
    {
        return advice_on_threads(told);
    }
    if holds(told, b"unexpected argument '--kif'") && holds(told, b"Usage: tsume collection") {
        return Some(ON_KIF_OF_COLLECTION);
    }
    None
}
