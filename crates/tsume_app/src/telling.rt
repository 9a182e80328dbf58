// What the user is told beside the answer, and the program as a whole.
ghost use Rattle.std.specs.Prelude.{◌≡◌, length, vec_len, IfOk};
ghost use Rattle.one_run.specs.Outside.{shown};
ghost use Rattle.search_limits.specs.declared.settings.TheConstants.{MOST_WORKERS};
ghost use Rattle.one_run.specs.Stops.{signals};
ghost use Rattle.tsume_app.specs.Told.{IsTold, IsToldRun};

use crate::ended::{Ended, Refusal};
use crate::exit::Exit;
use crate::front::Front;
use crate::pipe::Pipe;
use crate::program::{asks_for_session, named_file, run, tells_accepted, told_limit};
use crate::progress::{Clearing, Progress};
use cmd_collection::Onlooker;
use cmd_cook::CheckOnlooker;
use cmd_shortest::LengthOnlooker;
use explanations::{Trouble, explain};
use input_lines::MOST_INPUT_BYTES;
use program_words::WordsRead;
use reading_ahead::{HeardStop, Queue, read_ahead};
use search_gate::{DeadlineStop, Gate, Stop};
use search_limits::MOST_WORKERS;
use std::alloc::{AllocError, Global};
use std::env::{self, Env};
use std::fmt;
use std::fs::{self, Files};
use std::io::{self, Eprint, Print};
use std::sync::Wait;
use std::thread::Threads;
use std::time::Clock;
use tsume_io::{Opened, Remembering, Sink, Source, StdClock, StdSink, StdSource, write_all};

/// How much of an ending the user was told.
#[derive(Clone, Copy, PartialEq, Eq, Debug)]
pub enum Told {
    /// All that there is to tell; nothing where the run was answered.
    Whole,
    /// A part: the sink failed.
    InPart,
    /// Nothing, for want of memory.
    Nothing,
    /// Nothing, since the answer's reader went away, and the answer couldn't be written.
    Unwanted,
}

// The status where the answer couldn't be written whole.
const WRITE_FAULT: u8 = 5;

/// Tells the user how a run ended, on a sink beside that of the answer: nothing where it was
/// answered, else a line with `tsume: ` and why it wasn't. Behind it lines may stand for a reader:
/// what is at fault, what was expected, and what to do. No clause says which, but that they are of
/// printable ASCII, and of a diagram's fault of the characters of Japanese texts too.
pub fn tell<K: Sink>(alloc: Global, ended: &Ended, errors: &mut K) -> Told
    ensures { IsTold (shown K.kept K.faults errors.old errors.new) ended.now result }
{
    let Ok(text) = ended.told(alloc) else {
        return Told::Nothing;
    };
    if write_all(errors, &text).is_err() {
        return Told::InPart;
    }
    Told::Whole
}

// Tells the user how a run ended, unless the answer couldn't be written and its reader went away.
fn tell_if_wanted<K: Sink, P: Pipe>(alloc: Global, ended: &Ended, pipe: &P, errors: &mut K) -> Told
    ensures { IsTold (shown K.kept K.faults errors.old errors.new) ended.now result }
{
    if ended.status() == WRITE_FAULT && pipe.is_closed() {
        return Told::Unwanted;
    }
    tell(alloc, ended, errors)
}

/// What a run reads, what it writes its answer to, and what the user is told on.
#[derive(Drop)]
pub struct Streams<S, K, E> {
    /// Where a problem, a certificate or a collection comes from.
    pub source: S,
    /// Where the answer goes.
    pub sink: K,
    /// Where the user is told of everything else.
    pub errors: E,
}

/// Runs the program as [`run`] does, and tells the user how it ended: see [`tell`]. A reader that
/// closed its pipe made no mistake, so nothing is told of an answer that couldn't be written for
/// it. What comes back is the exit status.
pub fn run_and_tell<
    R: Threads + Wait + AllocGlobal + Sync,
    S: Source,
    K: Sink,
    E: Sink,
    P: Pipe,
    G: Gate + Onlooker + LengthOnlooker + CheckOnlooker,
    T: Stop + Drop,
>(
    rt: &R,
    words: WordsRead,
    streams: &mut Streams<S, K, E>,
    pipe: &P,
    gate: &G,
    stops: &mut Vec<T>,
) -> u8
    requires { length stops.old.items ≡ MOST_WORKERS }
    ensures { IsToldRun words (signals T.signal stops.old.items stops.new.items)
        (shown S.left S.faults streams.old.source streams.new.source)
        (shown K.kept K.faults streams.old.sink streams.new.sink)
        (shown E.kept E.faults streams.old.errors streams.new.errors) result }
{
    let Streams {
        source,
        sink,
        errors,
    } = streams;
    let ended = run(rt, words, source, sink, gate, stops);
    tell_if_wanted(rt.alloc(), &ended, pipe, errors);
    ended.status()
}

// The words of the command line behind the program's name.
fn words<R: Env + AllocGlobal>(rt: &R) -> io::Result<Vec<String>> {
    let mut words = Vec::new(rt.alloc());
    for word in env::args(rt)?.skip(1) {
        words.push(word)?;
    }
    Ok(words)
}

// Why there are no words.
fn refusal_of(error: &io::Error) -> Refusal {
    if error.kind() == io::ErrorKind::InvalidData {
        Refusal::NotUtf8
    } else {
        Refusal::NoMemory
    }
}

// What the words let the program read.
fn opened<R: io::Input + Files>(rt: &R, file: &Option<String>) -> Opened<R::File, R::Reader> {
    match file {
        Some(path) => match fs::open(rt, path.as_str()) {
            Ok(file) => Opened::File(file),
            Err(reason) => Opened::Refused(reason),
        },
        None => Opened::Standard(rt.reader()),
    }
}

// A name that prints with an escape in place of each character that doesn't print, so that no name
// of a file steers a terminal.
#[derive(Clone, Copy)]
struct Name<'a>(&'a str);

impl<'a> fmt::Display for Name<'a> {
    fn fmt<W: fmt::Write>(&self, f: &mut fmt::Formatter<W>) -> fmt::Result {
        for character in self.0.chars() {
            match character {
                '\'' | '"' | '\\' => write!(f, "{character}")?,
                _ => write!(f, "{}", character.escape_debug())?,
            }
        }
        Ok(())
    }
}

// Whether a field of an SFEN is the side to move.
fn is_side(field: &[u8]) -> bool {
    field.len() == 1 && (field.starts_with(b"b") || field.starts_with(b"w"))
}

// Whether a byte is one of an SFEN, so that it means nothing to a shell between quotes.
fn is_of_sfen(byte: u8) -> bool {
    byte.is_ascii_alphanumeric() || matches!(byte, b'/' | b' ' | b'+' | b'-')
}

// Whether the name of a file is an SFEN: a problem that was meant to be read.
fn is_like_sfen(path: &[u8]) -> bool {
    let slashes = path.iter().filter(|byte| **byte == b'/').count();
    slashes == 8
        && path.iter().all(|byte| is_of_sfen(*byte))
        && path.split(|byte| *byte == b' ').any(|field| is_side(field))
}

// What the system said where reading failed, with what was read, and what to do where that is an
// SFEN. Errors: want of memory alone.
fn reason_text(
    alloc: Global,
    file: &Option<String>,
    reason: io::Error,
) -> Result<String, AllocError> {
    let Some(path) = file else {
        return format!(in alloc; "standard input: {reason}\n");
    };
    let name = Name(path.as_str());
    if is_like_sfen(path.as_bytes()) {
        return format!(in alloc;
            "{name}: {reason}\nThis looks like an SFEN, which is read from standard input or from a file:\necho '{name}' | tsume solve\n"
        );
    }
    format!(in alloc; "{name}: {reason}\n")
}

// Tells the user what the system said where reading failed: what was read, and the reason.
fn tell_reason<K: Sink>(
    alloc: Global,
    file: &Option<String>,
    reason: io::Error,
    errors: &mut K,
) -> Told {
    let Ok(line) = reason_text(alloc, file, reason) else {
        return Told::Nothing;
    };
    if write_all(errors, line.as_bytes()).is_err() {
        return Told::InPart;
    }
    Told::Whole
}

// Tells the user what there is to say of a collection that begins so, some of whose lines are none.
fn tell_of_front<K: Sink>(alloc: Global, front: &[u8], errors: &mut K) -> Told {
    let Ok(explanation) = explain(alloc, Trouble::Collection, front) else {
        return Told::Nothing;
    };
    if write_all(errors, &explanation).is_err() {
        return Told::InPart;
    }
    Told::Whole
}

// The problem of a text that begins so and was accepted, where these bytes reach so far.
fn accepted_problem(front: &[u8]) -> Option<&str> {
    let text = str::from_utf8(front).ok()?;
    let (_, behind) = text.split_once("\nproblem ")?;
    let (sfen, _) = behind.split_once("\n")?;
    Some(sfen)
}

// Tells the user which problem was accepted.
fn tell_accepted<K: Sink>(alloc: Global, front: &[u8], errors: &mut K) -> Told {
    let Some(sfen) = accepted_problem(front) else {
        return Told::Nothing;
    };
    let Ok(line) = format!(in alloc; "problem {sfen}\n") else {
        return Told::Nothing;
    };
    if write_all(errors, line.as_bytes()).is_err() {
        return Told::InPart;
    }
    Told::Whole
}

// Whether the words are those of the command of this name.
fn are_for(words: &[String], command: &str) -> bool {
    words.first().is_some_and(|word| word.as_str() == command)
}

// Tells the user of a run that couldn't begin. What comes back is the exit status.
fn fail<W: io::Write + Drop>(alloc: Global, refusal: Refusal, errors: W) -> u8 {
    let ended = Ended::Refused(refusal);
    tell(alloc, &ended, &mut StdSink::new(errors));
    ended.status()
}

// A stop for each worker that there may be, by the system's clock.
fn stops_by<R: Clock + AllocGlobal + Sync>(
    rt: &R,
) -> Result<Vec<DeadlineStop<StdClock<&R>>>, AllocError>
    ensures { IfOk result (λ stops. vec_len stops ≡ MOST_WORKERS) }
{
    let mut stops = Vec::new(rt.alloc());
    for _worker in 0..MOST_WORKERS {
        stops.push(DeadlineStop::new(StdClock::new(rt)))?;
    }
    Ok(stops)
}

// The program over the file that the words name, or over the standard input. What comes back is the
// exit status.
fn run_on_file<
    R: io::Input + Print + Eprint + Files + Clock + AllocGlobal + Threads + Wait + Sync,
    W: io::Write + Drop,
>(rt: &R, words: WordsRead, is_collection: bool, errors: W) -> u8 {
    let alloc = rt.alloc();
    let Ok(file) = named_file(alloc, &words) else {
        return fail(alloc, Refusal::NoMemory, errors);
    };
    let Ok(mut stops) = stops_by(rt) else {
        return fail(alloc, Refusal::NoMemory, errors);
    };
    let Ok(limit) = told_limit(&words) else {
        return fail(alloc, Refusal::NoMemory, errors);
    };
    let tells_accepted = tells_accepted(&words);
    let progress = Progress::new(rt, limit);
    let reader = Front::new(alloc, Remembering::new(opened(rt, &file)));
    let mut streams = Streams {
        source: StdSource::new(reader),
        sink: StdSink::new(Clearing::new(&progress, io::writer(rt))),
        errors: StdSink::new(Clearing::new(&progress, errors)),
    };
    let status = run_and_tell(rt, words, &mut streams, &progress, &progress, &mut stops);
    let Streams { source, errors, .. } = &mut streams;
    match status {
        0 if tells_accepted => {
            tell_accepted(alloc, source.reader().kept(), errors);
        }
        0 => progress.tell_used(),
        1 => progress.tell_given_up(),
        3 if is_collection => {
            tell_of_front(alloc, source.reader().kept(), errors);
        }
        _ => {}
    }
    if let Some(reason) = source.reader().reader().reason() {
        tell_reason(alloc, &file, reason, errors);
    }
    status
}

// The most bytes that are read ahead of a session.
const MOST_AHEAD: usize = MOST_INPUT_BYTES;

// A stop for each worker that there may be, by the system's clock, that hears what is read ahead of
// a session.
fn heard_stops<R: Clock + Wait + AllocGlobal + Copy + Drop + Send + Sync + 'static>(
    rt: &R,
    queue: &Queue<R>,
) -> Result<Vec<HeardStop<StdClock<R>>>, AllocError>
    ensures { IfOk result (λ stops. vec_len stops ≡ MOST_WORKERS) }
{
    let mut stops = Vec::new(rt.alloc());
    for _worker in 0..MOST_WORKERS {
        stops.push(HeardStop::new(StdClock::new(*rt), queue.listener()?))?;
    }
    Ok(stops)
}

// The program over a session, whose input is read ahead on a thread. What comes back is the exit
// status.
fn run_on_session<
    R: io::Input
        + Print
        + Eprint
        + Clock
        + AllocGlobal
        + Threads
        + Wait
        + Copy
        + Drop
        + Send
        + Sync
        + 'static,
    W: io::Write + Drop,
>(rt: &R, words: WordsRead, errors: W) -> u8
where
    R::Reader: Send + 'static,
{
    let alloc = rt.alloc();
    let clock = StdClock::new(*rt);
    let Ok(queue) = read_ahead(*rt, alloc, rt.reader(), clock, MOST_AHEAD) else {
        return fail(alloc, Refusal::NoMemory, errors);
    };
    let Ok(mut stops) = heard_stops(rt, &queue) else {
        return fail(alloc, Refusal::NoMemory, errors);
    };
    let progress = Progress::new(rt, None);
    let mut streams = Streams {
        source: queue,
        sink: StdSink::new(Clearing::new(&progress, io::writer(rt))),
        errors: StdSink::new(Clearing::new(&progress, errors)),
    };
    let status = run_and_tell(rt, words, &mut streams, &progress, &progress, &mut stops);
    let Streams { source, errors, .. } = &mut streams;
    if let Some(reason) = source.reason() {
        tell_reason(alloc, &None, reason, errors);
    }
    status
}

// The program over the words. What comes back is the exit status.
fn run_on_words<
    R: io::Input
        + Print
        + Eprint
        + Files
        + Clock
        + AllocGlobal
        + Threads
        + Wait
        + Copy
        + Drop
        + Send
        + Sync
        + 'static,
    W: io::Write + Drop,
>(rt: &R, words: Vec<String>, errors: W) -> u8
where
    R::Reader: Send + 'static,
{
    let is_collection = are_for(&words, "collection");
    let words = WordsRead::new(rt.alloc(), words);
    if asks_for_session(&words) {
        return run_on_session(rt, words, errors);
    }
    run_on_file(rt, words, is_collection, errors)
}

/// The program over the words of the command line, the file that they name or the standard input,
/// the standard output, and a writer for what the user is told: see [`named_file`] and
/// [`run_and_tell`]. Words that are no UTF-8 are refused. Where reading failed, a second line tells
/// what was read and what the system said. Where the words ask for progress, a line of how far the
/// search has come is written a few times a second, each over the one before, and cleared when the
/// answer is written or the user is told of a fault; behind the answer a line tells how many visits
/// it took, and of a search that gave up, where to look why. Of `shortest` the line tells which
/// length is asked about, once its first search has ended, of `cook` which check is searched. Of a
/// collection a line tells so, about once a second, how many problems are decided; and behind the
/// answer of `check` one tells the problem that was accepted. Where the text of a collection with a
/// fault begins as a record does, the user is told so once. The input of `usi` is read ahead on a
/// thread: a search hears a line `stop` that the session hasn't come to, and one without a time
/// ends a second after `quit` or the end of the input; where that thread can't be made, the session
/// doesn't begin, as for want of memory. What comes back ends the process with the exit status.
pub fn start<
    R: Env
        + io::Input
        + Print
        + Eprint
        + Files
        + Clock
        + AllocGlobal
        + Threads
        + Wait
        + Copy
        + Drop
        + Send
        + Sync
        + 'static,
    W: io::Write + Drop,
>(rt: &R, errors: W) -> Exit
where
    R::Reader: Send + 'static,
{
    let status = match words(rt) {
        Ok(words) => run_on_words(rt, words, errors),
        Err(error) => fail(rt.alloc(), refusal_of(&error), errors),
    };
    Exit { status }
}
