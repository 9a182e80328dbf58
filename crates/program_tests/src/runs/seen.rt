// Runs over a source and a sink in memory, and what they did.
ghost use Rattle.std.specs.Prelude.{◌≡◌, IfOk, length, vec_len};
ghost use Rattle.search_limits.specs.declared.settings.TheConstants.{MOST_WORKERS};

use crate::lines::words_of;
use cmd_collection::Onlooker;
use cmd_cook::CheckOnlooker;
use cmd_shortest::LengthOnlooker;
use one_run::Written;
use search_gate::{Gate, MemStop, OpenGate, Stop};
use search_limits::MOST_WORKERS;
use std::alloc::{AllocError, Global};
use std::sync::Wait;
use std::test::Fail;
use std::thread::Threads;
use tsume_app::{Ended, Refusal, WordsRead, run};
use tsume_io::{MemSink, MemSource};

// What a run did: its status, whether it has an answer, what the user is told beside it, how many
// bytes of its input it kept where it failed, and what the sink kept.
#[derive(Drop)]
pub(crate) struct Seen {
    pub(crate) status: u8,
    pub(crate) answered: bool,
    pub(crate) fault: String,
    pub(crate) read: usize,
    pub(crate) kept: String,
}

// Whether a command's ending has an answer, and how many bytes of the input it kept.
fn own<A: Drop, F: Drop>(ended: &one_run::Ended<A, F>) -> (bool, usize) {
    match ended {
        one_run::Ended::Answered(_) | one_run::Ended::CutShort(_) => (true, 0),
        one_run::Ended::Failed(_, input) => (false, input.bytes().len()),
    }
}

fn own_written<A: Drop>(written: &Written<A>) -> (bool, usize) {
    match written {
        Written::Whole(_) | Written::InPart(_) => (true, 0),
        Written::NoMemory => (false, 0),
    }
}

// The same of a run's.
fn answer_and_input(ended: &Ended) -> (bool, usize) {
    match ended {
        Ended::Solve(ended) => own(ended),
        Ended::Library(ended) => own(ended),
        Ended::Shortest(ended) => own(ended),
        Ended::Cook(ended) => own(ended),
        Ended::Check(ended) => own(ended),
        Ended::Bound(ended) => own(ended),
        Ended::Certificates(ended) => own(ended),
        Ended::Survey(ended) => own_written(ended),
        Ended::Collection(ended) => own(ended),
        Ended::Solution(ended) => own(ended),
        Ended::Record(ended) => own(ended),
        Ended::Upgrade(ended) => own(ended),
        Ended::Usi(_) => (true, 0),
        Ended::Help(ended) => own_written(ended),
        Ended::Refused(_) => (false, 0),
    }
}

// What the user is told in words: where clap or a test refuses them all, else the first line,
// without what explains it.
fn words_told(alloc: Global, ended: &Ended) -> Result<String, Fail> {
    let text = String::from_utf8(ended.told(alloc)?)?;
    let words = text.as_str().strip_prefix("tsume: ").unwrap_or("");
    let words = match ended {
        Ended::Refused(Refusal::Asked(_)) => words.split('\n').next().unwrap_or(""),
        Ended::Refused(_) => words.strip_suffix("\n").unwrap_or(words),
        _ => words.split('\n').next().unwrap_or(""),
    };
    Ok(String::from_str(alloc, words)?)
}

// What a run did that ended so, with what the sink kept.
fn seen_in(alloc: Global, ended: &Ended, kept: &[u8]) -> Result<Seen, Fail> {
    let kept = Vec::from_slice(alloc, kept)?;
    let (answered, read) = answer_and_input(ended);
    Ok(Seen {
        status: ended.status(),
        answered,
        fault: words_told(alloc, ended)?,
        read,
        kept: String::from_utf8(kept)?,
    })
}

// A stop for each worker that there may be; the first signals at its poll of this number, 0 for
// none.
pub(crate) fn stops_at(alloc: Global, poll: u64) -> Result<Vec<MemStop>, AllocError>
    ensures { IfOk result (λ stops. vec_len stops ≡ MOST_WORKERS) }
{
    let mut stops = Vec::new(alloc);
    for worker in 0..MOST_WORKERS {
        let at = if worker == 0 { poll } else { 0 };
        stops.push(MemStop::new(vec![in alloc; at]?))?;
    }
    Ok(stops)
}

// A run on the words of a line, with a source and a sink of these pieces that fail at the calls of
// these numbers, 0 for none.
pub(crate) fn seen_of<R: Threads + Wait + AllocGlobal + Sync>(
    rt: &R,
    line: &str,
    input: &str,
    source: (usize, u64),
    sink: (usize, u64),
) -> Result<Seen, Fail> {
    let mut stops = stops_at(rt.alloc(), 0)?;
    seen_by(rt, line, input, source, sink, &OpenGate, &mut stops)
}

// The same, with this gate and these stops.
pub(crate) fn seen_by<
    R: Threads + Wait + AllocGlobal + Sync,
    G: Gate + Onlooker + LengthOnlooker + CheckOnlooker,
    T: Stop + Drop,
>(
    rt: &R,
    line: &str,
    input: &str,
    source: (usize, u64),
    sink: (usize, u64),
    gate: &G,
    stops: &mut Vec<T>,
) -> Result<Seen, Fail>
    requires { length stops.old.items ≡ MOST_WORKERS }
{
    if source.0 == 0 || sink.0 == 0 {
        return Err(Fail::from("no piece"));
    }
    let alloc = rt.alloc();
    let words = words_of(alloc, line)?;
    let bytes = Vec::from_slice(alloc, input.as_bytes())?;
    let mut from = MemSource::make(bytes, source.0, Vec::from_slice(alloc, &[source.1])?);
    let mut to = MemSink::make(alloc, 65_536, sink.0, Vec::from_slice(alloc, &[sink.1])?)?;
    let words = WordsRead::new(alloc, words);
    let ended = run(rt, words, &mut from, &mut to, gate, stops);
    seen_in(alloc, &ended, to.kept())
}
