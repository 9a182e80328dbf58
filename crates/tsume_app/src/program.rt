// The run of the program.
ghost use Rattle.std.specs.Prelude.{◌≡◌, ◌<◌, ◌⊎◌, List, Option, Some, None, Err, IfOk, IfErr, option_map, string_bytes, length};
ghost use Rattle.tsume_io.specs.Faults.{Rose};
ghost use Rattle.program_words.specs.Commands.{CommandView, command_view};
ghost use Rattle.program_words.specs.Commands.CommandView.{to_check, to_solve};
ghost use Rattle.program_words.specs.Meaning.{AsksForHelp, FailsFirst, command_of, file_of};
ghost use Rattle.tsume_words.specs.declared.faults.WordFault.{WordFault};
ghost use Rattle.clap.specs.Words.{Text as Word};
ghost use Rattle.search_limits.specs.declared.settings.TheConstants.{MOST_WORKERS};
ghost use Rattle.app_texts.specs.declared.fault.ProblemFault.{ProblemFault};
ghost use Rattle.one_run.specs.Outside.{shown};
ghost use Rattle.one_run.specs.Stops.{AreUnused, Signals, signals};
ghost use Rattle.one_run.specs.Written.{IsStatedRun};
ghost use Rattle.cmd_shortest.specs.Asked.{one_stop, shortest_in};
ghost use Rattle.cmd_shortest.specs.Headline.{IsShortestRun};
ghost use Rattle.cmd_solve.specs.Words.{solve_view};
ghost use Rattle.cmd_check.specs.Asked.{IsFaultInWords, check_in};
ghost use Rattle.cmd_check.specs.Words.{check_view};
ghost use Rattle.tsume_app.specs.Run.{IsKept, GivesFault, GivesHelp, WantsMemory, help_meaning};
ghost use Rattle.tsume_app.specs.Told.{limit_told};

use crate::ended::{Ended, Refusal};
use app_texts::ProblemFault;
use cmd_bound::check_with_bound;
use cmd_certificates::check_collection;
use cmd_check::{Check, asked_problem, check};
use cmd_collection::{Onlooker, collection};
use cmd_cook::{CheckOnlooker, cook};
use cmd_library::solve_with_library;
use cmd_record::record;
use cmd_shortest::{LengthOnlooker, Shortest, ShortestAnswer, shortest};
use cmd_solution::solution;
use cmd_solve::{SolveWords, solve};
use cmd_survey::survey;
use cmd_upgrade::upgrade;
use cmd_usi::usi;
use one_run::{Written, write};
use problem_answers::problem_laws;
use program_words::{Command, WordsRead};
use search_gate::{Gate, Stop};
use std::alloc::{AllocError, Global};
use std::sync::Wait;
use std::thread::Threads;
use tsume_io::{Sink, Source};
use tsume_words::WordsEnd;

// Whether the problem that the words give for a certificate, where they give one, is one: else its
// text's first fault.
fn asked(command: &Command) -> Result<(), ProblemFault>
    ensures fault { IfErr result (GivesFault (Some (command_view command.now))) }
    ensures failed { (fault : ProblemFault) → GivesFault (Some (command_view command.now)) fault
        → result ≡ Err fault }
{
    match command {
        Command::Check(asked) => {
            asked_problem(asked)?;
            Ok(())
        }
        _ => Ok(()),
    }
}

// Checks, where the words give no problem that is none.
fn check_ended<R: Threads + Sync, S: Source, K: Sink>(
    rt: &R,
    alloc: Global,
    asked: &Check,
    source: &mut S,
    sink: &mut K,
) -> Ended
    ensures kept { (words : List Word) (stops : Signals) → AreUnused stops
        → IsKept result (Some (to_check (check_view asked.now))) words stops
        (shown S.left S.faults source.old source.new) (shown K.kept K.faults sink.old sink.new) }
    ensures asked { (fault : ProblemFault) → IsFaultInWords (check_in asked.now) fault
        → result ≡ Ended.Refused (Refusal.Asked fault) }
{
    // No text stands for two problems.
    problem_laws();
    match asked_problem(asked) {
        Ok(problem) => {
            if asked.collection {
                Ended::Certificates(check_collection(rt, alloc, asked, source, sink))
            } else if asked.bound {
                Ended::Bound(check_with_bound(rt, alloc, asked, &problem, source, sink))
            } else {
                Ended::Check(check(rt, alloc, asked, &problem, source, sink))
            }
        }
        Err(fault) => Ended::Refused(Refusal::Asked(fault)),
    }
}

// Solves, perhaps with a library behind the problem.
fn solve_ended<R: Threads + Wait + AllocGlobal + Sync, S: Source, K: Sink, G: Gate, T: Stop + Drop>(
    rt: &R,
    asked: &SolveWords,
    source: &mut S,
    sink: &mut K,
    gate: &G,
    stops: &mut Vec<T>,
) -> Ended
    requires { length stops.old.items ≡ MOST_WORKERS }
    ensures { (words : List Word) → IsKept result (Some (to_solve (solve_view asked.now))) words
        (signals T.signal stops.old.items stops.new.items)
        (shown S.left S.faults source.old source.new) (shown K.kept K.faults sink.old sink.new) }
{
    if asked.library {
        Ended::Library(solve_with_library(rt, &asked.solve, source, sink, gate, stops))
    } else {
        Ended::Solve(solve(rt, &asked.solve, source, sink, gate, stops))
    }
}

// Looks for a shortest mate, by one worker.
fn shortest_ended<S: Source, K: Sink, G: Gate + LengthOnlooker, T: Stop>(
    alloc: Global,
    asked: &Shortest,
    source: &mut S,
    sink: &mut K,
    gate: &G,
    stop: &mut T,
) -> one_run::Ended<ShortestAnswer, ProblemFault>
    ensures { IsShortestRun (shortest_in asked.now)
        (one_stop (T.signal stop.old) (T.signal stop.new))
        (shown S.left S.faults source.old source.new)
        (shown K.kept K.faults sink.old sink.new) result }
{
    shortest(alloc, asked, source, sink, gate, stop)
}

// Writes help, or the version.
fn help<K: Sink>(alloc: Global, text: String, sink: &mut K) -> Written<String>
    ensures { IsStatedRun help_meaning (shown K.kept K.faults sink.old sink.new) result }
{
    let bytes = Vec::from_slice(alloc, text.as_bytes());
    write(text, bytes, sink)
}

fn command_ended<
    R: Threads + Wait + AllocGlobal + Sync,
    S: Source,
    K: Sink,
    G: Gate + Onlooker + LengthOnlooker + CheckOnlooker,
    T: Stop + Drop,
>(rt: &R, command: &Command, source: &mut S, sink: &mut K, gate: &G, stops: &mut Vec<T>) -> Ended
    requires { length stops.old.items ≡ MOST_WORKERS }
    ensures kept { (words : List Word)
        → IsKept result (Some (command_view command.now)) words
        (signals T.signal stops.old.items stops.new.items)
        (shown S.left S.faults source.old source.new) (shown K.kept K.faults sink.old sink.new) }
    ensures asked { (fault : ProblemFault) → GivesFault (Some (command_view command.now)) fault
        → result ≡ Ended.Refused (Refusal.Asked fault) }
{
    let alloc = rt.alloc();
    match command {
        Command::Solve(asked) => solve_ended(rt, asked, source, sink, gate, stops),
        Command::Shortest(asked) => {
            let stop = &mut stops[0];
            Ended::Shortest(shortest_ended(alloc, asked, source, sink, gate, stop))
        }
        Command::Cook(asked) => Ended::Cook(cook(rt, asked, source, sink, gate, stops)),
        Command::Check(asked) => check_ended(rt, alloc, asked, source, sink),
        Command::Survey(range) => Ended::Survey(survey(rt, alloc, range, sink)),
        Command::Solution(asked) => Ended::Solution(solution(alloc, asked, source, sink)),
        Command::Record(asked) => Ended::Record(record(alloc, asked, source, sink)),
        Command::Upgrade(asked) => Ended::Upgrade(upgrade(alloc, asked, source, sink)),
        Command::Usi(_) => Ended::Usi(usi(rt, source, sink, gate, stops)),
        Command::Collection(asked) => {
            Ended::Collection(collection(rt, alloc, asked, source, sink, gate))
        }
    }
}

fn words_ended<
    R: Threads + Wait + AllocGlobal + Sync,
    S: Source,
    K: Sink,
    G: Gate + Onlooker + LengthOnlooker + CheckOnlooker,
    T: Stop + Drop,
>(rt: &R, words: WordsRead, source: &mut S, sink: &mut K, gate: &G, stops: &mut Vec<T>) -> Ended
    requires { length stops.old.items ≡ MOST_WORKERS }
    ensures kept { IsKept result (command_of words) words
        (signals T.signal stops.old.items stops.new.items)
        (shown S.left S.faults source.old source.new) (shown K.kept K.faults sink.old sink.new) }
    ensures help { AsksForHelp words → ¬ Rose (K.faults sink.old) (K.faults sink.new)
        → GivesHelp result ⊎ WantsMemory result }
    ensures failed { (fault : WordFault) → FailsFirst words fault
        → (result ≡ Ended.Refused (Refusal.Words fault))
        ⊎ (result ≡ Ended.Refused Refusal.NoMemory) }
    ensures asked { (fault : ProblemFault) → GivesFault (command_of words) fault
        → (result ≡ Ended.Refused (Refusal.Asked fault))
        ⊎ (result ≡ Ended.Refused Refusal.NoMemory) }
{
    match words.into_reading() {
        Ok(asked) => command_ended(rt, &asked.command, source, sink, gate, stops),
        Err(WordsEnd::Help(text)) => Ended::Help(help(rt.alloc(), text, sink)),
        Err(WordsEnd::Fault(fault)) => Ended::Refused(Refusal::Words(fault)),
        Err(WordsEnd::NoMemory) => Ended::Refused(Refusal::NoMemory),
    }
}

// The same text once more. Errors: want of memory alone.
fn copied(alloc: Global, text: &Option<String>) -> Result<Option<String>, AllocError>
    ensures { IfOk result (λ copy. option_map string_bytes copy
        ≡ option_map string_bytes text.now) }
{
    match text {
        Some(text) => Ok(Some(String::from_str(alloc, text.as_str())?)),
        None => Ok(None),
    }
}

/// The file that the words name for their command to read, as they have its path: the word FILE,
/// unless it is `-`. None where the standard input is to be read, and where the words are refused,
/// ask for help, or give a problem that is none, so that nothing is opened then. Whoever calls
/// [`run`] makes the source of it: one whose first read fails, where the file can't be opened.
/// Errors: want of memory alone.
pub fn named_file(alloc: Global, words: &WordsRead) -> Result<Option<String>, AllocError>
    // The file of a command whose problem, where the words give one, has no fault.
    ensures named { (view : CommandView) → command_of words.now ≡ Some view
        → ((fault : ProblemFault) → ¬ GivesFault (Some view) fault)
        → IfOk result (λ file. option_map string_bytes file ≡ file_of words.now) }

    // None where the words ask for no command, or give a problem that is none.
    ensures unasked { command_of words.now ≡ None → IfOk result (λ file. file ≡ None) }
    ensures asked { (fault : ProblemFault) → GivesFault (command_of words.now) fault
        → IfOk result (λ file. file ≡ None) }
{
    match words.reading() {
        Ok(asking) => match asked(&asking.command) {
            Ok(()) => copied(alloc, &asking.file),
            Err(_) => Ok(None),
        },
        Err(WordsEnd::NoMemory) => Err(AllocError),
        Err(WordsEnd::Help(_)) => Ok(None),
        Err(WordsEnd::Fault(_)) => Ok(None),
    }
}

// How many expansions a search has that the user is told of while it runs.
fn limit_told(command: &Command) -> Option<u64>
    ensures { result ≡ limit_told (command_view command.now) }
{
    match command {
        Command::Solve(asked) => {
            if asked.solve.watch.progress {
                Some(asked.solve.settings.expansions)
            } else {
                None
            }
        }
        Command::Cook(asked) => {
            if asked.solve.watch.progress {
                Some(asked.solve.settings.expansions)
            } else {
                None
            }
        }
        Command::Shortest(asked) => {
            if asked.watch.progress {
                Some(asked.expansions.count)
            } else {
                None
            }
        }
        _ => None,
    }
}

/// How many expansions the search has of which the words ask that its progress be told; none where
/// they don't ask for it. Whoever calls [`run`] makes a gate that tells it. Errors: want of memory
/// alone.
pub fn told_limit(words: &WordsRead) -> Result<Option<u64>, AllocError>
    ensures told { (view : CommandView) → command_of words.now ≡ Some view
        → IfOk result (λ limit. limit ≡ limit_told view) }
    ensures unasked { command_of words.now ≡ None → IfOk result (λ limit. limit ≡ None) }
{
    match words.reading() {
        Ok(asked) => Ok(limit_told(&asked.command)),
        Err(WordsEnd::NoMemory) => Err(AllocError),
        Err(WordsEnd::Help(_)) => Ok(None),
        Err(WordsEnd::Fault(_)) => Ok(None),
    }
}

/// Whether the words ask that the user be told which problem was accepted, where it is one. No
/// clause depends on it.
pub(crate) fn tells_accepted(words: &WordsRead) -> bool {
    match words.reading() {
        Ok(asked) => match &asked.command {
            Command::Check(asked) => asked.progress && !asked.collection,
            _ => false,
        },
        Err(_) => false,
    }
}

/// Whether the words ask for a session. No clause depends on it.
pub(crate) fn asks_for_session(words: &WordsRead) -> bool {
    match words.reading() {
        Ok(asked) => matches!(&asked.command, Command::Usi(_)),
        Err(_) => false,
    }
}

/// Runs the program on the words of the command line, those behind the program's name, which were
/// read ([`WordsRead::new`](program_words::WordsRead::new)). What they ask for is what clap says of
/// them, and the tests of their command behind it; refused words end the run before anything is
/// read. So does a request for help or for the version, whose text is written to the sink.
///
/// `solve` reads a problem from the source, an SFEN or, with `--kif`, the board diagram of a KIF
/// file in UTF-8; with `--rest` the defender is then given all pieces but kings that are neither on
/// the board nor in a hand. It writes to the sink the USI answer that the problem is a mate, with a
/// main line, or that it is none, and the certificate, which `check` reads; or, where a limit was
/// used up first, a stop was signalled, or the certificate might have more entries than are read,
/// that it is unknown, and why. `shortest` reads a problem likewise, and writes how many moves its
/// shortest mate takes, with the certificate and a bound, which `check --bound` reads, or that
/// there is none up to a limit, or that it is unknown. `cook` reads a problem likewise, and writes
/// of each first check whether it mates, with what shows it, and one word for all; with `--line` it
/// does so at each turn of the attacker along these moves, and a word for the line. `check` reads a
/// certificate, perhaps behind the line of the USI answer, and writes whether it is valid for its
/// own problem, or for the one that `--problem` gives (SFEN), or the first reason why it isn't; a
/// certificate of another problem isn't valid for it. With `--bound` it reads a mate's certificate
/// with a bound behind it, or a bound alone, and writes that no mate is shorter, that there is none
/// within so many moves, or what speaks against it. Positions are compared, and not texts. A
/// `--problem` that is none refuses the words, before anything is read.
///
/// `survey` reads nothing: it decides the problems that the generator makes of a range of numbers,
/// over threads, and writes how many are mates, have none, or were given up. `collection` reads a
/// text with a problem in each line, and writes for each, in order, that it is a mate, with a main
/// line, that it is none, that it was given up, or what its fault is, perhaps with certificates,
/// and the counts behind the last; a faulty line doesn't end the run. `usi` serves a mate session
/// of the USI protocol: it takes a line of the source, does and writes what the session does at it,
/// and takes the next.
///
/// Everything else ends with a named fault and its cause: more than
/// [`MOST_PROBLEM_BYTES`](problem_lines::MOST_PROBLEM_BYTES) of a problem,
/// [`MOST_COLLECTION_BYTES`](crate::MOST_COLLECTION_BYTES) of a collection or
/// [`MOST_CERTIFICATE_BYTES`](crate::MOST_CERTIFICATE_BYTES) of a certificate; a text that is no
/// problem or no certificate, with its first fault; a source or a sink whose count of faults rose;
/// want of memory. The whole text is made before the first write, but for a collection, whose
/// reports are written one by one, and a session. `solve`, `shortest`, `cook` and `usi` pass the
/// gate for visits of positions, as the worker that visits it (no clause says it), and no other
/// command does. Where the words ask for it, `collection` tells the gate which lines are decided,
/// and its deadlines go by the gate's clock, with stops of its own. The stops, one for each worker
/// that there may be, are armed once, with the deadline that the words give or with none, when
/// `solve` has accepted its problem, or `cook` its problem and line, and before that they aren't
/// used; then each worker polls the one at its place. `shortest` uses the first alone in the same
/// way, and `usi` all of them for each problem that it solves. Only `solve`, `cook` and `usi` with
/// several workers wait, for them: who asks for another command may call it in its own crate,
/// without the handle for waiting. (The tsume rule; USI protocol: `checkmate`.)
pub fn run<
    R: Threads + Wait + AllocGlobal + Sync,
    S: Source,
    K: Sink,
    G: Gate + Onlooker + LengthOnlooker + CheckOnlooker,
    T: Stop + Drop,
>(rt: &R, words: WordsRead, source: &mut S, sink: &mut K, gate: &G, stops: &mut Vec<T>) -> Ended
    requires { length stops.old.items ≡ MOST_WORKERS }
    // Whatever command ended the run is the one that the words asked for, and it kept all that it
    // promises, clause by clause: see `solve`, `shortest`, `cook`, `check`, `survey`,
    // `collection` and `usi` of their crates.
    // Where none was begun, the words asked for none, and help was written, where they may ask for
    // it, or they are refused with the cause; or they gave a problem that is none; or memory was
    // wanted. Nothing was read then, and no stop used.
    ensures kept { IsKept result (command_of words) words
        (signals T.signal stops.old.items stops.new.items)
        (shown S.left S.faults source.old source.new) (shown K.kept K.faults sink.old sink.new) }

    // A request for help or for the version is answered, unless the sink fails or memory is wanted.
    ensures help { AsksForHelp words → ¬ Rose (K.faults sink.old) (K.faults sink.new)
        → GivesHelp result ⊎ WantsMemory result }

    // Each test after clap is named where it is the first to fail, unless memory is wanted.
    ensures failed { (fault : WordFault) → FailsFirst words fault
        → (result ≡ Ended.Refused (Refusal.Words fault))
        ⊎ (result ≡ Ended.Refused Refusal.NoMemory) }

    // A problem that the words give for a certificate, and that is none, is named with its first
    // fault, before anything is read, unless memory is wanted.
    ensures asked { (fault : ProblemFault) → GivesFault (command_of words) fault
        → (result ≡ Ended.Refused (Refusal.Asked fault))
        ⊎ (result ≡ Ended.Refused Refusal.NoMemory) }
{
    words_ended(rt, words, source, sink, gate, stops)
}
