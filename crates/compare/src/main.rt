//! Compares the two searches: the one by proof numbers, whose certificate is extracted from its
//! note, and the one by lengths, which knows nothing of the other here.
//!
//! Both search the problems in the lines of standard input, as the command `collection` takes them
//! (a line that is no problem is left out), or where there is none the problems 0 to 49 of the
//! generator. The line that is printed says how many these are, how many the first search decided,
//! of how many the other found the shortest mate up to 50 moves or that there is none, how many
//! both did, and how many of these contradict each other: a mate of more moves than the shortest is
//! none. Each certificate and each bound is checked; one that is refused ends the run with status
//! 1, as want of memory and a failed read or write do.
#![tactic(auto)]

ghost use Rattle.std.specs.Prelude.{◌≡◌, ◌<◌, ◌≤◌};
ghost use Rattle.mate_facts.specs.declared.rank.TheConstants.{MOST_RANK};
ghost use Rattle.shortest_facts.specs.Facts.{AreBorneOut};
ghost use Rattle.shortest_facts.specs.Keys.{known_of};
ghost use Rattle.shortest_search.specs.Visit.{IsLength};
ghost use Rattle.compare.specs.declared.TheConstants.{LIMIT};
ghost use Rattle.visit_log.specs.Frame.{task_for};
ghost use Rattle.visit_log.specs.Sound.{IsAnswer};

use board_core::key;
use bound_check::{BoundVerdict, check_bound};
use cert_check::{Verdict, check};
use cert_extract::extract;
use cert_text::{Certificate, MOST_ENTRIES};
use notes::Note;
use problem_gen::problem_of;
use problem_lines::Lines;
use search_gate::{OpenGate, QuietStop};
use search_limits::Settings;
use search_pool::{SearchEnd, search_alone};
use sfen_text::read_sfen;
use shogi_rules::{Problem, accept_problem};
use shortest_facts::Facts;
use shortest_lists::{bound_of, mate_of};
use shortest_search::{Run, VisitEnd, find_length};
use std::alloc::Global;
use std::io::{self, Read};

const PROBLEMS: u64 = 50;

const EXPANSIONS: u64 = 20_000;

const LIMIT: u32 = 50;

// What is said of a problem: a mate in so many moves, or none.
#[derive(Clone, Copy)]
enum Length {
    Moves(u32),
    Never,
}

// Whether what the search by proof numbers says and the least number of moves, none up to the
// limit, contradict each other.
fn contradict(said: Length, least: Length) -> bool {
    match (said, least) {
        (Length::Moves(moves), Length::Moves(fewest)) => moves < fewest,
        (Length::Moves(moves), Length::Never) => moves <= LIMIT,
        (Length::Never, Length::Moves(_)) => true,
        (Length::Never, Length::Never) => false,
    }
}

// How many problems each search decided, how many both did, and of how many of these the verdicts
// differ.
#[derive(Clone, Copy)]
struct Counts {
    problems: u64,
    by_proof_numbers: u64,
    by_lengths: u64,
    by_both: u64,
    differ: u64,
}

impl Counts {
    fn none() -> Counts {
        Counts {
            problems: 0,
            by_proof_numbers: 0,
            by_lengths: 0,
            by_both: 0,
            differ: 0,
        }
    }

    fn count(&mut self, by_proof_numbers: Option<Length>, by_lengths: Option<Length>) {
        self.problems = self.problems.wrapping_add(1);
        if by_proof_numbers.is_some() {
            self.by_proof_numbers = self.by_proof_numbers.wrapping_add(1);
        }
        if by_lengths.is_some() {
            self.by_lengths = self.by_lengths.wrapping_add(1);
        }
        if let (Some(first), Some(second)) = (by_proof_numbers, by_lengths) {
            self.by_both = self.by_both.wrapping_add(1);
            if contradict(first, second) {
                self.differ = self.differ.wrapping_add(1);
            }
        }
    }
}

fn main(rt: HostRuntime) -> io::Result<()> {
    let Ok(settings) = Settings::new(1, EXPANSIONS, 20_000, 1024, 1) else {
        return Err(io::Error::from(io::ErrorKind::InvalidInput));
    };
    let alloc = rt.alloc();
    let mut counts = Counts::none();
    let mut input = Vec::new(alloc);
    rt.reader().read_to_end(&mut input)?;
    let mut lines = Lines::new(&input, 1);
    while let Some(line) = lines.next() {
        if let Some(problem) = problem_in(line.content) {
            compare(alloc, &problem, &settings, &mut counts)?;
        }
    }
    if input.is_empty() {
        for number in 0..PROBLEMS {
            compare(alloc, &problem_of(number), &settings, &mut counts)?;
        }
    }
    println!(rt;
        "problems {} df-pn {} lengths {} both {} differ {}",
        counts.problems, counts.by_proof_numbers, counts.by_lengths, counts.by_both, counts.differ
    )
}

fn problem_in(text: &[u8]) -> Option<Problem> {
    accept_problem(read_sfen(text).ok()?).ok()
}

fn compare(
    alloc: Global,
    problem: &Problem,
    settings: &Settings,
    counts: &mut Counts,
) -> io::Result<()> {
    counts.count(
        by_proof_numbers(alloc, problem, settings)?,
        by_lengths(alloc, problem)?,
    );
    Ok(())
}

// What is wrong with a certificate or a bound that a checker refuses.
fn refused() -> io::Error {
    io::Error::from(io::ErrorKind::InvalidData)
}

// What a certificate says of the problem, which the checker accepts: the rank of its entry.
fn accepted(alloc: Global, problem: &Problem, certificate: &Certificate) -> io::Result<Length> {
    match check(alloc, problem, certificate)? {
        Verdict::Accepted => {}
        Verdict::Refused { .. } => return Err(refused()),
    }
    let mate = match certificate {
        Certificate::Mate(mate) => mate,
        Certificate::Escape(_) => return Ok(Length::Never),
    };
    for entry in mate.entries() {
        if key(&entry.at) == key(&problem.position) {
            return Ok(Length::Moves(entry.rank.number));
        }
    }
    Err(refused())
}

fn extracted(alloc: Global, problem: &Problem, note: &Note) -> io::Result<Length>
    requires { IsAnswer (task_for problem.now.position 1) note.now }
{
    let Ok(certificate) = extract(alloc, problem, note, MOST_ENTRIES as usize) else {
        return Err(io::Error::from(io::ErrorKind::OutOfMemory));
    };
    accepted(alloc, problem, &certificate)
}

// What the search by proof numbers says, none where it gives up.
fn by_proof_numbers(
    alloc: Global,
    problem: &Problem,
    settings: &Settings,
) -> io::Result<Option<Length>> {
    match search_alone(alloc, problem, settings)? {
        SearchEnd::Solved(note) => Ok(Some(extracted(alloc, problem, &note)?)),
        SearchEnd::Unknown(..) => Ok(None),
    }
}

// That no mate takes so few moves, which the checker accepts.
fn bounded(alloc: Global, problem: &Problem, facts: &Facts, within: u32) -> io::Result<()>
    requires same { (known_of facts.now).attacker ≡ problem.now.position.side }
    requires borne_out { AreBorneOut (known_of facts.now) }
    requires known { within < ((known_of facts.now).at problem.now.position).least }
    requires small { within ≤ MOST_RANK }
{
    let Ok(bound) = bound_of(alloc, problem, facts, within, MOST_ENTRIES as usize) else {
        return Err(io::Error::from(io::ErrorKind::OutOfMemory));
    };
    match check_bound(alloc, problem, &bound, within)? {
        BoundVerdict::Accepted => Ok(()),
        BoundVerdict::Refused { .. } => Err(refused()),
    }
}

// The shortest mate that the facts show, which the checkers accept.
fn shortest(alloc: Global, problem: &Problem, facts: &Facts) -> io::Result<Length>
    requires same { (known_of facts.now).attacker ≡ problem.now.position.side }
    requires borne_out { AreBorneOut (known_of facts.now) }
    requires length { IsLength (known_of facts.now) problem.now.position LIMIT }
{
    problem.position.laws();
    let number = facts.fact(&problem.position).most;
    let Ok(mate) = mate_of(alloc, problem, facts, MOST_ENTRIES as usize) else {
        return Err(io::Error::from(io::ErrorKind::OutOfMemory));
    };
    bounded(alloc, problem, facts, number - 1)?;
    accepted(alloc, problem, &Certificate::Mate(mate))
}

// What the search by lengths says, none where it gives up.
fn by_lengths(alloc: Global, problem: &Problem) -> io::Result<Option<Length>> {
    let mut run = Run {
        alloc,
        facts: Facts::new(alloc, problem.attacker()),
        made: 0,
        most: EXPANSIONS,
    };
    match find_length(problem, &mut run, &mut QuietStop::new(), LIMIT, &OpenGate) {
        Ok(true) => Ok(Some(shortest(alloc, problem, &run.facts)?)),
        Ok(false) => {
            bounded(alloc, problem, &run.facts, LIMIT)?;
            Ok(Some(Length::Never))
        }
        Err(VisitEnd::NoMemory) => Err(io::Error::from(io::ErrorKind::OutOfMemory)),
        Err(VisitEnd::Spent | VisitEnd::Stopped) => Ok(None),
    }
}
