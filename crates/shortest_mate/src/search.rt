// The search for the shortest mate.
ghost use Rattle.std.specs.Prelude.{◌≡◌, ◌≤◌, ◌<◌, ◌⊎◌, ℕ, false, Ok, Err, IfOk, IfSome};
ghost use Rattle.search_gate.specs.Polls.{IsPolledForEach};
ghost use Rattle.search_gate.specs.Stop.{Signal};
ghost use Rattle.search_limits.specs.declared.expansions.TheConstants.{MOST_EXPANSIONS};
ghost use Rattle.shortest_facts.specs.Facts.{AreBorneOut};
ghost use Rattle.shortest_facts.specs.Keys.{known_of};
ghost use Rattle.shortest_lists.specs.declared.ends.ListEnd.TheVariants.{TooMany};
ghost use Rattle.shortest_search.specs.Visit.{IsLength};
ghost use Rattle.shortest_mate.specs.declared.search.TheConstants.{MOST_LIMIT};
ghost use Rattle.shortest_mate.specs.Finding.{IsPrintable, HasTooMany, HeedsStop, IsTrueOf};
ghost use Rattle.hand_dominance.specs.declared.version.Version.TheVariants.{One};
ghost use Rattle.cert_check.specs.Valid.{ValidEscape, ValidMate};
ghost use Rattle.cert_text.specs.declared.limits.TheConstants.{MOST_ENTRIES};
ghost use Rattle.search_limits.specs.declared.cause.Cause.TheVariants.{Entries};
ghost use Rattle.shortest_mate.specs.declared.finding.Finding.TheVariants.{Unknown};

use crate::Finding;
use crate::escape::bound_of_escape;
use crate::first::{First, search_first};
use crate::learning::learn;
use bound_check::valid_bound_is_accepted;
use cert_check::valid_is_accepted;
use cert_text::{Certificate, EscapeCertificate, MOST_ENTRIES, MateCertificate};
use mate_facts::Rank;
use search_gate::{Gate, Stop};
use search_limits::{Cause, Settings};
use shogi_rules::Problem;
use shortest_facts::Facts;
use shortest_lists::{ListEnd, bound_of, line_of, mate_of};
use shortest_search::{LengthOnlooker, Run, VisitEnd, find_length};
use std::alloc::{AllocError, Global};

/// The most moves of the attacker up to which a mate is looked for.
pub const MOST_LIMIT: u32 = 2_000;

// Notes that the first search may make.
const ROOM: u32 = 1_048_576;

// Rows of its table.
const ROWS: u64 = 65_536;

// What is found where certificate or bound list more entries than are read.
fn too_many() -> Finding
    ensures { result ≡ Unknown (Entries MOST_ENTRIES) }
{
    Finding::Unknown(Cause::Entries(MOST_ENTRIES))
}

// What is found where the length of the mate is known.
fn found(alloc: Global, problem: &Problem, facts: &Facts, limit: u32) -> Result<Finding, ListEnd>
    requires same { (known_of facts.now).attacker ≡ problem.now.position.side }
    requires borne_out { AreBorneOut (known_of facts.now) }
    requires length { IsLength (known_of facts.now) problem.now.position limit }
    requires small { limit ≤ MOST_LIMIT }
    ensures too_many { result ≡ Err TooMany → HasTooMany problem.now.position limit }
    ensures finding { IfOk result (λ finding. (expansions made : ℕ)
        → IsTrueOf problem.now.position limit expansions made finding) }
    ensures printable { IfOk result IsPrintable }
    ensures quiet { IfOk result (λ finding. (before after_it : Signal)
        → after_it.raised ≡ before.raised → HeedsStop before after_it finding) }
{
    // What valid certificates and bounds show.
    valid_is_accepted();
    valid_bound_is_accepted();
    problem.position.laws();
    let number = facts.fact(&problem.position).most;
    let entries = MOST_ENTRIES as usize;
    let certificate = mate_of(alloc, problem, facts, entries)?;
    let bound = bound_of(alloc, problem, facts, number - 1, entries)?;
    let line = line_of(alloc, problem, &certificate, &bound, number)?;
    Ok(Finding::Found {
        rank: Rank { number },
        certificate,
        bound,
        line,
    })
}

// What is found where a mate is known to take more moves than the limit.
fn none_within(
    alloc: Global,
    problem: &Problem,
    facts: &Facts,
    limit: Rank,
) -> Result<Finding, ListEnd>
    requires same { (known_of facts.now).attacker ≡ problem.now.position.side }
    requires borne_out { AreBorneOut (known_of facts.now) }
    requires more { limit.number < ((known_of facts.now).at problem.now.position).least }
    ensures too_many { result ≡ Err TooMany → HasTooMany problem.now.position limit.number }
    ensures finding { IfOk result (λ finding. (expansions made : ℕ)
        → IsTrueOf problem.now.position limit.number expansions made finding) }
    ensures printable { IfOk result IsPrintable }
    ensures quiet { IfOk result (λ finding. (before after_it : Signal)
        → after_it.raised ≡ before.raised → HeedsStop before after_it finding) }
{
    // What a valid bound shows.
    valid_bound_is_accepted();
    let bound = bound_of(alloc, problem, facts, limit.number, MOST_ENTRIES as usize)?;
    Ok(Finding::NoneWithin { limit, bound })
}

// What was listed; or what is found where it is too much; after so many expansions.
fn or_too_many(listed: Result<Finding, ListEnd>, made: u64) -> Result<(Finding, u64), AllocError>
    ensures made { IfOk result (λ found. found.1 ≡ made) }
    ensures finding { IfOk result (λ found. (listed ≡ Ok found.0)
        ⊎ ((found.0 ≡ Unknown (Entries MOST_ENTRIES)) × (listed ≡ Err TooMany))) }
{
    match listed {
        Ok(finding) => Ok((finding, made)),
        Err(ListEnd::TooMany) => Ok((too_many(), made)),
        Err(ListEnd::NoMemory) => Err(AllocError),
    }
}

// What is found where the first search answers that there is no mate, after so many expansions.
fn escaped(
    alloc: Global,
    problem: &Problem,
    escape: &EscapeCertificate,
    limit: Rank,
    made: u64,
) -> Result<(Finding, u64), AllocError>
    requires valid { ValidEscape escape.now problem.now.position }
    requires version { escape.now.version ≡ One }
    ensures finding { IfOk result (λ found. (expansions : ℕ)
        → IsTrueOf problem.now.position limit.number expansions found.1 found.0) }
    ensures printable { IfOk result (λ found. IsPrintable found.0) }
    ensures made { IfOk result (λ found. found.1 ≡ made) }
    ensures quiet { IfOk result (λ found. (before after_it : Signal)
        → after_it.raised ≡ before.raised → HeedsStop before after_it found.0) }
{
    escape.laws();
    if escape.entries().len() > MOST_ENTRIES as usize {
        return Ok((too_many(), made));
    }
    let bound = bound_of_escape(alloc, problem, escape, limit)?;
    Ok((Finding::NoneWithin { limit, bound }, made))
}

// A search by lengths that begins with what a mate's certificate shows, if there is one.
fn run_from(
    alloc: Global,
    problem: &Problem,
    expansions: u64,
    made: u64,
    mate: Option<&MateCertificate>,
) -> Result<Run, AllocError>
    requires valid { IfSome mate (λ mate. ValidMate mate.now problem.now.position) }
    requires few { made ≤ expansions }
    ensures same { IfOk result
        (λ run. (known_of run.facts).attacker ≡ problem.now.position.side) }
    ensures borne_out { IfOk result (λ run. AreBorneOut (known_of run.facts)) }
    ensures made { IfOk result (λ run. run.made ≤ run.most) }
    ensures most { IfOk result (λ run. run.most ≡ expansions) }
    ensures before { IfOk result (λ run. run.made ≡ made) }
{
    let mut facts = Facts::new(alloc, problem.attacker());
    if let Some(mate) = mate {
        learn(alloc, problem, &mut facts, mate)?;
    }
    Ok(Run {
        alloc,
        facts,
        made,
        most: expansions,
    })
}

// What a search by lengths finds, and how many expansions were made with it.
fn by_lengths<T: Stop, O: LengthOnlooker>(
    problem: &Problem,
    mut run: Run,
    stop: &mut T,
    limit: Rank,
    onlooker: &O,
) -> Result<(Finding, u64), AllocError>
    requires same { (known_of run.facts).attacker ≡ problem.now.position.side }
    requires borne_out { AreBorneOut (known_of run.facts) }
    requires made { run.made ≤ run.most }
    requires small { limit.number ≤ MOST_LIMIT }
    ensures finding { IfOk result
        (λ found. IsTrueOf problem.now.position limit.number run.most found.1 found.0) }
    ensures printable { IfOk result (λ found. IsPrintable found.0) }
    ensures few { IfOk result (λ found. found.1 ≤ run.most) }
    ensures more { IfOk result (λ found. run.made ≤ found.1) }
    ensures polled { IfOk result (λ found. IsPolledForEach run.made found.1 (T.signal stop.old)
        (T.signal stop.new)) }
    ensures heeds { IfOk result (λ found. HeedsStop (T.signal stop.old) (T.signal stop.new)
        found.0) }
    ensures armed { (T.signal stop.new).armed ≡ (T.signal stop.old).armed }
    ensures arms { (T.signal stop.new).arms ≡ (T.signal stop.old).arms }
    ensures early { (T.signal stop.new).early ≡ (T.signal stop.old).early }
{
    let length = find_length(problem, &mut run, stop, limit.number, onlooker);
    onlooker.ends(run.made);
    let made = run.made;
    match length {
        Ok(true) => or_too_many(found(run.alloc, problem, &run.facts, limit.number), made),
        Ok(false) => or_too_many(none_within(run.alloc, problem, &run.facts, limit), made),
        Err(VisitEnd::Spent) => Ok((Finding::Unknown(Cause::Expansions(run.most)), made)),
        Err(VisitEnd::Stopped) => Ok((Finding::Unknown(Cause::Stopped(1)), made)),
        Err(VisitEnd::NoMemory) => Err(AllocError),
    }
}

// With what the first search is run: half of the expansions, over a table that lends nothing, so
// that its certificate is of version 1; none where that is none.
fn first_settings(expansions: u64) -> Option<Settings>
    ensures few { IfSome result (λ settings. settings.expansions ≤ expansions) }
    ensures lends { IfSome result (λ settings. settings.lends ≡ false) }
{
    match Settings::new(1, expansions / 2, ROOM, ROWS, 1) {
        Ok(settings) => Some(settings.lending_nothing()),
        Err(_) => None,
    }
}

/// The shortest mate of the problem, up to a limit, 1 to [`MOST_LIMIT`] moves of the attacker, with
/// so many expansions at most, 1 to [`search_limits::MOST_EXPANSIONS`]; and how many were made.
/// Half of them are for a search by proof numbers with one worker (`search_pool`), whose answer is
/// the beginning: no mate is no mate within the limit, and a mate's certificate is known to the
/// search by lengths (`shortest_search`) that makes the others. The gate is passed for each visit
/// of the first search, as worker 1, and told each length that is asked about then (no clause says
/// it). The stop is polled once or more for each expansion. Takes some 100 bytes for an expansion;
/// the first search's table, some 64 MB, is given back before. Errors: want of memory alone.
pub fn shortest<G: Gate + LengthOnlooker, T: Stop>(
    alloc: Global,
    problem: &Problem,
    limit: u32,
    expansions: u64,
    gate: &G,
    stop: &mut T,
) -> Result<(Finding, u64), AllocError>
    requires limit { (1 ≤ limit) × (limit ≤ MOST_LIMIT) }
    requires expansions { (1 ≤ expansions) × (expansions ≤ MOST_EXPANSIONS) }
    // What is found is true, and shown.
    ensures finding { IfOk result
        (λ found. IsTrueOf problem.now.position limit expansions found.1 found.0) }
    ensures printable { IfOk result (λ found. IsPrintable found.0) }
    // No more expansions were made than asked for, and the stop was polled for each of them.
    ensures few { IfOk result (λ found. found.1 ≤ expansions) }
    ensures polled { IfOk result (λ found. IsPolledForEach 0 found.1 (T.signal stop.old)
        (T.signal stop.new)) }
    // It was stopped exactly where the stop signalled, which it does once; then it is polled no
    // more.
    ensures heeds { IfOk result (λ found. HeedsStop (T.signal stop.old) (T.signal stop.new)
        found.0) }
    // A stop is polled, and nothing else.
    ensures armed { (T.signal stop.new).armed ≡ (T.signal stop.old).armed }
    ensures arms { (T.signal stop.new).arms ≡ (T.signal stop.old).arms }
    ensures early { (T.signal stop.new).early ≡ (T.signal stop.old).early }
{
    let limit = Rank { number: limit };
    let Some(settings) = first_settings(expansions) else {
        let run = run_from(alloc, problem, expansions, 0, None)?;
        return by_lengths(problem, run, stop, limit, gate);
    };
    let (first, drawn) = search_first(alloc, problem, &settings, gate, stop)?;
    match first {
        First::Stopped => Ok((Finding::Unknown(Cause::Stopped(1)), drawn)),
        First::Answered(Certificate::Escape(escape)) => {
            escaped(alloc, problem, &escape, limit, drawn)
        }
        First::Answered(Certificate::Mate(mate)) => {
            let run = run_from(alloc, problem, expansions, drawn, Some(&mate))?;
            by_lengths(problem, run, stop, limit, gate)
        }
        First::Unanswered => {
            let run = run_from(alloc, problem, expansions, drawn, None)?;
            by_lengths(problem, run, stop, limit, gate)
        }
    }
}
