// Visits: whether a mate from a position takes so many moves or fewer.
ghost use Rattle.std.specs.Prelude.{◌≡◌, ◌<◌, ◌≤◌, ◌+◌, Result, Ok, Some, None, Option};
ghost use Rattle.search_gate.specs.Polls.{IsPolledForEach};
ghost use Rattle.bit_boards.specs.Kind.{other};
ghost use Rattle.shogi_rules.specs.Rules.{IsQuiet, after};
ghost use Rattle.shortest_facts.specs.declared.fact.TheConstants.{NEVER};
ghost use Rattle.shortest_facts.specs.Facts.{AreBorneOut};
ghost use Rattle.shortest_facts.specs.Keys.{known_of};
ghost use Rattle.shortest_search.specs.Children.{IsKnownCheck, IsKnownEvasion};
ghost use Rattle.shortest_search.specs.Visit.{GoesOn, IsOutcome, IsStopped, IsTried, TakesMore, TakesNoMore, HasMate, IsMemory};

use crate::child::{
    Child, first_escape, first_mate, in_turn, known_checks, known_evasions, next_length,
};
use crate::run::{Run, VisitEnd};
use board_core::Position;
use check_moves::checks;
use evasions::answers_into;
use move_lists::Moves;
use search_gate::Stop;
use shogi_rules::{Problem, apply};
use shortest_facts::NEVER;

// Whether the attacker, who is to move, mates at once.
fn attack_once(problem: &Problem, run: &mut Run, position: &Position) -> Result<bool, VisitEnd>
    requires same { (known_of run.old.facts).attacker ≡ problem.now.position.side }
    requires borne_out { AreBorneOut (known_of run.old.facts) }
    requires made { run.old.made ≤ run.old.most }
    requires quiet { IsQuiet position.now }
    requires turn { position.now.side ≡ problem.now.position.side }
    ensures goes_on { GoesOn run.old run.new }
    ensures made { run.new.made ≡ run.old.made }
    ensures outcome { IsOutcome run.new position.now 1 result }
    ensures memory { IsMemory result }
{
    position.laws();
    let listed = checks(run.alloc, problem, position)?;
    let mut evasions = Moves::new(run.alloc);
    let mut low = NEVER;
    for check in listed.as_slice() {
        let next = apply(position, *check);
        answers_into(problem, &next, &mut evasions)?;
        if evasions.len() == 0 {
            run.facts.mates(position, *check, 1)?;
            return Ok(true);
        }
        low = low.min(run.facts.fact(&next).least.max(1));
    }
    run.facts.takes(position, next_length(low))?;
    Ok(false)
}

// Tries a check: nothing, where it mates in so many moves or fewer after it; else how many a mate
// takes at least after it, which are more.
#[cycle(visit)]
fn try_check<T: Stop>(
    problem: &Problem,
    run: &mut Run,
    stop: &mut T,
    position: &Position,
    child: Child,
    fewer: u32,
) -> Result<Option<u32>, VisitEnd>
    requires same { (known_of run.old.facts).attacker ≡ problem.now.position.side }
    requires borne_out { AreBorneOut (known_of run.old.facts) }
    requires made { run.old.made ≤ run.old.most }
    requires quiet { IsQuiet position.now }
    requires known { IsKnownCheck (known_of run.old.facts) position.now child }
    requires some { 1 ≤ fewer }
    requires finite { fewer + 1 < NEVER }
    ensures goes_on { GoesOn run.old run.new }
    ensures outcome { IsTried (HasMate (known_of run.new.facts) position.now (fewer + 1))
        (TakesMore (known_of run.new.facts) (after position.now child.by) fewer) run.new result }
    ensures stopped { IsStopped result (T.signal stop.old) (T.signal stop.new) }
    ensures polled { IsPolledForEach run.old.made run.new.made (T.signal stop.old)
        (T.signal stop.new) }
{
    if child.least > fewer {
        return Ok(Some(child.least));
    }
    let next = apply(position, child.by);
    let yes = visit(problem, run, stop, &next, fewer)?;
    let fact = run.facts.fact(&next);
    if !yes {
        return Ok(Some(fact.least));
    }
    run.facts.mates(position, child.by, fact.most + 1)?;
    Ok(None)
}

// Whether the attacker, who is to move, mates in so many moves or fewer, two at least.
#[cycle(visit)]
fn attack<T: Stop>(
    problem: &Problem,
    run: &mut Run,
    stop: &mut T,
    position: &Position,
    within: u32,
) -> Result<bool, VisitEnd>
    requires same { (known_of run.old.facts).attacker ≡ problem.now.position.side }
    requires borne_out { AreBorneOut (known_of run.old.facts) }
    requires made { run.old.made ≤ run.old.most }
    requires quiet { IsQuiet position.now }
    requires turn { position.now.side ≡ problem.now.position.side }
    requires two { 2 ≤ within }
    requires finite { within < NEVER }
    ensures goes_on { GoesOn run.old run.new }
    ensures outcome { IsOutcome run.new position.now within result }
    ensures stopped { IsStopped result (T.signal stop.old) (T.signal stop.new) }
    ensures polled { IsPolledForEach run.old.made run.new.made (T.signal stop.old)
        (T.signal stop.new) }
{
    position.laws();
    let fewer = within - 1;
    let children = known_checks(run.alloc, problem, &run.facts, position)?;
    if let Some(child) = first_mate(&children, fewer) {
        run.facts.mates(position, child.by, child.most + 1)?;
        return Ok(true);
    }
    let children = in_turn(children);
    let mut low = NEVER;
    for child in children.as_slice() {
        match try_check(problem, run, stop, position, *child, fewer)? {
            None => return Ok(true),
            Some(least) => low = low.min(least),
        }
    }
    run.facts.takes(position, next_length(low))?;
    Ok(false)
}

// Tries an evasion: nothing, where it holds out for more moves than so many; else how many a mate
// takes at most after it, which are no more.
#[cycle(visit)]
fn try_evasion<T: Stop>(
    problem: &Problem,
    run: &mut Run,
    stop: &mut T,
    position: &Position,
    child: Child,
    within: u32,
) -> Result<Option<u32>, VisitEnd>
    requires same { (known_of run.old.facts).attacker ≡ problem.now.position.side }
    requires borne_out { AreBorneOut (known_of run.old.facts) }
    requires made { run.old.made ≤ run.old.most }
    requires quiet { IsQuiet position.now }
    requires known { IsKnownEvasion (known_of run.old.facts) position.now child }
    requires finite { within < NEVER }
    ensures goes_on { GoesOn run.old run.new }
    ensures outcome { IsTried (within < ((known_of run.new.facts).at position.now).least)
        (TakesNoMore (known_of run.new.facts) (after position.now child.by) within) run.new result }
    ensures stopped { IsStopped result (T.signal stop.old) (T.signal stop.new) }
    ensures polled { IsPolledForEach run.old.made run.new.made (T.signal stop.old)
        (T.signal stop.new) }
{
    if child.most <= within {
        return Ok(Some(child.most));
    }
    let next = apply(position, child.by);
    let yes = visit(problem, run, stop, &next, within)?;
    let fact = run.facts.fact(&next);
    if yes {
        return Ok(Some(fact.most));
    }
    run.facts.holds_out(position, child.by, fact.least)?;
    Ok(None)
}

// Whether the defender, who is to move, is mated in so many moves or fewer.
#[cycle(visit)]
fn defend<T: Stop>(
    problem: &Problem,
    run: &mut Run,
    stop: &mut T,
    position: &Position,
    within: u32,
) -> Result<bool, VisitEnd>
    requires same { (known_of run.old.facts).attacker ≡ problem.now.position.side }
    requires borne_out { AreBorneOut (known_of run.old.facts) }
    requires made { run.old.made ≤ run.old.most }
    requires quiet { IsQuiet position.now }
    requires turn { position.now.side ≡ other problem.now.position.side }
    requires finite { within < NEVER }
    ensures goes_on { GoesOn run.old run.new }
    ensures outcome { IsOutcome run.new position.now within result }
    ensures stopped { IsStopped result (T.signal stop.old) (T.signal stop.new) }
    ensures polled { IsPolledForEach run.old.made run.new.made (T.signal stop.old)
        (T.signal stop.new) }
{
    position.laws();
    let children = known_evasions(run.alloc, problem, &run.facts, position)?;
    if let Some(child) = first_escape(&children, within) {
        run.facts.holds_out(position, child.by, child.least)?;
        return Ok(false);
    }
    let children = in_turn(children);
    let mut high = 0u32;
    for child in children.as_slice() {
        match try_evasion(problem, run, stop, position, *child, within)? {
            None => return Ok(false),
            Some(most) => high = high.max(most),
        }
    }
    run.facts.is_mated(position, high)?;
    Ok(true)
}

/// Whether a mate from a position takes so many of the attacker's moves or fewer, whoever is to
/// move: by what is known of it, else by an expansion, which lists its moves and visits what they
/// lead to as far as it has to. The stop is polled for each expansion, once or more. Errors: all
/// expansions were made; the stop signalled; want of memory. What was found till then is known.
///
/// Visits are nested: two for each of the moves that are left.
#[cycle(visit)]
pub fn visit<T: Stop>(
    problem: &Problem,
    run: &mut Run,
    stop: &mut T,
    position: &Position,
    within: u32,
) -> Result<bool, VisitEnd>
    requires same { (known_of run.old.facts).attacker ≡ problem.now.position.side }
    requires borne_out { AreBorneOut (known_of run.old.facts) }
    requires made { run.old.made ≤ run.old.most }
    requires quiet { IsQuiet position.now }
    requires finite { within < NEVER }
    // What is known gets better, and never more expansions are made than may be.
    ensures goes_on { GoesOn run.old run.new }
    // The answer is right by what is known then.
    ensures outcome { IsOutcome run.new position.now within result }
    ensures stopped { IsStopped result (T.signal stop.old) (T.signal stop.new) }
    ensures polled { IsPolledForEach run.old.made run.new.made (T.signal stop.old)
        (T.signal stop.new) }
{
    position.laws();
    let fact = run.facts.fact(position);
    if fact.most <= within {
        return Ok(true);
    }
    if fact.least > within {
        return Ok(false);
    }
    run.begin(stop)?;
    if position.side() != problem.attacker() {
        return defend(problem, run, stop, position, within);
    }
    if within < 2 {
        return attack_once(problem, run, position);
    }
    attack(problem, run, stop, position, within)
}
