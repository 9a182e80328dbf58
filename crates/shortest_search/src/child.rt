// The moves of a position that is visited.
ghost use Rattle.std.specs.Prelude.{◌≡◌, ◌<◌, ◌≤◌, ◌+◌, ◌⊎◌, IfOk, IfSome, Contains, true};
ghost use Rattle.std.specs.List.Sorted.{IsPermutation};
ghost use Rattle.board_core.specs.declared.moves.Move.{Move};
ghost use Rattle.shogi_rules.specs.Rules.{IsQuiet};
ghost use Rattle.shogi_rules.specs.Tsume.{IsCheck, IsEvasion};
ghost use Rattle.shortest_facts.specs.Facts.{AreBorneOut, HasNoCheck};
ghost use Rattle.shortest_facts.specs.Keys.{known_of};
ghost use Rattle.shortest_search.specs.declared.child.Child.{Child};
ghost use Rattle.shortest_search.specs.Children.{AreChecks, AreEvasions, IsKnownCheck, IsKnownEvasion, IsNext};

use board_core::{Move, Position};
use check_moves::checks;
use evasions::answers;
use shogi_rules::{Problem, apply};
use shortest_facts::{Facts, NEVER};
use start_numbers::start;
use std::alloc::{AllocError, Global};

/// Which of two children is tried first: the lesser. First the move that a fact names; then, where
/// the defender is to move, the position from which a mate takes longer; then what looks easier;
/// then in the order of moves.
#[derive(Clone, Copy, PartialEq, Eq, PartialOrd, Ord, Debug)]
pub(crate) struct Turn {
    pub(crate) late: bool,
    pub(crate) short: u32,
    pub(crate) hard: u32,
    pub(crate) place: usize,
}

/// A move of a position that is visited, and what is known of the position that it leads to.
#[derive(Clone, Copy, Debug)]
pub(crate) struct Child {
    pub(crate) by: Move,
    /// A mate from there takes so many moves at least.
    pub(crate) least: u32,
    /// And so many at most.
    pub(crate) most: u32,
    pub(crate) turn: Turn,
}

/// One more, but never more than never.
pub(crate) fn next_length(length: u32) -> u32
    ensures { IsNext length result }
{
    if length < NEVER { length + 1 } else { NEVER }
}

// Whether the fact's move is another one.
fn is_late(first: Option<Move>, by: Move) -> bool {
    match first {
        Some(move_of_fact) => move_of_fact != by,
        None => true,
    }
}

// Whether the defender has no evasion.
fn is_mate(alloc: Global, problem: &Problem, position: &Position) -> Result<bool, AllocError>
    requires { IsQuiet position.now }
    ensures { IfOk result (λ yes. yes ≡ true → (evasion : Move)
        → ¬ IsEvasion problem.now.position.side position.now evasion) }
{
    Ok(answers(alloc, problem, position)?.len() == 0)
}

// Whether the attacker has no check.
fn is_safe(alloc: Global, problem: &Problem, position: &Position) -> Result<bool, AllocError>
    requires { IsQuiet position.now }
    ensures { IfOk result (λ yes. yes ≡ true
        → HasNoCheck problem.now.position.side position.now) }
{
    Ok(checks(alloc, problem, position)?.len() == 0)
}

// At most how many moves a mate takes from a position after a check, by its fact; 0 where the
// number with which it begins says that the defender is mated.
fn most_after(
    alloc: Global,
    problem: &Problem,
    next: &Position,
    most: u32,
    hard: u32,
) -> Result<u32, AllocError>
    requires { IsQuiet next.now }
    ensures { IfOk result (λ found. (found ≡ most) ⊎ ((evasion : Move)
        → ¬ IsEvasion problem.now.position.side next.now evasion)) }
{
    if hard == 1 && is_mate(alloc, problem, next)? {
        return Ok(0);
    }
    Ok(most)
}

// At least how many moves a mate takes from a position after an evasion, by its fact; none is
// possible where the number with which it begins says that there is no check.
fn least_after(
    alloc: Global,
    problem: &Problem,
    next: &Position,
    least: u32,
    hard: u32,
) -> Result<u32, AllocError>
    requires { IsQuiet next.now }
    ensures { IfOk result (λ found. (found ≡ least)
        ⊎ HasNoCheck problem.now.position.side next.now) }
{
    if hard == 1 && is_safe(alloc, problem, next)? {
        return Ok(NEVER);
    }
    Ok(least)
}

// A check of a position, and what is known of the position that it leads to.
fn known_check(
    alloc: Global,
    problem: &Problem,
    facts: &Facts,
    position: &Position,
    by: Move,
    place: usize,
) -> Result<Child, AllocError>
    requires same { (known_of facts.now).attacker ≡ problem.now.position.side }
    requires borne_out { AreBorneOut (known_of facts.now) }
    requires quiet { IsQuiet position.now }
    requires check { IsCheck problem.now.position.side position.now by }
    ensures known { IfOk result (IsKnownCheck (known_of facts.now) position.now) }
    ensures by { IfOk result (λ child. child.by ≡ by) }
{
    position.laws();
    let next = apply(position, by);
    let fact = facts.fact(&next);
    let hard = start(problem, position, by).pn;
    let turn = Turn {
        late: is_late(facts.fact(position).by, by),
        short: 0,
        hard,
        place,
    };
    Ok(Child {
        by,
        least: fact.least.max(1),
        most: most_after(alloc, problem, &next, fact.most, hard)?,
        turn,
    })
}

// An evasion at a position, and what is known of the position that it leads to.
fn known_evasion(
    alloc: Global,
    problem: &Problem,
    facts: &Facts,
    position: &Position,
    by: Move,
    place: usize,
) -> Result<Child, AllocError>
    requires same { (known_of facts.now).attacker ≡ problem.now.position.side }
    requires quiet { IsQuiet position.now }
    requires evasion { IsEvasion problem.now.position.side position.now by }
    ensures known { IfOk result (IsKnownEvasion (known_of facts.now) position.now) }
    ensures by { IfOk result (λ child. child.by ≡ by) }
{
    let next = apply(position, by);
    let fact = facts.fact(&next);
    let hard = start(problem, position, by).dn;
    let least = least_after(alloc, problem, &next, fact.least, hard)?;
    let turn = Turn {
        late: is_late(facts.fact(position).by, by),
        short: NEVER.saturating_sub(least),
        hard,
        place,
    };
    Ok(Child {
        by,
        least,
        most: fact.most,
        turn,
    })
}

/// All checks of a position, in the order of moves, and what is known of the positions that they
/// lead to.
pub(crate) fn known_checks(
    alloc: Global,
    problem: &Problem,
    facts: &Facts,
    position: &Position,
) -> Result<Vec<Child>, AllocError>
    requires same { (known_of facts.now).attacker ≡ problem.now.position.side }
    requires borne_out { AreBorneOut (known_of facts.now) }
    requires quiet { IsQuiet position.now }
    ensures { IfOk result (λ children.
        AreChecks (known_of facts.now) position.now children.items) }
{
    let listed = checks(alloc, problem, position)?;
    let mut children = Vec::with_capacity(alloc, listed.len())?;
    for (place, by) in listed.as_slice().iter().enumerate() {
        children.push(known_check(alloc, problem, facts, position, *by, place)?)?;
    }
    Ok(children)
}

/// All evasions at a position, in the order of moves, and what is known of the positions that they
/// lead to.
pub(crate) fn known_evasions(
    alloc: Global,
    problem: &Problem,
    facts: &Facts,
    position: &Position,
) -> Result<Vec<Child>, AllocError>
    requires same { (known_of facts.now).attacker ≡ problem.now.position.side }
    requires quiet { IsQuiet position.now }
    ensures { IfOk result (λ children.
        AreEvasions (known_of facts.now) position.now children.items) }
{
    let listed = answers(alloc, problem, position)?;
    let mut children = Vec::with_capacity(alloc, listed.len())?;
    for (place, by) in listed.as_slice().iter().enumerate() {
        children.push(known_evasion(alloc, problem, facts, position, *by, place)?)?;
    }
    Ok(children)
}

/// The first child from which a mate is known in no more moves than so many.
pub(crate) fn first_mate(children: &[Child], within: u32) -> Option<Child>
    ensures { IfSome result (λ child. Contains children.now child × (child.most ≤ within)) }
{
    for child in children {
        if child.most <= within {
            return Some(*child);
        }
    }
    None
}

/// The first child from which no mate takes as few moves as so many.
pub(crate) fn first_escape(children: &[Child], within: u32) -> Option<Child>
    ensures { IfSome result (λ child. Contains children.now child × (within < child.least)) }
{
    for child in children {
        if child.least > within {
            return Some(*child);
        }
    }
    None
}

/// The children in the order in which they are tried.
pub(crate) fn in_turn(mut children: Vec<Child>) -> Vec<Child>
    ensures { IsPermutation children.items result.items }
{
    children.sort_unstable_by_key(|child| child.turn);
    children
}
