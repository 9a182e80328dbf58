// Which child is visited next.
ghost use Rattle.std.specs.Prelude.{◌≡◌, ◌<◌, ◌≤◌, ◌+◌, ℕ, Option, Some, None, IsTrue, IsSomeAnd, IfSome, MatchOption, count_by, take, length, slice_get, unwrap_or};
ghost use Rattle.pn_numbers.specs.Node.{minimized_number};
ghost use Rattle.pn_numbers.specs.Selection.{selecting_number, number_at, has_number, IsSelected};
ghost use Rattle.pn_numbers.specs.Leading.{IsLead, IsLeading};

use crate::{INFINITE, Node, Numbers};

/// How much larger a worker below a child makes it look (virtual numbers: Kaneko 2010).
pub const WEIGHT: u32 = 3;

/// A child of a node, as it was seen last.
#[derive(Clone, Copy, PartialEq, Eq, Debug)]
pub struct Child {
    /// Its numbers.
    pub numbers: Numbers,
    /// How many workers are below it.
    pub below: u64,
}

// The number by which the child is selected; none where it is infinite here.
fn selecting_number(node: Node, child: Child) -> Option<u128>
    ensures { result ≡ selecting_number node child }
{
    let number = node.minimized(child.numbers);
    if number >= INFINITE {
        return None;
    }
    Some(u128::from(number) + u128::from(WEIGHT) * u128::from(child.below))
}

// Of the children that were looked at: the first with the least selecting number, and the least of
// the others'.
#[derive(Clone, Copy)]
struct Lead {
    place: usize,
    least: u128,
    second: Option<u128>,
}

// The lead when the next child, which has this selecting number, is looked at too.
fn joined(lead: Lead, place: usize, number: u128) -> Lead
    ensures { (numbers : ℕ → Option ℕ) → IsLead numbers place lead.place lead.least lead.second
        → numbers place ≡ Some number
        → IsLead numbers (place + 1) result.place result.least result.second }
{
    if number < lead.least {
        return Lead {
            place,
            least: number,
            second: Some(lead.least),
        };
    }
    if let Some(second) = lead.second {
        if second <= number {
            return lead;
        }
    }
    Lead {
        place: lead.place,
        least: lead.least,
        second: Some(number),
    }
}

// The lead, if there is one, when the next child is looked at too.
fn extended(lead: Option<Lead>, place: usize, number: Option<u128>) -> Option<Lead>
    ensures { (numbers : ℕ → Option ℕ) → IsLeading numbers place lead → numbers place ≡ number
        → IsLeading numbers (place + 1) result }
{
    let Some(number) = number else {
        return lead;
    };
    let Some(lead) = lead else {
        return Some(Lead {
            place,
            least: number,
            second: None,
        });
    };
    Some(joined(lead, place, number))
}

// The lead of all children; none where each is infinite.
fn leading(node: Node, children: &[Child]) -> Option<Lead>
    ensures { IsLeading (number_at node children.now) (length children.now) result }
{
    let mut lead = None;
    for (place, child) in children.iter().enumerate() {
        lead = extended(lead, place, selecting_number(node, *child));
    }
    lead
}

fn has_number(node: Node, number: u128, child: Child) -> bool
    ensures { result ≡ has_number node number child }
{
    match selecting_number(node, child) {
        Some(found) => found == number,
        None => false,
    }
}

// How many children have the selecting number.
fn count_with(node: Node, number: u128, children: &[Child]) -> usize
    ensures { result ≡ count_by (has_number node number) children.now }
{
    children
        .iter()
        .filter(|child| has_number(node, number, **child))
        .count()
}

// The place of the child with the selecting number before which so many have it.
fn place_with(node: Node, number: u128, children: &[Child], before: usize) -> Option<usize>
    ensures none { result ≡ None → count_by (has_number node number) children.now ≤ before }
    ensures has { IfSome result
        (λ place. IsSomeAnd (slice_get children.now place)
        (λ child. IsTrue (has_number node number child))) }
    ensures before { IfSome result
        (λ place. count_by (has_number node number) (take place children.now) ≡ before) }
{
    let mut passed = 0;
    for (place, child) in children.iter().enumerate() {
        if has_number(node, number, *child) {
            if passed == before {
                return Some(place);
            }
            passed += 1;
        }
    }
    None
}

/// Which child a worker visits next, and the second best selecting number; none exactly where every
/// child is infinite here.
///
/// The selecting number of a child is its proof number at an attacker's node, its disproof number
/// at a defender's, and [`WEIGHT`] more for each worker below it; a child that is [`INFINITE`] here
/// has none. Of the k children with the least one, worker w, from 1, takes that at place (w - 1)
/// mod k, in order and from 0; so workers who see the same numbers part where several children have
/// the least. The second is the least selecting number of the other children, INFINITE where they
/// have none. Worker 0 counts as worker 1. (Nagai 2002; virtual numbers: Kaneko 2010.)
pub fn select(node: Node, children: &[Child], worker: u32) -> Option<(usize, u128)>
    ensures selected { MatchOption result ((place : ℕ) → number_at node children.now place
        ≡ None) (λ chosen. IsSelected node children.now worker chosen.0 chosen.1) }
    ensures place { IfSome result (λ chosen. chosen.0 < length children.now) }
    ensures finite { IfSome result
        (λ chosen. IsSomeAnd (slice_get children.now chosen.0)
        (λ child. minimized_number node child.numbers < INFINITE)) }
{
    let lead = leading(node, children)?;
    let second = lead.second.unwrap_or(u128::from(INFINITE));
    // Worker 1 takes the first, and so does everybody where no other is as small.
    if worker <= 1 || lead.least < second {
        return Some((lead.place, second));
    }
    let many = count_with(node, lead.least, children);
    let turn = (worker - 1) as usize % many;
    let place = place_with(node, lead.least, children, turn)?;
    Some((place, second))
}
