// The thresholds of a child's visit.
ghost use Rattle.std.specs.Prelude.{◌≡◌, ◌<◌, ◌≤◌};
ghost use Rattle.pn_numbers.specs.Thresholds.{minimized_threshold, summed_threshold, bounded, thresholds_of};

use crate::{INFINITE, Node, Numbers};

/// A child is visited until it is above the second best by more than the `SLACK`th part of it, an
/// eighth, and not only until it is above it: so a search doesn't go to and fro between children of
/// nearly the same numbers.
pub const SLACK: u32 = 8;

fn minimized_threshold(limit: u32, second: u128) -> u32
    ensures { result ≡ minimized_threshold limit second }
{
    if second >= u128::from(limit) {
        return limit;
    }
    let second = second as u64;
    (second + 1 + second / u64::from(SLACK)).min(u64::from(limit)) as u32
}

fn summed_threshold(limit: u32, own: u32, child: u32) -> u64
    ensures { result ≡ summed_threshold limit own child }
{
    if limit >= INFINITE {
        return u64::from(INFINITE);
    }
    (u64::from(limit) + u64::from(child)).saturating_sub(u64::from(own))
}

fn bounded(threshold: u64, child: u32) -> u32
    ensures { result ≡ bounded threshold child }
{
    threshold.max(u64::from(child) + 1).min(u64::from(INFINITE)) as u32
}

/// The thresholds with which a child is visited: from the thresholds `limits` of its node and the
/// node's `own` numbers, the child's numbers as they were seen last, and the second best selecting
/// number, as [`select`](crate::select) gives it.
///
/// At an attacker's node the child may come to the second best proof number and an eighth of it
/// more, but not past its node's threshold; and its disproof number may grow by what the node's
/// may, without limit where the node's threshold is [`INFINITE`]. At a defender's node it is the
/// other way round. Both are above the child's own numbers where these aren't infinite, so that it
/// is visited at all, and at most infinite. (Nagai 2002; the eighth: Pawlewicz and Lew 2006.)
pub fn child_thresholds(
    node: Node,
    limits: Numbers,
    own: Numbers,
    child: Numbers,
    second: u128,
) -> Numbers
    ensures thresholds { result ≡ thresholds_of node limits own child second }
    ensures above_pn { child.pn < INFINITE → child.pn < result.pn }
    ensures above_dn { child.dn < INFINITE → child.dn < result.dn }
    ensures within_pn { result.pn ≤ INFINITE }
    ensures within_dn { result.dn ≤ INFINITE }
{
    let (limit, rest) = (node.minimized(limits), node.summed(limits));
    let minimized = bounded(
        u64::from(minimized_threshold(limit, second)),
        node.minimized(child),
    );
    let left = summed_threshold(rest, node.summed(own), node.summed(child));
    node.numbers(minimized, bounded(left, node.summed(child)))
}
