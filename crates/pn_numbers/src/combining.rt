// The numbers of a node from those of its children.
ghost use Rattle.std.specs.Prelude.{◌≡◌, ◌<◌, ◌≤◌, All};
ghost use Rattle.pn_numbers.specs.declared.node.Node.TheVariants.{Attacker, Defender};
ghost use Rattle.pn_numbers.specs.Numbers.{IsNumbers};
ghost use Rattle.pn_numbers.specs.Combined.{numbers_at};

use crate::{CAP, INFINITE, Node, Numbers};

// The numbers of a node with these children.
fn combined(node: Node, children: &[Numbers]) -> Numbers
    ensures { result ≡ numbers_at node children.now }
{
    let mut least = INFINITE;
    let mut sum = 0;
    for child in children {
        least = least.min(node.minimized(*child));
        sum = node.summed(*child).saturating_add(sum).min(CAP);
    }
    if least == 0 {
        return node.numbers(0, INFINITE);
    }
    if sum == 0 {
        return node.numbers(INFINITE, 0);
    }
    node.numbers(least, sum)
}

/// The numbers of an attacker's node with these children: proved where a child is proved; else
/// disproved where all are, also where there is none; else the least proof number, and the sum of
/// the disproof numbers, at most [`CAP`]. (Nagai 2002.)
///
/// A child counts as proved where its proof number is 0, and as disproved where its disproof number
/// is.
pub fn or_numbers(children: &[Numbers]) -> Numbers
    ensures numbers { result ≡ numbers_at Attacker children.now }
    ensures capped { 0 < result.pn → result.dn ≤ CAP }
    ensures again { All IsNumbers children.now → IsNumbers result }
{
    combined(Node::Attacker, children)
}

/// The numbers of a defender's node with these children: disproved where a child is disproved; else
/// proved where all are, also where there is none; else the least disproof number, and the sum of
/// the proof numbers, at most [`CAP`]. (Nagai 2002.)
///
/// A child counts as proved where its proof number is 0, and as disproved where its disproof number
/// is.
pub fn and_numbers(children: &[Numbers]) -> Numbers
    ensures numbers { result ≡ numbers_at Defender children.now }
    ensures capped { 0 < result.dn → result.pn ≤ CAP }
    ensures again { All IsNumbers children.now → IsNumbers result }
{
    combined(Node::Defender, children)
}
