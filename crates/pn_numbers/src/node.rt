// Whose move it is at a node.
ghost use Rattle.std.specs.Prelude.{◌≡◌};
ghost use Rattle.pn_numbers.specs.Node.{minimized_number, summed_number, numbers_with};

use crate::Numbers;

/// Whose move it is at a node of the search: the attacker's, whom one good move serves (an "or"
/// node), or the defender's, all of whose moves have to fail (an "and" node).
#[derive(Clone, Copy, PartialEq, Eq, Debug)]
pub enum Node {
    /// The attacker moves.
    Attacker,
    /// The defender moves.
    Defender,
}

impl Node {
    // The number of which this node takes the least of its children's: the proof number where the
    // attacker moves, the disproof number where the defender does.
    pub(crate) fn minimized(self, numbers: Numbers) -> u32
        ensures { result ≡ minimized_number self numbers }
    {
        match self {
            Node::Attacker => numbers.pn,
            Node::Defender => numbers.dn,
        }
    }

    // The number of which this node takes the sum of its children's.
    pub(crate) fn summed(self, numbers: Numbers) -> u32
        ensures { result ≡ summed_number self numbers }
    {
        match self {
            Node::Attacker => numbers.dn,
            Node::Defender => numbers.pn,
        }
    }

    // The numbers of which these are the minimized and the summed one here.
    pub(crate) fn numbers(self, minimized: u32, summed: u32) -> Numbers
        ensures { result ≡ numbers_with self minimized summed }
    {
        match self {
            Node::Attacker => Numbers {
                pn: minimized,
                dn: summed,
            },
            Node::Defender => Numbers {
                pn: summed,
                dn: minimized,
            },
        }
    }
}
