// The rules by which notes are made.
ghost use Rattle.std.specs.Prelude.{◌≡◌};
ghost use Rattle.notes.specs.Derivation.{concluded};

use board_core::Move;
use hand_dominance::Version;

/// What a note says of its position.
#[derive(Clone, Copy, PartialEq, Eq, Debug)]
pub enum Conclusion {
    /// The attacker mates.
    Mate,
    /// The defender escapes, or gets to one of the positions of the note's tag.
    Escape,
}

/// The rule of a note's last step.
#[derive(Clone, Copy, PartialEq, Eq, Debug)]
pub enum Rule {
    /// The defender is in check and has no evasion.
    MateEnd,
    /// The defender has an evasion, and each leads to a mate; the notes under it are in the order
    /// of the evasions.
    MateAll,
    /// This check leads to a mate.
    MateBy(Move),
    /// The attacker has no check.
    EscapeEnd,
    /// This evasion leads to an escape.
    EscapeBy(Move),
    /// This evasion leads to a position that is taken to stand on the path; its key is the tag.
    EscapeRepeat(Move),
    /// The attacker has a check, and each leads to an escape; the notes under it are in the order
    /// of the checks.
    EscapeAll,
    /// The note under it concludes this of a position from which it carries over: a mate of one
    /// that this position dominates, an escape of one that dominates it. (Nagai 2002: pieces in
    /// hand that a proof or a disproof doesn't need.)
    Carry(Conclusion),
    /// A leaf: the position is listed with this rank among the entries of a mate, each of which is
    /// borne out by them all, in this version.
    MateLeaf(Version, u32),
    /// A leaf: the position is one of some of an escape, in this version, that are closed.
    EscapeLeaf(Version),
}

impl Rule {
    /// What the rule concludes. Takes no memory.
    pub fn conclusion(self) -> Conclusion
        ensures { result ≡ concluded self }
    {
        match self {
            Rule::MateEnd => Conclusion::Mate,
            Rule::MateAll => Conclusion::Mate,
            Rule::MateBy(_) => Conclusion::Mate,
            Rule::EscapeEnd => Conclusion::Escape,
            Rule::EscapeBy(_) => Conclusion::Escape,
            Rule::EscapeRepeat(_) => Conclusion::Escape,
            Rule::EscapeAll => Conclusion::Escape,
            Rule::Carry(conclusion) => conclusion,
            Rule::MateLeaf(_, _) => Conclusion::Mate,
            Rule::EscapeLeaf(_) => Conclusion::Escape,
        }
    }
}
