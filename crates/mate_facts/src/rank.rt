// The rank of a mate's entry.
ghost use Rattle.std.specs.Prelude.{◌≡◌, ◌≤◌, ◌↔◌, IfSome, IsSome};
ghost use Rattle.mate_facts.specs.declared.rank.TheConstants.{MOST_RANK};

/// The greatest rank that an entry of a mate may have.
pub const MOST_RANK: u32 = 999_999_999;

/// A rank as an entry states it, 1 to [`MOST_RANK`]. Where the entry is borne out, the mate takes
/// at most so many of the attacker's moves.
#[derive(Clone, Copy, PartialEq, Eq, PartialOrd, Ord, Debug)]
pub struct Rank {
    /// From 1 to [`MOST_RANK`].
    pub number: u32,
    pub ghost some: { 1 ≤ number },
    pub ghost within: { number ≤ MOST_RANK },
}

impl Rank {
    /// The rank with this number; none outside 1 to [`MOST_RANK`].
    pub fn of(number: u32) -> Option<Rank>
        ensures found { IsSome result ↔ ((1 ≤ number) × (number ≤ MOST_RANK)) }
        ensures number { IfSome result (λ rank. rank.number ≡ number) }
    {
        if number < 1 || number > MOST_RANK {
            return None;
        }
        Some(Rank { number })
    }
}
