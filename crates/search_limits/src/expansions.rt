// How many visits a search may do.
ghost use Rattle.std.specs.Prelude.{◌≡◌, ◌≤◌, ◌↔◌, IfSome, IsSome};
ghost use Rattle.search_limits.specs.declared.expansions.TheConstants.{MOST_EXPANSIONS};

/// The greatest number of expansions that a search may be given.
pub const MOST_EXPANSIONS: u64 = 1_000_000_000;

/// How many expansions a search may use, 1 to [`MOST_EXPANSIONS`]: its visits. The plain
/// search uses one for each position, of either side, whose moves it lists; the search by proof
/// numbers one for each visit of a position.
#[derive(Clone, Copy, PartialEq, Eq, PartialOrd, Ord, Debug)]
pub struct Expansions {
    /// From 1 to [`MOST_EXPANSIONS`].
    pub count: u64,
    pub ghost some: { 1 ≤ count },
    pub ghost within: { count ≤ MOST_EXPANSIONS },
}

impl Expansions {
    /// So many expansions; none outside 1 to [`MOST_EXPANSIONS`].
    pub fn of(count: u64) -> Option<Expansions>
        ensures found { IsSome result ↔ ((1 ≤ count) × (count ≤ MOST_EXPANSIONS)) }
        ensures count { IfSome result (λ expansions. expansions.count ≡ count) }
    {
        if count < 1 || count > MOST_EXPANSIONS {
            return None;
        }
        Some(Expansions { count })
    }
}
