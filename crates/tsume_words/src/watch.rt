// How a search is watched.
ghost use Rattle.std.specs.Option.{ForSome};
ghost use Rattle.search_limits.specs.Sizes.{IsFromTo};
ghost use Rattle.tsume_words.specs.declared.watch.TheConstants.{MOST_DEADLINE};

/// The most milliseconds that a search may be given: a day.
pub const MOST_DEADLINE: u64 = 86_400_000;

/// How a search is watched while it runs.
#[derive(Clone, Copy, Debug, PartialEq, Eq)]
pub struct Watch {
    /// After how many milliseconds it gives up, 1 to [`MOST_DEADLINE`], counted from when its
    /// problem was accepted; none where it may take as long as it needs.
    pub deadline: Option<u64>,
    /// Whether the user is told how far it has come.
    pub progress: bool,
    pub ghost within: { ForSome deadline (IsFromTo 1 MOST_DEADLINE) },
}
