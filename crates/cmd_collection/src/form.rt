// How the problems of a collection are decided.
ghost use Rattle.std.specs.Option.{ForSome};
ghost use Rattle.search_limits.specs.Sizes.{IsFromTo};
ghost use Rattle.tsume_words.specs.declared.watch.TheConstants.{MOST_DEADLINE};
ghost use Rattle.cmd_collection.specs.declared.form.TheConstants.{MOST_FIRST, MOST_THREADS};

/// The most threads that may be asked for; more than processors, or than 32, never work.
pub const MOST_THREADS: u64 = 64;

/// The most that the number of a text's first line may be.
pub const MOST_FIRST: u64 = 1_000_000_000;

/// How the problems of a collection are decided, and what is told of them.
#[derive(Clone, Copy, Debug, PartialEq, Eq)]
pub struct CollectionForm {
    /// Whether the defender of each is given all pieces but kings that are neither on the board nor
    /// in a hand.
    pub rest: bool,
    /// Whether the certificate of a verdict is told behind its line.
    pub certificates: bool,
    /// The number of the text's first line, 1 to [`MOST_FIRST`]: more than 1 for a text that is a
    /// part of a longer one.
    pub first: u64,
    /// Whether each line that tells of a problem ends with the remark of its line in the text.
    pub remarks: bool,
    /// How many problems are decided side by side, 1 to [`MOST_THREADS`]; none where nothing is
    /// said.
    pub threads: Option<u32>,
    /// After how many milliseconds each search gives up, 1 to
    /// [`MOST_DEADLINE`](tsume_words::MOST_DEADLINE), counted from when it begins; none where each
    /// may take as long as it needs.
    pub deadline: Option<u64>,
    /// Whether the user is told how many lines are decided.
    pub progress: bool,
    pub ghost first_in_range: { IsFromTo 1 MOST_FIRST first },
    pub ghost threads_in_range: { ForSome threads (IsFromTo 1 MOST_THREADS) },
    pub ghost deadline_in_range: { ForSome deadline (IsFromTo 1 MOST_DEADLINE) },
}
