// What adding and subtracting do to how often a word was added.
ghost use Rattle.worker_counts.specs.Counts.{OneMoreCounts, OneLessCounts, LessIsShorter, JoinedCount, NoneIsEmpty};

/// Laws of what a seat has added: one more of a word counts for that word alone, and so does one
/// less, which leaves one word less; what is joined counts together; and where no word counts,
/// nothing was added. Does nothing; whoever keeps accounts of a seat calls it.
pub fn view_laws()
    ensures more { OneMoreCounts }
    ensures less { OneLessCounts }
    ensures shorter { LessIsShorter }
    ensures joined { JoinedCount }
    ensures empty { NoneIsEmpty }
{}
