// Counts that two seats add to.
ghost use Rattle.std.specs.Prelude.{◌≡◌, ◌<◌, length};

use crate::same::same;
use std::test::Fail;
use worker_counts::{CountSeat, WorkerCounts};

// The counts of a word before it is added to, after that, and before that is taken away again.
fn visit(counts: &WorkerCounts, seat: &mut CountSeat, word: usize) -> (u64, u64, u64)
    requires counts { seat.old.counts ≡ counts.now }
    requires word { word < counts.now.words }
    requires room { length seat.old.view.added < 100 }
    ensures counts { seat.new.counts ≡ counts.now }
    ensures view { (seat.new.view.parts ≡ seat.old.view.parts)
        × (seat.new.view.added ≡ seat.old.view.added) }
{
    let before = counts.add(seat, word);
    let during = counts.load(seat, word);
    let after = counts.subtract(seat, word);
    (before, during, after)
}

#[test]
fn a_word_counts_the_seats_that_added_to_it(rt: HostRuntime) -> Result<(), Fail> {
    let (counts, mut first) = WorkerCounts::make(rt.alloc(), 16)?;
    let mut second = counts.make_seat(&mut first);
    same(&rt, "first", counts.add(&mut first, 9), 0);
    same(&rt, "second", visit(&counts, &mut second, 9), (1, 2, 2));
    same(&rt, "beside", visit(&counts, &mut second, 8), (0, 1, 1));
    counts.join_seat(&mut first, second);
    let closed = counts.close(first);
    for (word, wanted) in [(0, 0), (8, 0), (9, 1), (15, 0)] {
        same(&rt, word, closed.count(word), wanted);
    }
    Ok(())
}
