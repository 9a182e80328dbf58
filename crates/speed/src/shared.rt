// What the threads of a search share: counts of workers, and the visits of a desk.
ghost use Rattle.std.specs.Prelude.{◌≡◌, ◌<◌, ◌+◌, length};

use crate::pace::{Done, print_done};
use crate::searches::settings;
use crate::words::Asked;
use notes::Draw;
use shogi_rules::Problem;
use std::io;
use std::thread::{Threads, join};
use std::time::Instant;
use word_desk::{DeskSeat, WordDesk};
use worker_counts::{CountSeat, WorkerCounts};

// The words of a row.
const WORDS: usize = 8;

// Adds to a word, reads it and takes that away again: three steps, and the sum of what they told.
fn visit(counts: &WorkerCounts, seat: &mut CountSeat, word: usize) -> u64
    requires counts { seat.old.counts ≡ counts.now }
    requires word { word < counts.now.words }
    requires room { length seat.old.view.added < 100 }
    ensures counts { seat.new.counts ≡ counts.now }
    ensures added { seat.new.view.added ≡ seat.old.view.added }
{
    let before = counts.add(seat, word);
    let during = counts.load(seat, word);
    let after = counts.subtract(seat, word);
    before.wrapping_add(during).wrapping_add(after)
}

// So many visits of one word by a thread.
fn visits(counts: &WorkerCounts, mut seat: CountSeat, word: usize, rounds: u64) -> Done
    requires { (seat.counts ≡ counts.now) × (word < counts.now.words)
        × (length seat.view.added < 100) }
{
    let mut sum: u64 = 0;
    for _ in 0..rounds {
        sum = sum.wrapping_add(visit(counts, &mut seat, word));
    }
    Done {
        calls: rounds.saturating_mul(3),
        sum,
    }
}

// Draws until there is no visit left: how many visits that were, and their sum.
fn draws(desk: &WordDesk, mut seat: DeskSeat) -> Done
    requires desk { seat.desk ≡ desk.now }
    requires goes_on { seat.draw_ends ≡ 0 }
{
    let mut done = Done::nothing();
    for _ in 0..u64::MAX {
        let Draw::Go(visit) = desk.draw(&mut seat) else {
            return done;
        };
        done.add(visit);
    }
    done
}

// What two threads did.
fn both(low: Done, high: Done) -> Done {
    Done {
        calls: low.calls.wrapping_add(high.calls),
        sum: low.sum.wrapping_add(high.sum),
    }
}

// So many visits by each of two threads, each of a word of its own.
fn two_visit<R: Threads + Sync>(
    rt: &R,
    counts: &WorkerCounts,
    one: CountSeat,
    first: usize,
    two: CountSeat,
    second: usize,
    rounds: u64,
) -> Done
    requires one { (one.counts ≡ counts.now) × (first < counts.now.words)
        × (length one.view.added < 100) }
    requires two { (two.counts ≡ counts.now) × (second < counts.now.words)
        × (length two.view.added < 100) }
{
    let (low, high) = join(
        rt,
        || visits(counts, one, first, rounds),
        || visits(counts, two, second, rounds),
    );
    both(low, high)
}

// So many visits by each of four threads, of the first four words.
fn four_visit<R: Threads + Sync>(
    rt: &R,
    counts: &WorkerCounts,
    one: CountSeat,
    two: CountSeat,
    three: CountSeat,
    four: CountSeat,
    rounds: u64,
) -> Done
    requires one { (one.counts ≡ counts.now) × (0 < counts.now.words)
        × (length one.view.added < 100) }
    requires two { (two.counts ≡ counts.now) × (1 < counts.now.words)
        × (length two.view.added < 100) }
    requires three { (three.counts ≡ counts.now) × (2 < counts.now.words)
        × (length three.view.added < 100) }
    requires four { (four.counts ≡ counts.now) × (3 < counts.now.words)
        × (length four.view.added < 100) }
{
    let (low, high) = join(
        rt,
        ||
            requires one { (one.counts ≡ counts.now) × (0 < counts.now.words)
                × (length one.view.added < 100) }
            requires two { (two.counts ≡ counts.now) × (1 < counts.now.words)
                × (length two.view.added < 100) }
        { two_visit(rt, counts, one, 0, two, 1, rounds) },
        ||
            requires three { (three.counts ≡ counts.now) × (2 < counts.now.words)
                × (length three.view.added < 100) }
            requires four { (four.counts ≡ counts.now) × (3 < counts.now.words)
                × (length four.view.added < 100) }
        { two_visit(rt, counts, three, 2, four, 3, rounds) },
    );
    both(low, high)
}

// Draws by two threads until there is no visit left.
fn two_draw<R: Threads + Sync>(rt: &R, desk: &WordDesk, one: DeskSeat, two: DeskSeat) -> Done
    requires one { (one.desk ≡ desk.now) × (one.draw_ends ≡ 0) }
    requires two { (two.desk ≡ desk.now) × (two.draw_ends ≡ 0) }
{
    let (low, high) = join(rt, || draws(desk, one), || draws(desk, two));
    both(low, high)
}

// Draws by four threads until there is no visit left.
fn four_draw<R: Threads + Sync>(
    rt: &R,
    desk: &WordDesk,
    one: DeskSeat,
    two: DeskSeat,
    three: DeskSeat,
    four: DeskSeat,
) -> Done
    requires one { (one.desk ≡ desk.now) × (one.draw_ends ≡ 0) }
    requires two { (two.desk ≡ desk.now) × (two.draw_ends ≡ 0) }
    requires three { (three.desk ≡ desk.now) × (three.draw_ends ≡ 0) }
    requires four { (four.desk ≡ desk.now) × (four.draw_ends ≡ 0) }
{
    let (low, high) = join(
        rt,
        ||
            requires one { (one.desk ≡ desk.now) × (one.draw_ends ≡ 0) }
            requires two { (two.desk ≡ desk.now) × (two.draw_ends ≡ 0) }
        { two_draw(rt, desk, one, two) },
        ||
            requires three { (three.desk ≡ desk.now) × (three.draw_ends ≡ 0) }
            requires four { (four.desk ≡ desk.now) × (four.draw_ends ≡ 0) }
        { two_draw(rt, desk, three, four) },
    );
    both(low, high)
}

/// Adds to a word, reads it and takes that away again, so many times: on one thread, then on two
/// and on four at once, each with a word of its own in one row. The calls are the steps; the sum is
/// that of the counts that were told.
pub fn words<R: Threads + Sync>(rt: &HostRuntime, threads: &R, asked: &Asked) -> io::Result<()> {
    let (counts, mut first) = WorkerCounts::make(rt.alloc(), WORDS)?;
    let alone = counts.make_seat(&mut first);
    let begun = Instant::now(rt)?;
    let done = visits(&counts, alone, 0, asked.rounds);
    print_done(rt, asked, "steps on words, one thread", begun, done)?;
    let one = counts.make_seat(&mut first);
    let two = counts.make_seat(&mut first);
    let begun = Instant::now(rt)?;
    let done = two_visit(threads, &counts, one, 0, two, 1, asked.rounds);
    print_done(rt, asked, "two threads", begun, done)?;
    let one = counts.make_seat(&mut first);
    let two = counts.make_seat(&mut first);
    let three = counts.make_seat(&mut first);
    let four = counts.make_seat(&mut first);
    let begun = Instant::now(rt)?;
    let done = four_visit(threads, &counts, one, two, three, four, asked.rounds);
    print_done(rt, asked, "four threads", begun, done)
}

/// Draws so many visits, at most a billion, of a desk: by one thread, then by two and by four at
/// once. The calls are the visits; the sum is theirs, so that one which was handed out twice would
/// show.
pub fn desk<R: Threads + Sync>(
    rt: &HostRuntime,
    threads: &R,
    asked: &Asked,
    problem: &Problem,
) -> io::Result<()> {
    let settings = settings(1, asked.rounds)?;
    let (desk, alone) = WordDesk::make(rt.alloc(), problem, &settings)?;
    let begun = Instant::now(rt)?;
    let done = draws(&desk, alone);
    print_done(rt, asked, "visits, one thread", begun, done)?;
    let (desk, mut one) = WordDesk::make(rt.alloc(), problem, &settings)?;
    let two = desk.make_seat(&mut one);
    let begun = Instant::now(rt)?;
    let done = two_draw(threads, &desk, one, two);
    print_done(rt, asked, "two threads", begun, done)?;
    let (desk, mut one) = WordDesk::make(rt.alloc(), problem, &settings)?;
    let two = desk.make_seat(&mut one);
    let three = desk.make_seat(&mut one);
    let four = desk.make_seat(&mut one);
    let begun = Instant::now(rt)?;
    let done = four_draw(threads, &desk, one, two, three, four);
    print_done(rt, asked, "four threads", begun, done)
}
