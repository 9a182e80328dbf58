// How far a search has come, for a user who waits. No clause depends on it.
ghost use Rattle.std.specs.Prelude.{◌≡◌};

use crate::pipe::Pipe;
use app_texts::Solution;
use cmd_collection::{Onlooker, Report};
use cmd_cook::CheckOnlooker;
use cmd_shortest::LengthOnlooker;
use search_gate::Gate;
use std::sync::atomic::{AtomicBool, AtomicU64, Ordering};
use std::time::Clock;
use std::{fmt, io};

// At least so many milliseconds lie between two lines of how far a search has come.
const PAUSE: u64 = 250;

// The same of a collection.
const LONG_PAUSE: u64 = 1_000;

/// A number with a comma before each three digits, below a million millions.
#[derive(Clone, Copy, Debug)]
pub(crate) struct Grouped(pub(crate) u64);

impl fmt::Display for Grouped {
    fn fmt<W: fmt::Write>(&self, f: &mut fmt::Formatter<W>) -> fmt::Result {
        let number = self.0;
        if number < 1_000 {
            return write!(f, "{number}");
        }
        if number < 1_000_000 {
            return write!(f, "{},{:03}", number / 1_000, number % 1_000);
        }
        if number < 1_000_000_000 {
            return write!(
                f,
                "{},{:03},{:03}",
                number / 1_000_000,
                number / 1_000 % 1_000,
                number % 1_000
            );
        }
        write!(
            f,
            "{},{:03},{:03},{:03}",
            number / 1_000_000_000,
            number / 1_000_000 % 1_000,
            number / 1_000 % 1_000,
            number % 1_000
        )
    }
}

/// A gate that tells the user for how long a search has run, how many visits all its workers made,
/// and how many a second, a few times a second and each time over the line before; where it isn't
/// asked to, it is an open gate. Of a shortest mate it tells which length is asked about, of a cook
/// report which check is searched. Of a collection, on which it looks, it tells how many lines are
/// decided, about once a second. It remembers too where the reader of a pipe went away.
#[derive(Drop)]
pub(crate) struct Progress<'a, R> {
    system: &'a R,
    limit: Option<u64>,
    used: AtomicU64,
    // The millisecond of the first visit, plus one; 0 before it.
    begun: AtomicU64,
    due: AtomicU64,
    // How many milliseconds had passed at the last visit.
    passed: AtomicU64,
    is_shown: AtomicBool,
    is_closed: AtomicBool,
    lines: Lines,
    checks: Checks,
}

// Which check of a report is searched, of how many; 0 of 0 before the first, and of no report.
#[derive(Drop)]
struct Checks {
    number: AtomicU64,
    all: AtomicU64,
}

// How many lines a collection has that hold a problem, and how many of them are decided, and how.
#[derive(Drop)]
struct Lines {
    all: AtomicU64,
    mates: AtomicU64,
    no_mates: AtomicU64,
    unknowns: AtomicU64,
    faults: AtomicU64,
}

impl Lines {
    fn new() -> Lines {
        Lines {
            all: AtomicU64::new(0),
            mates: AtomicU64::new(0),
            no_mates: AtomicU64::new(0),
            unknowns: AtomicU64::new(0),
            faults: AtomicU64::new(0),
        }
    }

    // Counts one more that was decided.
    fn count(&self, report: &Report) {
        let counted = match report {
            Report::Solved(Solution::Mate(_, _)) => &self.mates,
            Report::Solved(Solution::NoMate(_)) => &self.no_mates,
            Report::Solved(Solution::Unknown(_, _)) => &self.unknowns,
            Report::Fault(_) => &self.faults,
        };
        counted.fetch_add(1, Ordering::SeqCst);
    }
}

// How many visits were made a second, of so many in so many milliseconds.
fn pace(used: u64, passed: u64) -> u64 {
    if passed < 1_000 {
        return used;
    }
    used.saturating_mul(1_000) / passed
}

impl<'a, R: io::Eprint + Clock> Progress<'a, R> {
    /// With the limit of what is told, if anything is.
    pub(crate) fn new(system: &'a R, limit: Option<u64>) -> Progress<'a, R> {
        Progress {
            system,
            limit,
            used: AtomicU64::new(0),
            begun: AtomicU64::new(0),
            due: AtomicU64::new(0),
            passed: AtomicU64::new(0),
            is_shown: AtomicBool::new(false),
            is_closed: AtomicBool::new(false),
            lines: Lines::new(),
            checks: Checks {
                number: AtomicU64::new(0),
                all: AtomicU64::new(0),
            },
        }
    }

    // The system's time in milliseconds, where it is told.
    fn time(&self) -> Option<u64> {
        match self.system.monotonic() {
            Ok(time) => Some(u64::try_from(time.as_millis()).unwrap_or(u64::MAX)),
            Err(_) => None,
        }
    }

    // How many milliseconds have passed since the first visit.
    fn passed_till(&self, now: u64) -> u64 {
        let now = now.saturating_add(1);
        let begun = self.begun.load(Ordering::SeqCst);
        if begun > 0 {
            return now.saturating_sub(begun);
        }
        match self
            .begun
            .compare_exchange(0, now, Ordering::SeqCst, Ordering::SeqCst)
        {
            Ok(_) => 0,
            Err(begun) => now.saturating_sub(begun),
        }
    }

    // Whether it is time for a line; then the next one waits so long.
    fn is_due(&self, now: u64, pause: u64) -> bool {
        let due = self.due.load(Ordering::SeqCst);
        now >= due
            && self
                .due
                .compare_exchange(
                    due,
                    now.saturating_add(pause),
                    Ordering::SeqCst,
                    Ordering::SeqCst,
                )
                .is_ok()
    }

    // Tells, over the line before, how far the search has come. Of as many visits as there can be,
    // in a day, the line takes 46 columns, as wide as what clears it.
    fn tell(&self, used: u64, passed: u64) {
        self.is_shown.store(true, Ordering::SeqCst);
        eprint!(self.system;
            "\r                                              \r{} s, {} visits, {}/s",
            passed / 1_000,
            Grouped(used),
            Grouped(pace(used, passed))
        )
        .ok();
    }

    // Tells, over the line before, how far the searches of a report have come. Of as many visits as
    // there can be, in a day, the line takes 46 columns.
    fn tell_check(&self, used: u64, passed: u64, all: u64) {
        self.is_shown.store(true, Ordering::SeqCst);
        eprint!(self.system;
            "\r                                              \r{} s, {} visits, check {}/{all}",
            passed / 1_000,
            Grouped(used),
            self.checks.number.load(Ordering::SeqCst)
        )
        .ok();
    }

    // Tells, over the line before, how far the search for a shortest mate has come. Of as many
    // visits as there can be, in a day, the line takes 42 columns.
    fn tell_length(&self, moves: u32, made: u64, passed: u64) {
        self.is_shown.store(true, Ordering::SeqCst);
        eprint!(self.system;
            "\r                                              \r{} s, {} visits, {moves} moves?",
            passed / 1_000,
            Grouped(made)
        )
        .ok();
    }

    // Tells, over the line before, how many lines of a collection are decided, and how, as far as
    // 40 columns allow.
    fn tell_lines(&self, passed: u64) {
        self.is_shown.store(true, Ordering::SeqCst);
        let all = self.lines.all.load(Ordering::SeqCst);
        let mates = self.lines.mates.load(Ordering::SeqCst);
        let no_mates = self.lines.no_mates.load(Ordering::SeqCst);
        let unknowns = self.lines.unknowns.load(Ordering::SeqCst);
        let faults = self.lines.faults.load(Ordering::SeqCst);
        let done = mates
            .saturating_add(no_mates)
            .saturating_add(unknowns)
            .saturating_add(faults);
        let seconds = passed / 1_000;
        eprint!(self.system; "\r                                       \r{done}/{all}").ok();
        if all < 1_000 || all < 10_000 && seconds < 100 {
            eprint!(self.system; " m{mates} n{no_mates} u{unknowns} f{faults}, {seconds} s").ok();
        } else if all < 1_000_000 {
            eprint!(self.system; " u{unknowns} f{faults}, {seconds} s").ok();
        } else {
            eprint!(self.system; ", {seconds} s").ok();
        }
    }

    /// Clears the line, where one is shown.
    pub(crate) fn clear(&self) {
        if !self.is_shown.swap(false, Ordering::SeqCst) {
            return;
        }
        if self.lines.all.load(Ordering::SeqCst) > 0 {
            eprint!(self.system; "\r                                       \r").ok();
        } else {
            eprint!(self.system; "\r                                              \r").ok();
        }
    }

    /// Remembers why a write failed, where that is a closed pipe.
    pub(crate) fn remember(&self, reason: &io::Error) {
        if reason.kind() == io::ErrorKind::BrokenPipe {
            self.is_closed.store(true, Ordering::SeqCst);
        }
    }

    // Tells how many visits were used, in how long, and what else there is to say.
    fn tell_end(&self, used: u64, more: &str) {
        let passed = self.passed.load(Ordering::SeqCst);
        eprintln!(self.system;
            "tsume: {} visits used in {}.{} s{}",
            Grouped(used),
            passed / 1_000,
            passed % 1_000 / 100,
            more
        )
        .ok();
    }

    /// Tells how many visits a verdict took.
    pub(crate) fn tell_used(&self) {
        let used = self.used.load(Ordering::SeqCst);
        if self.limit.is_some() && used > 0 {
            self.tell_end(used, "");
        }
    }

    /// Tells how many visits were made where the search gave up, and whether these were all.
    pub(crate) fn tell_given_up(&self) {
        let Some(limit) = self.limit else {
            return;
        };
        let used = self.used.load(Ordering::SeqCst);
        if used >= limit && self.checks.all.load(Ordering::SeqCst) == 0 {
            self.tell_end(used, ": all that --expansions gives");
        } else {
            self.tell_end(used, ": the answer says why");
        }
    }
}

impl<'a, R: io::Eprint + Clock> Pipe for Progress<'a, R> {
    fn is_closed(&self) -> bool {
        self.is_closed.load(Ordering::SeqCst)
    }
}

impl<'a, R: io::Eprint + Clock + Sync> Gate for Progress<'a, R> {
    fn pass(&self, _worker: u32, _expansion: u64) {
        if self.limit.is_none() {
            return;
        }
        let used = self.used.fetch_add(1, Ordering::SeqCst).saturating_add(1);
        let Some(now) = self.time() else {
            return;
        };
        let passed = self.passed_till(now);
        // Written once a millisecond at most, since all workers share it.
        if passed > self.passed.load(Ordering::SeqCst) {
            self.passed.store(passed, Ordering::SeqCst);
        }
        if self.is_due(now, PAUSE) {
            match self.checks.all.load(Ordering::SeqCst) {
                0 => self.tell(used, passed),
                all => self.tell_check(used, passed, all),
            }
        }
    }
}

impl<'a, R: io::Eprint + Clock + Sync> CheckOnlooker for Progress<'a, R> {
    fn begins(&self, number: usize, all: usize) {
        self.checks.number.store(number as u64, Ordering::SeqCst);
        self.checks.all.store(all as u64, Ordering::SeqCst);
    }
}

impl<'a, R: io::Eprint + Clock + Sync> LengthOnlooker for Progress<'a, R> {
    fn asks(&self, moves: u32, made: u64) {
        if self.limit.is_none() {
            return;
        }
        self.used.store(made, Ordering::SeqCst);
        let Some(now) = self.time() else {
            return;
        };
        let passed = self.passed_till(now);
        self.passed.store(passed, Ordering::SeqCst);
        if self.is_due(now, PAUSE) || passed >= 1_000 {
            self.tell_length(moves, made, passed);
        }
    }

    fn ends(&self, made: u64) {
        if self.limit.is_none() {
            return;
        }
        self.used.store(made, Ordering::SeqCst);
        if let Some(now) = self.time() {
            self.passed.store(self.passed_till(now), Ordering::SeqCst);
        }
    }
}

impl<'a, R: io::Eprint + Clock + Sync> Onlooker for Progress<'a, R> {
    fn now(&self) -> u64 {
        self.time().unwrap_or(0)
    }

    fn begin(&self, lines: usize) {
        self.lines.all.store(lines as u64, Ordering::SeqCst);
    }

    fn begin_round(&self) {
        let Some(now) = self.time() else {
            return;
        };
        let passed = self.passed_till(now);
        if self.is_due(now, LONG_PAUSE) {
            self.tell_lines(passed);
        }
    }

    fn see(&self, report: &Report) {
        self.lines.count(report);
    }
}

/// A writer that clears the line of progress, where one is shown, before it writes, and has it
/// remembered where the reader of a pipe went away.
#[derive(Drop)]
pub(crate) struct Clearing<'a, R, W> {
    progress: &'a Progress<'a, R>,
    writer: W,
}

impl<'a, R: io::Eprint + Clock, W: io::Write + Drop> Clearing<'a, R, W> {
    /// Over this writer.
    pub(crate) fn new(progress: &'a Progress<'a, R>, writer: W) -> Clearing<'a, R, W>
        ensures { result.writer ≡ writer }
    {
        Clearing { progress, writer }
    }
}

impl<'a, R: io::Eprint + Clock, W: io::Write + Drop> io::Write for Clearing<'a, R, W> {
    // The writer's bytes.
    ghost contents = { λ clearing. W.contents clearing.writer };

    fn write(&mut self, buf: &[u8]) -> io::Result<usize> {
        self.progress.clear();
        let answer = self.writer.write(buf);
        if let Err(reason) = &answer {
            self.progress.remember(reason);
        }
        answer
    }

    fn flush(&mut self) -> io::Result<()> {
        self.writer.flush()
    }
}
