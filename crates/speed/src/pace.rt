// How what was measured is told.
use crate::words::Asked;
use std::io;
use std::time::Instant;

/// What was done: how many calls were measured, and a check sum that depends on what each of them
/// answered.
#[derive(Clone, Copy)]
pub struct Done {
    pub calls: u64,
    pub sum: u64,
}

impl Done {
    pub fn nothing() -> Done {
        Done { calls: 0, sum: 0 }
    }

    /// One call more, which answered this.
    pub fn add(&mut self, answer: u64) {
        self.calls = self.calls.wrapping_add(1);
        self.sum = self.sum.wrapping_add(answer);
    }
}

/// Prints a line about what was done since then: how many calls, the check sum and, where that is
/// asked for, the time of a call in nanoseconds and the calls a second, where any call and any time
/// was measured.
pub fn print_done(
    rt: &HostRuntime,
    asked: &Asked,
    title: &str,
    begun: Instant,
    done: Done,
) -> io::Result<()> {
    let took = begun.elapsed(rt)?.as_nanos();
    let calls = u128::from(done.calls);
    let tenths = took.saturating_mul(10).checked_div(calls);
    let pace = calls.saturating_mul(1_000_000_000).checked_div(took);
    print!(rt; "{title}: {calls}, check sum {}", done.sum)?;
    if let (true, Some(tenths), Some(pace)) = (asked.is_timed, tenths, pace) {
        let (whole, tenth) = (tenths / 10, tenths % 10);
        print!(rt; "; {whole}.{tenth} ns each, {pace} a second")?;
    }
    println!(rt; "")
}
