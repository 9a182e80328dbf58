// The stretches of a hearing, as jobs that are done side by side until one has an objection.
ghost use Rattle.std.specs.Prelude.{◌≡◌, ◌<◌, ◌≤◌, ◌*◌, length};
ghost use Rattle.cert_text.specs.Kinds.{positions_in};
ghost use Rattle.wide_check.specs.Stretches.{stretch_end};

use cert_check::{Hearing, Objection};
use side_by_side::{Jobs, Until};
use std::alloc::{AllocError, Global};
use std::sync::atomic::{AtomicBool, Ordering};

/// Whether a stretch had an objection: no further one need be heard then.
#[derive(Drop)]
pub(crate) struct Objected {
    is_so: AtomicBool,
}

impl Objected {
    /// None had one yet.
    pub(crate) fn new() -> Objected {
        Objected {
            is_so: AtomicBool::new(false),
        }
    }

    // One had one.
    fn tell(&self) {
        self.is_so.store(true, Ordering::SeqCst);
    }
}

impl Until for Objected {
    fn is_over(&self) -> bool {
        self.is_so.load(Ordering::SeqCst)
    }
}

/// The stretches of the entries from one on and before another: so many each, but for the last,
/// which ends where these do.
#[derive(Clone, Copy)]
pub(crate) struct Stretches<'h, 'c> {
    pub(crate) hearing: &'h Hearing<'c>,
    /// Told where a stretch has an objection.
    pub(crate) objected: &'h Objected,
    /// The first entry, and the first behind them.
    pub(crate) from: usize,
    pub(crate) to: usize,
    pub(crate) size: usize,
    pub(crate) ghost some: { 1 ≤ size },
    pub(crate) ghost forth: { from ≤ to },
    pub(crate) ghost within: { to ≤ length (positions_in hearing.now.certificate) },
}

/// Where so many entries end that begin at one of them.
pub(crate) fn stretch_end(from: usize, size: usize, count: usize) -> usize
    requires { from ≤ count }
    ensures end { result ≡ stretch_end from size count }
    ensures within { result ≤ count }
{
    from + size.min(count - from)
}

// Each stretch is heard by itself.
impl<'h, 'c> Jobs for Stretches<'h, 'c> {
    ghost use Rattle.std.specs.Prelude.{◌-◌, ⊤};
    ghost use Rattle.std.specs.Int.{div_ceil};
    ghost use Rattle.wide_check.specs.Stretches.{IsFoundInStretch};

    type Tools = ();

    type Answer = Option<Objection>;

    ghost is_ready = { λ jobs. ⊤ };

    ghost size = { λ stretches. div_ceil (stretches.to - stretches.from) stretches.size };

    ghost is_answer = { λ stretches number found.
        IsFoundInStretch stretches.hearing.now stretches.from stretches.to stretches.size number
        found };

    fn count(&self) -> usize {
        (self.to - self.from).div_ceil(self.size)
    }

    fn tools(&self) {}

    fn answer(
        &self,
        alloc: Global,
        tools: &mut (),
        number: usize,
    ) -> Result<Option<Objection>, AllocError> {
        let from = self.from + number * self.size;
        let to = stretch_end(from, self.size, self.to);
        let found = self.hearing.objection_in(alloc, from, to)?;
        if found.is_some() {
            self.objected.tell();
        }
        Ok(found)
    }
}
