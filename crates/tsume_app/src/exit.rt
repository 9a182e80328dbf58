// How the process ends.
ghost use Rattle.std.specs.Prelude.{◌≡◌};
ghost use Rattle.std.specs.Process.{exit_status};

use std::io::Eprint;
use std::process::{ExitCode, Termination};

/// How the process ends: with the status of its run. Nothing but [`start`](crate::start) makes one,
/// so a `main` that returns it can't end otherwise.
#[derive(Drop)]
pub struct Exit {
    pub(crate) status: u8,
}

impl Termination for Exit {
    ghost use Rattle.tsume_app.specs.Exit.{status_at_exit};

    fn report<R: Eprint>(self, _: &R) -> ExitCode
        ensures { exit_status result ≡ status_at_exit self }
    {
        ExitCode::from(self.status)
    }
}
