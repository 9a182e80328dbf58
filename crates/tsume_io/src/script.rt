// How the calls of a source or a sink in memory go.
ghost use Rattle.std.specs.Prelude.{◌≡◌, ◌-◌, ◌^◌, ◌↔◌, ◌≤◌, ◌⊎◌, IsTrue, IsErr, OnOk, OnErr};
ghost use Rattle.tsume_io.specs.Faults.{Rose};

use crate::Failed;
use crate::fault::raised;

// The calls go piece by piece, and those that are listed fail.
#[derive(Drop)]
pub struct Script {
    // At most so many bytes a call.
    pub piece: usize,
    // The numbers of the calls that fail, from 1 on.
    pub failing: Vec<u64>,
    // How many calls were made, and how many of them failed, each up to `u64::MAX`.
    pub calls: u64,
    pub faults: u64,
    ghost some: { 1 ≤ piece },
    ghost of_64_bits: { faults ≤ 2 ^ 64 - 1 },
}

impl Script {
    ghost use Rattle.tsume_io.specs.Memory.{Passes, Fails, IsFailingNext, IsFresh};

    pub fn new(piece: usize, failing: Vec<u64>) -> Script
        requires { 1 ≤ piece }
        ensures { IsFresh result piece failing.items }
    {
        Script {
            piece,
            failing,
            calls: 0,
            faults: 0,
        }
    }

    // Counts the next call, and fails where it is listed, or where `refuses` says so.
    pub fn call(&mut self, refuses: bool) -> Result<(), Failed>
        ensures fails { IsErr result ↔ (IsFailingNext self.old ⊎ IsTrue refuses) }
        ensures ok { OnOk result (Passes self.old self.new) }
        ensures err { OnErr result (Fails self.old self.new) }
        ensures rose { OnErr result (Rose self.old.faults self.new.faults) }
        ensures never_falls { self.old.faults ≤ self.new.faults }
    {
        self.calls = raised(self.calls);
        if refuses || self.failing.contains(&self.calls) {
            self.faults = raised(self.faults);
            return Err(Failed);
        }
        Ok(())
    }
}
