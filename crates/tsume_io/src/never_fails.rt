// A source whose calls don't fail.
ghost use Rattle.std.proofs.Common.{rules};
ghost use Rattle.std.specs.Prelude.{◌≡◌, ◌≤◌, Some, vec_len};

use crate::copy::copy_front;
use crate::{Failed, Source};

/// A source of these bytes that never fails: its count of faults is the constant 0, so `read_all`
/// of it can't end in a fault. It gives as many bytes a call as it has left and there is place for.
#[derive(Drop)]
pub struct NeverFails {
    bytes: Vec<u8>,
    at: usize,
    ghost in_bytes: { at ≤ vec_len bytes },
}

impl NeverFails {
    ghost use Rattle.tsume_io.specs.Memory.{bytes_ahead};

    /// A source of these bytes.
    pub fn new(bytes: Vec<u8>) -> NeverFails
        ensures { bytes_ahead result ≡ bytes.items }
    {
        NeverFails { bytes, at: 0 }
    }

    /// The bytes that it still has to give.
    pub fn left(&self) -> &[u8]
        ensures { result.now ≡ bytes_ahead self.now }
    {
        &self.bytes[self.at..]
    }
}

impl Source for NeverFails {
    ghost use Rattle.tsume_io.specs.Memory.{bytes_ahead};

    ghost left = { λ s. Some (bytes_ahead s) };

    ghost faults = { λ _. 0 };

    ghost of_64_bits = { λ _. Prim.search rules };

    fn read(&mut self, into: &mut [u8]) -> Result<usize, Failed> {
        let count = copy_front(self.left(), into);
        self.at += count;
        Ok(count)
    }
}
