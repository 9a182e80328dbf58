// The bytes of an input.
use std::alloc::Global;
use std::marker::Model;

/// The bytes of an input, as far as a run kept them: all of them, or none. Contracts see the list.
#[derive(Drop)]
pub struct Input {
    bytes: Vec<u8>,
}

impl Model for Input {
    ghost use Rattle.std.specs.Prelude.{ℕ, List};

    ghost Value = { List ℕ };

    ghost view = { λ input. input.bytes.items };
}

impl Input {
    ghost use Rattle.std.specs.Prelude.{◌≡◌, []};

    /// The input of these bytes.
    pub fn new(bytes: Vec<u8>) -> Input
        ensures { result ≡ bytes.items }
    {
        Input { bytes }
    }

    /// No bytes. Takes no memory.
    pub fn none(alloc: Global) -> Input
        ensures { result ≡ [] }
    {
        Input {
            bytes: Vec::new(alloc),
        }
    }

    /// Its bytes, in order.
    pub fn bytes(&self) -> &[u8]
        ensures { result.now ≡ self.now }
    {
        &self.bytes
    }
}
