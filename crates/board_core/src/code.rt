// What a square holds, in a byte.
ghost use Rattle.std.specs.Prelude.{◌<◌};

/// What a square holds, by its code in a key: 0 for nothing, 1 to 14 for Black's pieces, 15 to 28
/// for White's.
#[derive(Clone, Copy, Debug)]
pub(crate) struct Code {
    /// From 0 to 28.
    pub number: u8,
    pub ghost known: { number < 29 },
}
