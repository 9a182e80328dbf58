// Whose search it is.
use bit_boards::Side;

/// Names the attacker of a search by a type, so that what is locked can keep whose notes it has.
pub trait Job {
    ghost use Rattle.bit_boards.specs.declared.piece.Side.{Side};

    /// The attacker.
    ghost ATTACKER: { Side };

    /// The attacker.
    const ATTACKER: Side;
}

/// Black attacks.
#[derive(Clone, Copy, Debug)]
pub struct BlackJob;

impl Job for BlackJob {
    ghost use Rattle.bit_boards.specs.declared.piece.Side.TheVariants.{Black};

    ghost ATTACKER = { Black };

    const ATTACKER: Side = Side::Black;
}

/// White attacks.
#[derive(Clone, Copy, Debug)]
pub struct WhiteJob;

impl Job for WhiteJob {
    ghost use Rattle.bit_boards.specs.declared.piece.Side.TheVariants.{White};

    ghost ATTACKER = { White };

    const ATTACKER: Side = Side::White;
}
