// What leaves are listed among.
ghost use Rattle.std.specs.Prelude.{◌≡◌};
ghost use Rattle.notes.specs.Set.{entries_of, positions_of};

use board_core::Position;
use mate_facts::MateEntry;

// The entries of a mate, or the positions of an escape; the leaves that stand among them share it.
#[derive(Drop)]
pub(crate) enum Set {
    Mate(Vec<MateEntry>),
    Escape(Vec<Position>),
}

impl Set {
    // The entries of a mate.
    pub(crate) fn entries(&self) -> &[MateEntry]
        ensures { result.now ≡ entries_of self.now }
    {
        match self {
            Set::Mate(entries) => entries,
            Set::Escape(_) => &[],
        }
    }

    // The positions of an escape.
    pub(crate) fn positions(&self) -> &[Position]
        ensures { result.now ≡ positions_of self.now }
    {
        match self {
            Set::Mate(_) => &[],
            Set::Escape(positions) => positions,
        }
    }
}
