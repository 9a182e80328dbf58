// What a bound lists.
ghost use Rattle.bound_text.specs.Bound.{bound_form};

use board_core::Position;
use cert_text::{CertificateOf, Entry, append_number, cut, position_of_text, rank_of_text};
use mate_facts::Rank;
use sfen_text::append_sfen;
use shogi_rules::Problem;
use std::alloc::AllocError;

/// What a bound says of a position, and what an accepted one bears out: within so many of the
/// attacker's moves it is no mate.
#[derive(Clone, Copy, Debug)]
pub struct BoundEntry {
    /// The number of moves, 1 to [`mate_facts::MOST_RANK`]: a mate from the position has a greater
    /// rank, if there is one.
    pub bound: Rank,
    /// The position, with the attacker to move.
    pub at: Position,
}

/// A bound: entries with a number and a position, in rising order of the bytes of the positions'
/// SFEN texts. Its problem says whose side is to move in each of them; which positions it bounds,
/// its entries say alone. One that has a text is of version 1 ([`hand_dominance::Version`]).
pub type Bound = CertificateOf<BoundEntry>;

impl Entry for BoundEntry {
    ghost form = { bound_form };

    fn position(&self) -> &Position {
        &self.at
    }

    fn append(&self, out: &mut Vec<u8>) -> Result<(), AllocError> {
        // What the position keeps, even where memory is wanted.
        self.at.laws();
        append_number(out, u64::from(self.bound.number))?;
        out.push(b' ')?;
        append_sfen(out, &self.at)?;
        out.push(b'\n')?;
        Ok(())
    }

    fn of_line<'a>(
        text: &'a [u8],
        problem: &Problem,
        spelled: &mut Vec<u8>,
    ) -> Result<Option<(BoundEntry, &'a [u8])>, AllocError> {
        let Some((bound, sfen)) = cut(text, b' ') else {
            return Ok(None);
        };
        let Some(bound) = rank_of_text(bound) else {
            return Ok(None);
        };
        let Some(at) = position_of_text(sfen, problem.attacker(), spelled)? else {
            return Ok(None);
        };
        Ok(Some((BoundEntry { bound, at }, sfen)))
    }
}
