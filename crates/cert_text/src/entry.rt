// What a certificate lists.
ghost use Rattle.std.specs.Prelude.{◌≡◌, ◌++◌, IfOk, IfSome, IfNone, OnOk};
ghost use Rattle.board_core.specs.Board.{Board};
ghost use Rattle.board_core.specs.Kept.{IsKept};
ghost use Rattle.sfen_text.specs.Spelling.{sfen_of};
ghost use Rattle.cert_text.specs.Entries.{line};
ghost use Rattle.cert_text.specs.Certificate.{Form, MayBeListed, mate_form, escape_form};

use crate::parts::{cut, position_of_text, rank_of_text};
use crate::write::append_number;
use board_core::Position;
use mate_facts::MateEntry;
use sfen_text::append_sfen;
use shogi_rules::Problem;
use std::alloc::AllocError;
use usi_text::{read_move, write_move};

/// What a certificate lists: a mate's entries are [`MateEntry`], an escape's are positions. Which a
/// certificate may list, the text of each and its position are told by `form`.
pub trait Entry: Drop {
    ghost form: { Board → Form Self };

    /// The position that it lists. Takes no memory.
    fn position(&self) -> &Position
        ensures { (problem : Board) → result.now ≡ (form problem).at self.now };

    /// Writes its line behind what stands there already. Where memory is wanted, a part of it may
    /// stand there. Errors: want of memory alone.
    fn append(&self, out: &mut Vec<u8>) -> Result<(), AllocError>
        ensures text { (problem : Board)
            → OnOk result (out.new.items ≡ out.old.items ++ (form problem).text_of self.now) }
        ensures kept { (problem : Board) → IsKept ((form problem).at self.now) };

    /// The entry that a line (without its line feed) is in a certificate about the problem, and the
    /// SFEN text in the line; none for any other line. `spelled` is room to write a position in:
    /// what stood there is lost. Errors: want of memory alone.
    fn of_line<'a>(
        text: &'a [u8],
        problem: &Problem,
        spelled: &mut Vec<u8>,
    ) -> Result<Option<(Self, &'a [u8])>, AllocError>
        ensures fits { IfOk result
            (λ found. IfSome found (λ read. MayBeListed (form problem.now.position) read.0)) }
        ensures text { IfOk result
            (λ found. IfSome found (λ read. (form problem.now.position).text_of read.0
            ≡ line text.now)) }
        ensures sfen { IfOk result (λ found. IfSome found (λ read. read.1.now
            ≡ sfen_of ((form problem.now.position).at read.0))) }
        ensures none { IfOk result (λ found. IfNone found ((entry : Self)
            → MayBeListed (form problem.now.position) entry
            → (form problem.now.position).text_of entry ≡ line text.now → ⊥)) };
}

impl Entry for MateEntry {
    ghost form = { mate_form };

    fn position(&self) -> &Position {
        &self.at
    }

    fn append(&self, out: &mut Vec<u8>) -> Result<(), AllocError> {
        // What the position keeps, even where memory is wanted.
        self.at.laws();
        append_number(out, u64::from(self.rank.number))?;
        out.push(b' ')?;
        out.extend_from_slice(write_move(self.by).as_bytes())?;
        out.push(b' ')?;
        append_sfen(out, &self.at)?;
        out.push(b'\n')?;
        Ok(())
    }

    fn of_line<'a>(
        text: &'a [u8],
        problem: &Problem,
        spelled: &mut Vec<u8>,
    ) -> Result<Option<(MateEntry, &'a [u8])>, AllocError> {
        let Some((rank, more)) = cut(text, b' ') else {
            return Ok(None);
        };
        let Some((by, sfen)) = cut(more, b' ') else {
            return Ok(None);
        };
        let Some(rank) = rank_of_text(rank) else {
            return Ok(None);
        };
        let Some(by) = read_move(by) else {
            return Ok(None);
        };
        let Some(at) = position_of_text(sfen, problem.attacker(), spelled)? else {
            return Ok(None);
        };
        Ok(Some((MateEntry { rank, by, at }, sfen)))
    }
}

impl Entry for Position {
    ghost form = { escape_form };

    fn position(&self) -> &Position {
        self
    }

    fn append(&self, out: &mut Vec<u8>) -> Result<(), AllocError> {
        // What the position keeps, even where memory is wanted.
        self.laws();
        append_sfen(out, self)?;
        out.push(b'\n')?;
        Ok(())
    }

    fn of_line<'a>(
        text: &'a [u8],
        problem: &Problem,
        spelled: &mut Vec<u8>,
    ) -> Result<Option<(Position, &'a [u8])>, AllocError> {
        let Some(position) = position_of_text(text, problem.attacker(), spelled)? else {
            return Ok(None);
        };
        Ok(Some((position, text)))
    }
}
