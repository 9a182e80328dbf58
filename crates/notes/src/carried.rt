// The rule that carries a note to another position of the same board.
ghost use Rattle.std.specs.Prelude.{◌≡◌, IfOk};
ghost use Rattle.notes.specs.Derivation.{carried};
ghost use Rattle.notes.specs.Valid.{MayBeCarried};

use crate::lists::shared;
use crate::{Note, Rule};
use board_core::Position;
use path_tags::Tag;
use shogi_rules::Problem;
use std::alloc::{AllocError, Global};
use std::slice;

/// What a note concludes, of another position: a mate of one that dominates the note's, an escape
/// of one that the note's dominates, whoever is to move. The note depends on no repetition, and
/// stays, with one more owner; the new one is as high, and has no tag. Errors: want of memory
/// alone. (Nagai 2002: pieces in hand that a proof or a disproof doesn't need.)
pub fn carry(
    alloc: Global,
    problem: &Problem,
    position: &Position,
    note: &Note,
) -> Result<Note, AllocError>
    requires { MayBeCarried problem.now.position.side position.now note.now }
    ensures { IfOk result (λ made. made
        ≡ carried problem.now.position.side position.now note.now) }
{
    note.laws();
    let under = shared(alloc, slice::from_ref(note))?;
    Note::made(
        alloc,
        Rule::Carry(note.conclusion()),
        problem.attacker(),
        position,
        Tag::empty(alloc),
        note.height(),
        under,
    )
}
