// Lists of moves in their order.
ghost use Rattle.std.specs.Prelude.{◌≡◌, ◌<◌, ◌*◌, ◌+◌, ◌↔◌, [], length, Contains, OnOk};
ghost use Rattle.bit_boards.specs.Kind.{place_of};
ghost use Rattle.board_core.specs.Order.{order_of, RisesFrom};
ghost use Rattle.board_core.specs.declared.moves.Move.{Move};
ghost use Rattle.list_laws.specs.Added.{GoesFrom, IsDropOn, IsOne, Adds};

use bit_boards::Mask;
use board_core::{Kind, Move, Square, value_laws};
use std::alloc::{AllocError, Global};
use std::marker::Model;

/// Moves in the order of moves, each once. Cleared, it keeps the room that it took, to be filled
/// again. Contracts see the list.
#[derive(Drop)]
pub struct Moves {
    list: Vec<Move>,
}

impl Model for Moves {
    ghost use Rattle.std.specs.Prelude.{List};
    ghost use Rattle.board_core.specs.declared.moves.Move.{Move};
    ghost use Rattle.board_core.specs.Order.{RisesFrom};

    ghost Value = { List Move };

    ghost view = { λ m. m.list.items };

    ghost invariant = { λ m. RisesFrom 0 m.list.items };
}

impl Moves {
    /// The empty list. Takes no memory.
    pub fn new(alloc: Global) -> Moves
        ensures { result ≡ [] }
    {
        Moves {
            list: Vec::new(alloc),
        }
    }

    /// Takes all moves out, and keeps their room.
    pub fn clear(&mut self)
        ensures { self.new ≡ [] }
    {
        self.list.clear();
    }

    /// How many moves it has.
    pub fn len(&self) -> usize
        ensures { result ≡ length self.now }
    {
        self.list.len()
    }

    /// Its moves, in the order of moves.
    pub fn as_slice(&self) -> &[Move]
        ensures moves { result.now ≡ self.now }
        ensures rises { RisesFrom 0 self.now }
    {
        &self.list
    }

    /// Adds the moves from a square: unpromoted to the squares of the first set, promoted to those
    /// of the second. All moves that it has must come before any from this square. Errors: want of
    /// memory alone; what it has then isn't said.
    pub fn add_board(&mut self, from: Square, plain: Mask, promoted: Mask) -> Result<(), AllocError>
        requires later { (move : Move) → Contains self.old move
            → order_of move < 162 * from.number }
        ensures added { OnOk result (Adds (GoesFrom from plain promoted) self.old self.new) }
        ensures rises { OnOk result (RisesFrom 0 self.new) }
    {
        // No two squares have one number.
        value_laws();
        let mut left = plain.or(promoted);
        while let Some(to) = left.pop_first() {
            let stays = Move::Board {
                from,
                to,
                promote: false,
            };
            self.add_if(plain.contains(to), stays)?;
            let turns = Move::Board {
                from,
                to,
                promote: true,
            };
            self.add_if(promoted.contains(to), turns)?;
        }
        let _rising = &self.list;
        Ok(())
    }

    /// Adds the drops of a kind on the squares of a set. All moves that it has must come before any
    /// drop of this kind. Errors: want of memory alone; what it has then isn't said.
    pub fn add_drops(&mut self, kind: Kind, squares: Mask) -> Result<(), AllocError>
        requires later { (move : Move) → Contains self.old move
            → order_of move < 13122 + 81 * place_of kind }
        ensures added { OnOk result (Adds (IsDropOn kind squares) self.old self.new) }
        ensures rises { OnOk result (RisesFrom 0 self.new) }
    {
        // No two squares have one number.
        value_laws();
        let mut left = squares;
        while let Some(to) = left.pop_first() {
            self.add_if(true, Move::Drop { kind, to })?;
        }
        let _rising = &self.list;
        Ok(())
    }

    // Adds a move that comes after all others, where it is wanted.
    fn add_if(&mut self, wanted: bool, by: Move) -> Result<(), AllocError>
        requires later { (move : Move) → Contains self.old move → order_of move < order_of by }
        ensures { OnOk result (Adds (IsOne wanted by) self.old self.new) }
    {
        if wanted {
            self.list.push(by)?;
        }
        Ok(())
    }
}
