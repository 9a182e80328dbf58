// A list that is filled, cleared and filled again.
use crate::same::same;
use bit_boards::Mask;
use board_core::{Kind, Move, Square};
use move_lists::Moves;
use std::test::Fail;

fn plain(from: Square, to: Square) -> Move {
    Move::Board {
        from,
        to,
        promote: false,
    }
}

fn promoted(from: Square, to: Square) -> Move {
    Move::Board {
        from,
        to,
        promote: true,
    }
}

fn drop(to: Square) -> Move {
    Move::Drop {
        kind: Kind::Gold,
        to,
    }
}

#[test]
fn a_list_is_filled_in_order_and_again_once_it_is_cleared(rt: HostRuntime) -> Result<(), Fail> {
    let (from, near, far) = (Square::on(2, 3), Square::on(1, 2), Square::on(3, 2));
    let both = Mask::of(far).with(near);
    let mut moves = Moves::new(rt.alloc());
    moves.add_board(from, both, Mask::of(far))?;
    let board = [plain(from, near), plain(from, far), promoted(from, far)];
    same(&rt, "board", moves.as_slice(), board.as_slice());
    same(&rt, "filled", moves.len(), 3);
    moves.clear();
    same(&rt, "cleared", moves.len(), 0);
    moves.add_drops(Kind::Gold, both)?;
    let drops = [drop(near), drop(far)];
    same(&rt, "drops", moves.as_slice(), drops.as_slice());
    Ok(())
}
