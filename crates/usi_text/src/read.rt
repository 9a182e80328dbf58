// Texts as moves.
ghost use Rattle.std.specs.Prelude.{◌≡◌, ◌≢◌, ℕ, List, [], ◌∷◌, Some, IfSome, IfNone, false};
ghost use Rattle.board_core.specs.declared.moves.Move.{Move};
ghost use Rattle.bit_boards.specs.declared.square.Square.{Square};
ghost use Rattle.bit_boards.specs.declared.piece.Kind.{Kind};
ghost use Rattle.bit_boards.specs.declared.piece.Kind.TheVariants.{King};
ghost use Rattle.bit_boards.specs.Text.{kind_letter};
ghost use Rattle.board_core.specs.Text.{HasText};
ghost use Rattle.usi_text.specs.MoveText.{square_text, promotion_text, move_text, IsRead};

use board_core::{Kind, Move, Square, value_laws};

fn square_of(file: u8, row: u8) -> Option<Square>
    ensures found { IfSome result (λ s. square_text s.number ≡ file ∷ row ∷ []) }
    ensures none { IfNone result ((s : Square) → square_text s.number ≡ file ∷ row ∷ [] → ⊥) }
{
    if matches!(file, b'1'..=b'9') && matches!(row, b'a'..=b'i') {
        Some(Square::on(file - b'0', row - b'a' + 1))
    } else {
        None
    }
}

fn dropped_kind(letter: u8) -> Option<Kind>
    ensures found { IfSome result (λ k. (kind_letter k ≡ letter) × (k ≢ King)) }
    ensures none { IfNone result ((k : Kind) → k ≢ King → kind_letter k ≡ letter → ⊥) }
{
    match Kind::of_letter(letter) {
        Some(Kind::King) => None,
        found => found,
    }
}

// No star stands second in a text of four bytes: that is a drop's.
fn board_move(f: u8, r: u8, g: u8, s: u8, promote: bool) -> Option<Move>
    requires { promote ≡ false → r ≢ 42 }
    ensures { IsRead (f ∷ r ∷ g ∷ s ∷ promotion_text promote) result }
{
    let from = square_of(f, r)?;
    let to = square_of(g, s)?;
    if from == to {
        return None;
    }
    Some(Move::Board { from, to, promote })
}

fn drop_move(letter: u8, file: u8, row: u8) -> Option<Move>
    ensures { IsRead (letter ∷ 42 ∷ file ∷ row ∷ []) result }
{
    let kind = dropped_kind(letter)?;
    let to = square_of(file, row)?;
    Some(Move::Drop { kind, to })
}

fn move_of(bytes: &[u8]) -> Option<Move>
    ensures { IsRead bytes.now result }
{
    match bytes {
        [letter, b'*', file, row] => drop_move(*letter, *file, *row),
        [f, r, g, s] => board_move(*f, *r, *g, *s, false),
        [f, r, g, s, b'+'] => board_move(*f, *r, *g, *s, true),
        _ => None,
    }
}

/// The move whose text the bytes are (USI protocol: moves); none where they are no move's text, as
/// for a king's drop and for a board move to where it began. Takes no memory.
pub fn read_move(bytes: &[u8]) -> Option<Move>
    ensures exact { IsRead bytes.now result }
    ensures again { (m : Move) → HasText m → bytes.now ≡ move_text m → result ≡ Some m }
{
    // No two squares have one number, and no two kinds one letter.
    value_laws();
    move_of(bytes)
}
