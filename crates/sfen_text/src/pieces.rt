// Letters as pieces.
ghost use Rattle.std.specs.Prelude.{◌≡◌};
ghost use Rattle.sfen_text.specs.Pieces.{promoted_piece, side_of_letter, capital_of, piece_of, promoted_of};

use board_core::{Kind, Piece, Side};

fn side_of_letter(byte: u8) -> Side
    ensures { result ≡ side_of_letter byte }
{
    if byte >= b'a' {
        Side::White
    } else {
        Side::Black
    }
}

fn capital_of(byte: u8) -> u8
    ensures { result ≡ capital_of byte }
{
    if byte >= b'a' { byte - 32 } else { byte }
}

fn promoted_piece(side: Side, kind: Kind) -> Option<Piece>
    ensures { result ≡ promoted_piece side kind }
{
    if !kind.can_promote() {
        return None;
    }
    Some(Piece {
        kind,
        promoted: true,
        side,
    })
}

// The unpromoted piece of a letter.
#[tactic(auto, unfolding(crate::specs::Pieces::piece_of))]
pub fn piece_of(letter: u8) -> Option<Piece>
    ensures { result ≡ piece_of letter }
{
    let kind = Kind::of_letter(capital_of(letter))?;
    Some(Piece::plain(kind, side_of_letter(letter)))
}

// The promoted piece of a letter.
#[tactic(auto, unfolding(crate::specs::Pieces::promoted_of))]
pub fn promoted_of(letter: u8) -> Option<Piece>
    ensures { result ≡ promoted_of letter }
{
    let kind = Kind::of_letter(capital_of(letter))?;
    promoted_piece(side_of_letter(letter), kind)
}
