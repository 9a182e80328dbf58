// Characters as pieces, cells and counts.
ghost use Rattle.std.specs.Prelude.{◌≡◌, ◌∷◌, [], MatchOption, IfSome, ◌≤◌, ◌≢◌};
ghost use Rattle.std.specs.Str.{chars, IsUtf8};
ghost use Rattle.bit_boards.specs.declared.piece.Kind.TheVariants.{King};
ghost use Rattle.sfen_text.specs.Pieces.{promoted_piece};
ghost use Rattle.kif_text.specs.Characters.{kind_of, plain_of, piece_of, side_of, cell_of, number_of, teen, count_of};

use board_core::{Kind, Piece, Side};

/// The first character of a text, and what stands behind it. Takes no memory.
pub fn split_first(text: &str) -> Option<(char, &str)>
    ensures split { MatchOption result (chars text.now ≡ []) (λ x. chars text.now
        ≡ x.0 ∷ chars x.1.now) }
    ensures text { IfSome result (λ x. IsUtf8 x.1.now) }
{
    let mut characters = text.chars();
    let first = characters.next()?;
    Some((first, characters.as_str()))
}

fn promoted(side: Side, kind: Kind) -> Option<Piece>
    ensures { result ≡ promoted_piece side kind }
{
    if !kind.can_promote() {
        return None;
    }
    Some(Piece {
        kind,
        promoted: true,
        side,
    })
}

// The kind of a character that names a piece in hand.
pub fn kind_of(character: char) -> Option<Kind>
    ensures kind { result ≡ kind_of character }
    ensures in_hand { IfSome result (λ kind. kind ≢ King) }
{
    match character {
        '歩' => Some(Kind::Pawn),
        '香' => Some(Kind::Lance),
        '桂' => Some(Kind::Knight),
        '銀' => Some(Kind::Silver),
        '金' => Some(Kind::Gold),
        '角' => Some(Kind::Bishop),
        '飛' => Some(Kind::Rook),
        _ => None,
    }
}

fn plain_of(side: Side, character: char) -> Option<Piece>
    ensures { result ≡ plain_of side (kind_of character) }
{
    let kind = kind_of(character)?;
    Some(Piece::plain(kind, side))
}

/// The side's piece that a character shows on the board, where it shows one (KIF: board diagrams).
/// Takes no memory.
pub fn piece_of(side: Side, character: char) -> Option<Piece>
    ensures { result ≡ piece_of side character }
{
    match character {
        '玉' | '王' => Some(Piece::plain(Kind::King, side)),
        'と' => promoted(side, Kind::Pawn),
        '杏' => promoted(side, Kind::Lance),
        '圭' => promoted(side, Kind::Knight),
        '全' => promoted(side, Kind::Silver),
        '馬' => promoted(side, Kind::Bishop),
        '龍' | '竜' => promoted(side, Kind::Rook),
        _ => plain_of(side, character),
    }
}

fn side_of(mark: char) -> Option<Side>
    ensures { result ≡ side_of mark }
{
    match mark {
        ' ' => Some(Side::Black),
        'v' => Some(Side::White),
        _ => None,
    }
}

// What stands in the cell of a mark and what it shows; the outer `None` where the two are no cell.
pub fn cell_of(mark: char, shown: char) -> Option<Option<Piece>>
    ensures { result ≡ cell_of mark shown }
{
    if mark == ' ' && shown == '・' {
        return Some(None);
    }
    let side = side_of(mark)?;
    let piece = piece_of(side, shown)?;
    Some(Some(piece))
}

/// The number that a numeral names, 一 to 十; none for any other character. Takes no memory.
pub fn number_of(character: char) -> Option<u8>
    ensures number { result ≡ number_of character }
    ensures some { IfSome result (λ n. 1 ≤ n) }
    ensures small { IfSome result (λ n. n ≤ 10) }
{
    match character {
        '一' => Some(1),
        '二' => Some(2),
        '三' => Some(3),
        '四' => Some(4),
        '五' => Some(5),
        '六' => Some(6),
        '七' => Some(7),
        '八' => Some(8),
        '九' => Some(9),
        '十' => Some(10),
        _ => None,
    }
}

fn teen(character: char) -> Option<u8>
    ensures { result ≡ teen (number_of character) }
{
    let more = number_of(character)?;
    if more <= 8 { Some(10 + more) } else { None }
}

// The count behind the character of a piece, one to eighteen.
pub fn count_of(text: &str) -> Option<u8>
    ensures count { result ≡ count_of (chars text.now) }
    ensures some { IfSome result (λ n. 1 ≤ n) }
{
    let Some((first, rest)) = split_first(text) else {
        return Some(1);
    };
    let Some((second, rest)) = split_first(rest) else {
        return number_of(first);
    };
    if first == '十' && split_first(rest).is_none() {
        teen(second)
    } else {
        None
    }
}
