// Sides, kinds and pieces.
ghost use Rattle.std.specs.Prelude.{◌≡◌, ◌≢◌, ◌≤◌, IfSome, IfNone, true};
ghost use Rattle.bit_boards.specs.Kind.{can_promote, other, place_of, total_of, rows_needed};
ghost use Rattle.bit_boards.specs.Text.{kind_letter, kind_of_letter};
ghost use Rattle.bit_boards.specs.declared.piece.Kind.{Kind};

/// The two sides. Black (sente) moves towards row a, White (gote) towards row i.
#[derive(Clone, Copy, PartialEq, Eq, PartialOrd, Ord, Hash, Debug)]
pub enum Side {
    /// Sente, the side that moves towards row a.
    Black,
    /// Gote, the side that moves towards row i.
    White,
}

impl Side {
    /// The other side.
    pub fn other(self) -> Side
        ensures { result ≡ other self }
    {
        match self {
            Side::Black => Side::White,
            Side::White => Side::Black,
        }
    }
}

/// The eight kinds of pieces, in the order P L N S G B R K that lists of moves and hands follow.
#[derive(Clone, Copy, PartialEq, Eq, PartialOrd, Ord, Hash, Debug)]
pub enum Kind {
    /// Fu, 18 in a set.
    Pawn,
    /// Kyosha, 4 in a set.
    Lance,
    /// Keima, 4 in a set.
    Knight,
    /// Ginsho, 4 in a set.
    Silver,
    /// Kinsho, 4 in a set.
    Gold,
    /// Kakugyo, 2 in a set.
    Bishop,
    /// Hisha, 2 in a set.
    Rook,
    /// Osho or gyokusho, one for each side at most; never in a hand.
    King,
}

impl Kind {
    /// The eight kinds, in their order.
    pub const ALL: [Kind; 8] = [
        Kind::Pawn,
        Kind::Lance,
        Kind::Knight,
        Kind::Silver,
        Kind::Gold,
        Kind::Bishop,
        Kind::Rook,
        Kind::King,
    ];

    /// The seven kinds that a hand may hold, in their order: all but the king.
    pub const IN_HAND: [Kind; 7] = [
        Kind::Pawn,
        Kind::Lance,
        Kind::Knight,
        Kind::Silver,
        Kind::Gold,
        Kind::Bishop,
        Kind::Rook,
    ];

    /// Whether pieces of the kind have a promoted side: all but gold and king (rules of shogi:
    /// promotion).
    pub fn can_promote(self) -> bool
        ensures { result ≡ can_promote self }
    {
        !matches!(self, Kind::Gold | Kind::King)
    }

    /// The kind's place in the order P L N S G B R K, from 0.
    pub fn place(self) -> u8
        ensures { result ≡ place_of self }
    {
        match self {
            Kind::Pawn => 0,
            Kind::Lance => 1,
            Kind::Knight => 2,
            Kind::Silver => 3,
            Kind::Gold => 4,
            Kind::Bishop => 5,
            Kind::Rook => 6,
            Kind::King => 7,
        }
    }

    /// The kind's capital letter, one of P L N S G B R K (SFEN and the USI protocol: pieces).
    pub fn letter(self) -> u8
        ensures letter { result ≡ kind_letter self }
        ensures capital { result ≤ 90 }
    {
        match self {
            Kind::Pawn => b'P',
            Kind::Lance => b'L',
            Kind::Knight => b'N',
            Kind::Silver => b'S',
            Kind::Gold => b'G',
            Kind::Bishop => b'B',
            Kind::Rook => b'R',
            Kind::King => b'K',
        }
    }

    /// The kind of a capital letter, where it is one of P L N S G B R K (SFEN and the USI protocol:
    /// pieces).
    pub fn of_letter(letter: u8) -> Option<Kind>
        ensures kind { result ≡ kind_of_letter letter }
        ensures found { IfSome result (λ kind. kind_letter kind ≡ letter) }
        ensures none { IfNone result ((kind : Kind) → kind_letter kind ≢ letter) }
    {
        match letter {
            b'P' => Some(Kind::Pawn),
            b'L' => Some(Kind::Lance),
            b'N' => Some(Kind::Knight),
            b'S' => Some(Kind::Silver),
            b'G' => Some(Kind::Gold),
            b'B' => Some(Kind::Bishop),
            b'R' => Some(Kind::Rook),
            b'K' => Some(Kind::King),
            _ => None,
        }
    }

    /// How many pieces of the kind a set of shogi has: 18 pawns, 4 each of lance, knight, silver
    /// and gold, 2 each of bishop, rook and king.
    pub fn total(self) -> u8
        ensures { result ≡ total_of self }
    {
        match self {
            Kind::Pawn => 18,
            Kind::Lance | Kind::Knight | Kind::Silver | Kind::Gold => 4,
            Kind::Bishop | Kind::Rook | Kind::King => 2,
        }
    }

    /// How many rows an unpromoted piece of the kind must have ahead of it to be able to move ever
    /// again: 1 for a pawn and a lance, 2 for a knight, else 0 (rules of shogi: forced promotion,
    /// and drops without a move).
    pub fn rows_needed(self) -> u8
        ensures { result ≡ rows_needed self }
    {
        match self {
            Kind::Pawn | Kind::Lance => 1,
            Kind::Knight => 2,
            _ => 0,
        }
    }
}

/// A piece as it stands on the board. It keeps that a gold and a king aren't promoted.
#[derive(Clone, Copy, PartialEq, Eq, Debug)]
pub struct Piece {
    /// What it is when it isn't promoted.
    pub kind: Kind,
    /// Whether its promoted side is up.
    pub promoted: bool,
    /// Whose it is.
    pub side: Side,
    pub ghost promotes: { promoted ≡ true → can_promote kind ≡ true },
}
