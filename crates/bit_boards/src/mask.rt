// Sets of squares.
ghost use Rattle.std.specs.Prelude.{◌≡◌, ◌<◌, ◌≤◌, ◌+◌, ◌^◌, ◌&&◌, ◌||◌, ◌==◌, ◌↔◌, ℕ, not, nat_lt, true, false, IsTrue, IfSome, IfNone};

use crate::Square;

/// A set of squares of the board. It is kept as bits: the bit of a square's number is set where the
/// set has the square, and no higher bit is set. Takes 16 bytes.
#[derive(Clone, Copy, PartialEq, Eq, Debug)]
pub struct Mask {
    pub(crate) bits: u128,
    pub ghost on_board: { bits < 2 ^ 81 },
}

impl Mask {
    ghost use Rattle.bit_boards.specs.Mask.{holds, Holds, count};
    ghost use Rattle.bit_boards.specs.Square.{file_of, row_of};

    /// The set with no square.
    pub fn empty() -> Mask
        ensures { (s : ℕ) → holds result s ≡ false }
    {
        Mask { bits: 0 }
    }

    /// The set of all 81 squares.
    pub fn full() -> Mask
        ensures { (s : ℕ) → holds result s ≡ nat_lt s 81 }
    {
        Mask {
            bits: (1 << 81) - 1,
        }
    }

    /// The set of one square.
    pub fn of(square: Square) -> Mask
        ensures { (s : ℕ) → holds result s ≡ (s == square.number) }
    {
        Mask {
            bits: 1 << square.number,
        }
    }

    /// The nine squares of a file, from 1 to 9.
    pub fn file(file: u8) -> Mask
        requires from { 1 ≤ file }
        requires to { file ≤ 9 }
        ensures { (s : ℕ) → holds result s ≡ (nat_lt s 81 && (file_of s == file)) }
    {
        Mask {
            bits: 0x1ff << (9 * (file - 1)),
        }
    }

    /// The nine squares of a row, from 1 (a) to 9 (i).
    pub fn row(row: u8) -> Mask
        requires from { 1 ≤ row }
        requires to { row ≤ 9 }
        ensures { (s : ℕ) → holds result s ≡ (nat_lt s 81 && (row_of s == row)) }
    {
        Mask {
            bits: 0x1008040201008040201 << (row - 1),
        }
    }

    /// Whether it has the square.
    pub fn contains(self, square: Square) -> bool
        ensures { result ≡ holds self square.number }
    {
        self.bits >> square.number & 1 == 1
    }

    /// The same and the square.
    pub fn with(self, square: Square) -> Mask
        ensures { (s : ℕ) → holds result s ≡ (holds self s || (s == square.number)) }
    {
        Mask {
            bits: self.bits | 1 << square.number,
        }
    }

    /// The same but for the square.
    pub fn without(self, square: Square) -> Mask
        ensures { (s : ℕ) → holds result s ≡ (holds self s && not (s == square.number)) }
    {
        Mask {
            bits: self.bits & !(1 << square.number),
        }
    }

    /// The squares that both have.
    pub fn and(self, other: Mask) -> Mask
        ensures { (s : ℕ) → holds result s ≡ (holds self s && holds other s) }
    {
        Mask {
            bits: self.bits & other.bits,
        }
    }

    /// The squares that one of the two has, or both.
    pub fn or(self, other: Mask) -> Mask
        ensures { (s : ℕ) → holds result s ≡ (holds self s || holds other s) }
    {
        Mask {
            bits: self.bits | other.bits,
        }
    }

    /// The squares that it has and the other hasn't.
    pub fn minus(self, other: Mask) -> Mask
        ensures { (s : ℕ) → holds result s ≡ (holds self s && not (holds other s)) }
    {
        Mask {
            bits: self.bits & !other.bits,
        }
    }

    /// Whether it has no square.
    pub fn is_empty(self) -> bool
        ensures none { IsTrue result ↔ ((s : ℕ) → holds self s ≡ false) }
        ensures some { result ≡ false → (s : ℕ) × Holds self s }
    {
        self.bits == 0
    }

    /// How many squares it has, from 0 to 81.
    pub fn len(self) -> u8
        ensures count { result ≡ count self }
        ensures to { result ≤ 81 }
    {
        self.bits.count_ones() as u8
    }

    /// Its square with the lowest number; none where it is empty.
    pub fn first(self) -> Option<Square>
        ensures found { IfSome result (λ square. Holds self square.number) }
        ensures least { IfSome result (λ square. (s : ℕ) → s < square.number → holds self s
            ≡ false) }
        ensures none { IfNone result ((s : ℕ) → holds self s ≡ false) }
    {
        if self.bits == 0 {
            None
        } else {
            Some(Square {
                number: self.bits.trailing_zeros() as u8,
            })
        }
    }

    /// Its square with the highest number; none where it is empty.
    pub fn last(self) -> Option<Square>
        ensures found { IfSome result (λ square. Holds self square.number) }
        ensures greatest { IfSome result (λ square. (s : ℕ) → square.number < s → holds self s
            ≡ false) }
        ensures none { IfNone result ((s : ℕ) → holds self s ≡ false) }
    {
        if self.bits == 0 {
            None
        } else {
            Some(Square {
                number: self.bits.ilog2() as u8,
            })
        }
    }

    /// Takes out its square with the lowest number, and says which that was; none where it is
    /// empty. So `while let Some(square) = mask.pop_first()` goes over its squares in rising order,
    /// each once.
    pub fn pop_first(&mut self) -> Option<Square>
        ensures found { IfSome result (λ square. Holds self.old square.number) }
        ensures least { IfSome result (λ square. (s : ℕ) → s < square.number → holds self.old s
            ≡ false) }
        ensures rest { IfSome result (λ square. (s : ℕ) → holds self.new s
            ≡ (holds self.old s && not (s == square.number))) }
        ensures counted { IfSome result (λ square. count self.old ≡ count self.new + 1) }
        ensures none { IfNone result ((s : ℕ) → holds self.old s ≡ false) }
        ensures unchanged { IfNone result (self.new ≡ self.old) }
    {
        let square = self.first()?;
        *self = Mask {
            bits: self.bits & (self.bits - 1),
        };
        Some(square)
    }

    /// Its squares up to and with the lowest of the stops; all where there is no stop.
    pub(crate) fn up_to_first(self, stops: Mask) -> Mask
        ensures { (s : ℕ) → Holds result s
            ↔ (Holds self s × ((t : ℕ) → t < s → holds stops t ≡ false)) }
    {
        Mask {
            bits: self.bits & (stops.bits ^ stops.bits.wrapping_sub(1)),
        }
    }

    /// Its squares down to and with the highest of the stops; all where there is no stop.
    pub(crate) fn down_to_last(self, stops: Mask) -> Mask
        ensures { (s : ℕ) → Holds result s
            ↔ (Holds self s × ((t : ℕ) → s < t → holds stops t ≡ false)) }
    {
        Mask {
            bits: self.bits & u128::MAX << (stops.bits | 1).ilog2(),
        }
    }
}
