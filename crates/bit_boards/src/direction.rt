// The eight directions.
ghost use Rattle.std.specs.Prelude.{◌≡◌};

/// The eight directions, as Black sees the board, with the changes of file and row that one step
/// makes: files count from right to left, rows from top to bottom. Squares in the first four have
/// lower numbers, in the last four higher ones.
#[derive(Clone, Copy, PartialEq, Eq, PartialOrd, Ord, Hash, Debug)]
pub enum Direction {
    /// (0, -1), towards row a.
    Up,
    /// (-1, -1).
    UpRight,
    /// (-1, 0), towards file 1.
    Right,
    /// (-1, +1).
    DownRight,
    /// (0, +1), towards row i.
    Down,
    /// (+1, +1).
    DownLeft,
    /// (+1, 0), towards file 9.
    Left,
    /// (+1, -1).
    UpLeft,
}

impl Direction {
    ghost use Rattle.bit_boards.specs.Direction.{opposite, place_of, rises};

    /// The eight directions, in their order.
    pub const ALL: [Direction; 8] = [
        Direction::Up,
        Direction::UpRight,
        Direction::Right,
        Direction::DownRight,
        Direction::Down,
        Direction::DownLeft,
        Direction::Left,
        Direction::UpLeft,
    ];

    /// The direction's place in their order, from 0.
    pub fn place(self) -> u8
        ensures { result ≡ place_of self }
    {
        match self {
            Direction::Up => 0,
            Direction::UpRight => 1,
            Direction::Right => 2,
            Direction::DownRight => 3,
            Direction::Down => 4,
            Direction::DownLeft => 5,
            Direction::Left => 6,
            Direction::UpLeft => 7,
        }
    }

    /// The direction back.
    pub fn opposite(self) -> Direction
        ensures { result ≡ opposite self }
    {
        match self {
            Direction::Up => Direction::Down,
            Direction::UpRight => Direction::DownLeft,
            Direction::Right => Direction::Left,
            Direction::DownRight => Direction::UpLeft,
            Direction::Down => Direction::Up,
            Direction::DownLeft => Direction::UpRight,
            Direction::Left => Direction::Right,
            Direction::UpLeft => Direction::DownRight,
        }
    }

    /// Whether the squares in the direction have higher numbers.
    pub(crate) fn rises(self) -> bool
        ensures { result ≡ rises self }
    {
        matches!(
            self,
            Direction::Down | Direction::DownLeft | Direction::Left | Direction::UpLeft
        )
    }
}
