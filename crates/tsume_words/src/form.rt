// How a problem is given.

/// How the text of a problem is written.
#[derive(Clone, Copy, Debug, PartialEq, Eq)]
pub enum Format {
    /// As an SFEN.
    Sfen,
    /// As the board diagram of a KIF file, in UTF-8.
    Kif,
}

/// How a problem is made of the text that is read.
#[derive(Clone, Copy, Debug, PartialEq, Eq)]
pub struct ProblemForm {
    /// How its position is written.
    pub format: Format,
    /// Whether the defender is then given all pieces but kings that are neither on the board nor in
    /// a hand.
    pub rest: bool,
}
