// What a line says.
use search_limits::Setting;

/// The most milliseconds that a session may be given for a problem: a day.
pub const MOST_MILLIS: u64 = 86_400_000;

// The first position of a game.
pub const START: &[u8] = b"lnsgkgsnl/1r5b1/ppppppppp/9/9/9/PPPPPPPPP/1B5R1/LNSGKGSNL b - 1";

/// What a line says to a session.
#[derive(Clone, Copy)]
pub enum Command<'a> {
    /// It asks who the program is, and which options it has.
    Usi,
    /// It asks whether the session is ready.
    IsReady,
    /// It gives an option a number.
    SetOption(Setting, u64),
    /// It gives an option that is neither one of the five, as `name NAME value NUMBER`, nor one of
    /// the protocol's own.
    BadOption,
    /// It gives a position: its SFEN, and a text whose fields are the moves behind it.
    Position(&'a [u8], &'a [u8]),
    /// It asks for a mate, within so many milliseconds or without a limit.
    GoMate(Option<u64>),
    /// It asks for something else than a mate.
    OtherGo,
    /// It ends the session.
    Quit,
    /// It says nothing.
    Nothing,
}

/// The first field of a line.
#[derive(Clone, Copy)]
pub enum Word {
    /// `usi`.
    Usi,
    /// `isready`.
    IsReady,
    /// `setoption`.
    SetOption,
    /// `position`.
    Position,
    /// `go`.
    Go,
    /// `quit`.
    Quit,
    /// Any other.
    Other,
}
