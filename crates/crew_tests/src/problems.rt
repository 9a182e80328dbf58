// Problems, and the settings of their searches.
use search_limits::Settings;
use sfen_text::read_sfen;
use shogi_rules::{Problem, accept_problem};
use std::process::Abort;

// Two rooks: a mate in three, since a rook is dropped far off on the king's row, and the other one
// follows it to the last.
pub(crate) const ROOKS: &str = "9/4k4/8R/9/9/9/9/9/9 b R";

// A mate in one by a gold, which a pawn guards.
pub(crate) const GOLD: &str = "4k4/9/4P4/9/9/9/9/9/9 b G";

// A king without an attacker.
pub(crate) const ALONE: &str = "4k4/9/9/9/9/9/9/9/9 b -";

// A rook that checks without end.
pub(crate) const CHASED: &str = "4k4/9/9/9/9/9/9/9/R8 b -";

// A rook that chases a king round two positions.
pub(crate) const ROUND: &str = "5k3/9/9/9/9/9/9/9/4R4 b -";

// White's mate in one.
pub(crate) const WHITE: &str = "9/9/9/9/9/9/4p4/9/4K4 w g";

// The problem of a text.
pub(crate) fn problem(rt: &impl Abort, text: &str) -> Problem {
    let position = read_sfen(text.as_bytes()).expect(rt, text);
    accept_problem(position).expect(rt, text)
}

// Those of a search with so many workers, visits and notes, over a small table in one part.
pub(crate) fn settings_of(rt: &impl Abort, workers: u32, expansions: u64, room: u32) -> Settings {
    Settings::new(workers, expansions, room, 16, 1).expect(rt, "settings")
}
