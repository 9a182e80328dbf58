// A problem, and the settings of its searches.
use search_limits::Settings;
use sfen_text::read_sfen;
use shogi_rules::{Problem, accept_problem};
use std::process::Abort;

// A king without an attacker.
pub(crate) fn alone(rt: &impl Abort) -> Problem {
    let text = "4k4/9/9/9/9/9/9/9/9 b -";
    let position = read_sfen(text.as_bytes()).expect(rt, text);
    accept_problem(position).expect(rt, text)
}

// Those of a search with so many visits and notes.
pub(crate) fn settings(rt: &impl Abort, expansions: u64, room: u32) -> Settings {
    Settings::new(64, expansions, room, 16, 1).expect(rt, "settings")
}
