// What a port is made of.
use bit_boards::Side;
use search_gate::{Gate, Stop};
use shared_table::RowSeat;
use word_desk::{DeskSeat, WordDesk};

/// How the table is cut, and to whom it lends.
#[derive(Clone, Copy, PartialEq, Eq, Debug)]
pub struct Cut {
    /// In how many shards.
    pub shards: usize,
    /// How many rows each of them has.
    pub own: usize,
    /// The attacker, to whom it lends what it knows of other hands; none where it lends nothing.
    pub to: Option<Side>,
}

/// A worker's seats.
#[derive(Drop)]
pub struct Seats<'a> {
    /// At the words that count workers.
    pub row: RowSeat<'a>,
    /// The desk.
    pub desk: &'a WordDesk,
    /// At the desk's words.
    pub desk_seat: DeskSeat,
}

/// How a worker is watched.
#[derive(Drop)]
pub struct Watch<'a, G: Gate, T: Stop> {
    /// The worker's number, from 1.
    pub number: u32,
    /// What it passes behind each visit that it draws.
    pub gate: &'a G,
    /// What each of its polls asks.
    pub stop: T,
}
