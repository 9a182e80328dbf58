// Where positions stand in a list, found by the position and by its board.
use crate::letters::problem;
use crate::same::same;
use board_core::key;
use dominance_places::CoverPlaces;
use hand_dominance::Version;
use position_places::{BoardPlaces, Places};
use std::test::Fail;

// Three boards, of which one stands with either side to move, and hands that differ.
const LISTED: [&str; 7] = [
    "4k4/9/4P4/9/9/9/9/9/4K4 b G",
    "4k4/9/9/4P4/9/9/9/9/4K4 b G",
    "4k4/9/4P4/9/9/9/9/9/4K4 w G",
    "4k4/9/4P4/9/9/9/9/9/4K4 b 2R2B4G4S4N4L17P",
    "4k4/9/9/9/9/9/9/9/4K4 b -",
    "4k4/9/4P4/9/9/9/9/9/4K4 b -",
    "4k4/9/4P4/9/9/9/9/9/4K4 b 2r2b4g4s4n4l17p",
];

// On the board of one of them, with another hand.
const OTHER: &str = "4k4/9/4P4/9/9/9/9/9/4K4 w g";

#[test]
fn positions_are_found_by_themselves(rt: HostRuntime) -> Result<(), Fail> {
    let mut places = Places::new(rt.alloc());
    // Those that are listed aren't listed again.
    for _ in 0..2 {
        for (place, text) in LISTED.iter().enumerate() {
            same(&rt, *text, places.add(&problem(&rt, text).position)?, place);
        }
    }
    for (place, text) in LISTED.iter().enumerate() {
        same(
            &rt,
            *text,
            places.find(&problem(&rt, text).position),
            Some(place),
        );
    }
    same(&rt, OTHER, places.find(&problem(&rt, OTHER).position), None);
    same(
        &rt,
        OTHER,
        places.find_key(&key(&problem(&rt, OTHER).position)),
        None,
    );
    Ok(())
}

#[test]
fn room_lists_nothing_by_itself(rt: HostRuntime) -> Result<(), Fail> {
    let mut places = Places::with_room(rt.alloc(), 1)?;
    for (place, text) in LISTED.iter().enumerate() {
        same(&rt, *text, places.find(&problem(&rt, text).position), None);
        same(&rt, *text, places.add(&problem(&rt, text).position)?, place);
    }
    Ok(())
}

#[test]
fn positions_are_found_by_their_boards(rt: HostRuntime) -> Result<(), Fail> {
    let mut places = BoardPlaces::new(rt.alloc());
    for _ in 0..2 {
        for (place, text) in LISTED.iter().enumerate() {
            same(&rt, *text, places.add(&problem(&rt, text).position)?, place);
        }
    }
    let mut found = Vec::new(rt.alloc());
    let wanted: [(&str, &[usize]); 5] = [
        (LISTED[5], &[0, 3, 5, 6]),
        (LISTED[1], &[1]),
        (OTHER, &[2]),
        ("4k4/9/9/4P4/9/9/9/9/4K4 w -", &[]),
        (LISTED[4], &[4]),
    ];
    for (text, wanted) in wanted {
        places.on_board(&problem(&rt, text).position, &mut found)?;
        same(&rt, text, found.as_slice(), wanted);
    }
    Ok(())
}

#[test]
fn positions_are_found_by_their_keys_in_both_versions(rt: HostRuntime) -> Result<(), Fail> {
    for version in [Version::One, Version::Two] {
        let mut places = CoverPlaces::with_room(rt.alloc(), version, 1)?;
        for (place, text) in LISTED.iter().enumerate() {
            let position = problem(&rt, text).position;
            same(&rt, *text, places.find_key(&key(&position)), None);
            same(&rt, *text, places.add(&position)?, place);
            same(&rt, *text, places.find_key(&key(&position)), Some(place));
        }
        same(
            &rt,
            OTHER,
            places.find_key(&key(&problem(&rt, OTHER).position)),
            None,
        );
    }
    Ok(())
}
