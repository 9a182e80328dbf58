// Settings at the ends of their ranges and beyond, and desks whose visits and room run out.
use crate::problems::{problem, settings};
use crate::same::same;
use notes::{Draw, RoomAnswer};
use search_limits::{Setting, Settings, SettingsFault, Size, default_shards};
use unit_desk::Desk;

#[test]
fn settings_lie_in_their_ranges_and_sizes_are_powers_of_two(rt: HostRuntime) {
    use Setting::{Expansions, Room, Rows, Shards, Workers};
    use SettingsFault::{MoreShardsThanRows, NotPowerOfTwo, OutOfRange};
    let table = [
        (1, 1, 1, 16, 1, None),
        (64, 1_000_000_000, 1_000_000_000, 16_777_216, 256, None),
        (1, 1_000_000, 1_048_576, 16_384, 16, None),
        (3, 5, 7, 16, 16, None),
        (0, 0, 0, 0, 0, Some(OutOfRange(Workers))),
        (65, 1, 1, 16, 1, Some(OutOfRange(Workers))),
        (1, 0, 0, 17, 3, Some(OutOfRange(Expansions))),
        (1, 1_000_000_001, 1, 16, 1, Some(OutOfRange(Expansions))),
        (1, 1, 0, 8, 1, Some(OutOfRange(Room))),
        (1, 1, 1_000_000_001, 16, 1, Some(OutOfRange(Room))),
        (1, 1, 1, 8, 512, Some(OutOfRange(Rows))),
        (1, 1, 1, 33_554_432, 1, Some(OutOfRange(Rows))),
        (1, 1, 1, 17, 0, Some(OutOfRange(Shards))),
        (1, 1, 1, 16, 512, Some(OutOfRange(Shards))),
        (1, 1, 1, 48, 3, Some(NotPowerOfTwo(Size::Rows))),
        (1, 1, 1, 16, 48, Some(NotPowerOfTwo(Size::Shards))),
        (1, 1, 1, 16, 32, Some(MoreShardsThanRows)),
    ];
    for row in table {
        let (workers, expansions, room, rows, shards, _) = row;
        let found = match Settings::new(workers, expansions, room, rows, shards) {
            Ok(made) => (
                made.workers,
                made.expansions,
                made.room,
                made.rows,
                made.shards,
                None,
            ),
            Err(fault) => (workers, expansions, room, rows, shards, Some(fault)),
        };
        same(&rt, "settings", found, row);
    }
}

#[test]
fn a_table_has_64_shards_unless_told_or_as_many_as_rows(rt: HostRuntime) {
    for (rows, wanted) in [(16, 16), (32, 32), (64, 64), (128, 64), (65_536, 64)] {
        same(&rt, rows, default_shards(rows), wanted);
    }
}

#[test]
fn visits_and_room_are_handed_out_each_once_until_none_is_left(rt: HostRuntime) {
    let alone = problem(&rt, "9/9/9/9/8k/9/9/9/9 b -");
    for (expansions, room) in [(1, 1), (3, 1), (1, 4), (5, 2)] {
        let mut desk = Desk::make(&alone, &settings(&rt, 1, expansions, room));
        for visit in 1..=expansions {
            same(&rt, "drawn before", desk.drawn(), visit - 1);
            same(&rt, "a visit", desk.draw(), Draw::Go(visit));
        }
        for note in 1..=room {
            same(&rt, "claimed before", desk.claimed(), note - 1);
            same(&rt, "a note", desk.claim(), RoomAnswer::Room(note));
        }
        for row in ["none is left", "nor later"] {
            same(&rt, row, desk.draw(), Draw::Spent);
            same(&rt, row, desk.claim(), RoomAnswer::NoRoom);
            same(&rt, row, (desk.drawn(), desk.claimed()), (expansions, room));
        }
        same(&rt, "posted", desk.posted().is_some(), false);
        same(&rt, "kept", desk.into_note().is_some(), false);
    }
}
