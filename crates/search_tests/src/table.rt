// Rows that fill, and numbers and notes that are left.
mod escapes;

ghost use Rattle.std.specs.Prelude.{IfSome};
ghost use Rattle.pn_numbers.specs.Numbers.{IsOpen};
ghost use Rattle.table_shard.specs.Entry.{IsAbout};
ghost use Rattle.table_shard.specs.Row.{HoldsAt};
ghost use Rattle.table_shard.specs.Shard.{row_of};

use crate::same::same;
use board_core::{Key, Kind, Move, Side, key as key_of};
use escapes::{Leaving, checked, evasions, note_of, path_through};
use notes::{Kept, Note, Rule, Seen, Update};
use path_tags::Path;
use pn_numbers::Numbers;
use std::alloc::AllocError;
use std::test::Fail;
use table_shard::{RowPins, Shard};

fn key(word: u64) -> Key {
    Key([word, 0, 0, 0, 0, 0, 0, word])
}

// What a look shows, in short: nothing, or the numbers and how many workers are below; a note is
// told as 0.
fn looked(
    shard: &Shard,
    word: u64,
    path: &Path,
    pins: &[u32; 8],
) -> Result<Option<(u32, u32, u64)>, AllocError> {
    let key = key(word);
    Ok(
        match shard.look(
            None,
            shard.spot_of(&key),
            &key,
            path,
            &mut RowPins { counts: pins },
        )? {
            Seen::New => None,
            Seen::Open { numbers, below } => Some((numbers.pn, numbers.dn, below)),
            Seen::Solved(_) | Seen::Lent(_) => Some((0, 0, 0)),
        },
    )
}

// What entering a key answers.
fn entered(shard: &mut Shard, word: u64, numbers: Numbers, pins: &[u32; 8]) -> Kept
    requires { IsOpen numbers }
{
    let key = key(word);
    shard.enter(
        shard.spot_of(&key),
        &key,
        numbers,
        &mut RowPins { counts: pins },
    )
}

#[test]
fn a_key_has_its_row_among_many_and_among_few(rt: HostRuntime) -> Result<(), Fail> {
    let many = Shard::make(rt.alloc(), 16_384)?;
    let few = Shard::make(rt.alloc(), 16)?;
    // The last word: without hands, with a gold in a hand, and the same with White to move.
    let table = [
        (0, 13648, 0),
        (1 << 14, 13648, 0),
        (1 << 14 | 1 << 42, 5181, 13),
    ];
    for (last, of_many, of_few) in table {
        let key = Key([0, 0, 0, 1046, 0, 0, 0, last]);
        same(&rt, (last, "of many"), many.spot_of(&key).place, of_many);
        same(&rt, (last, "of few"), few.spot_of(&key).place, of_few);
    }
    Ok(())
}

// Eight entries in the one row, and a ninth for each count of workers.
#[test]
fn a_full_row_gives_up_an_entry_that_no_worker_is_below(rt: HostRuntime) -> Result<(), Fail> {
    let path = Path::make(rt.alloc());
    let numbers = Numbers { pn: 2, dn: 3 };
    let all = [1, 1, 1, 1, 1, 1, 1, 1];
    // The counts, what entering answers, and the entry that is given up.
    let table = [
        ([1, 1, 1, 1, 1, 1, 1, 1], Kept::Unkept, None),
        ([1, 1, 1, 0, 1, 1, 1, 1], Kept::Slot(3), Some(3)),
        ([4, 0, 1, 0, 0, 0, 0, 0], Kept::Slot(1), Some(1)),
    ];
    for (pins, kept, given_up) in table {
        let mut shard = Shard::make(rt.alloc(), 1)?;
        for word in 0..8 {
            let found = entered(&mut shard, word, numbers, &all);
            same(&rt, word, found, Kept::Slot(word as u8));
        }
        let again = entered(&mut shard, 5, Numbers::ONE, &all);
        same(&rt, "once more", again, Kept::Slot(5));
        let ninth = entered(&mut shard, 8, Numbers::ONE, &pins);
        same(&rt, pins, ninth, kept);
        for word in 0..8 {
            let shown = looked(&shard, word, &path, &pins)?;
            let wanted = if given_up == Some(word) {
                None
            } else {
                Some((2, 3, u64::from(pins[word as usize])))
            };
            same(&rt, (pins, word), shown, wanted);
        }
        let ninth = looked(&shard, 8, &path, &pins)?;
        same(&rt, pins, ninth, given_up.map(|_| (1, 1, 0)));
    }
    Ok(())
}

// Leaves a note, if there is one.
fn leave(shard: &mut Shard, slot: u8, key: &Key, note: Option<Note>) -> bool
    requires there { HoldsAt (row_of shard.old key.now) slot key.now }
    requires about { IfSome note (IsAbout key.now) }
    ensures { HoldsAt (row_of shard.new key.now) slot key.now }
{
    let Some(note) = note else {
        return false;
    };
    shard.leave(shard.spot_of(key), slot, key, Update::Note(note));
    true
}

// The rules of the notes that looks show on three paths, where they show one.
fn rules_on(shard: &Shard, key: &Key, paths: &[Path; 3]) -> Result<[Option<Rule>; 3], AllocError> {
    let [first, second, third] = paths;
    Ok([
        rule_on(shard, key, first)?,
        rule_on(shard, key, second)?,
        rule_on(shard, key, third)?,
    ])
}

fn rule_on(shard: &Shard, key: &Key, path: &Path) -> Result<Option<Rule>, AllocError> {
    Ok(
        match shard.look(
            None,
            shard.spot_of(key),
            key,
            path,
            &mut RowPins { counts: &[0; 8] },
        )? {
            Seen::Solved(note) => Some(note.rule()),
            _ => None,
        },
    )
}

// A note that is left, and the rules of those that show where the path has the position after the
// first evasion, where it has those after all, and where it has none.
fn left_in_turn(moves: [Move; 5]) -> [(Leaving, [Option<Rule>; 3]); 7] {
    let [first, second, third, fourth, fifth] = moves;
    let (one, two) = (Rule::EscapeRepeat(first), Rule::EscapeRepeat(second));
    let closed = Some(Rule::EscapeBy(first));
    [
        (Leaving::Repeat(first), [Some(one), Some(one), None]),
        (Leaving::Repeat(second), [Some(one), Some(one), None]),
        (Leaving::Repeat(third), [Some(one), Some(one), None]),
        (Leaving::Repeat(fourth), [Some(one), Some(one), None]),
        // The first goes for the fifth.
        (Leaving::Repeat(fifth), [None, Some(two), None]),
        (Leaving::Escape(first), [closed, closed, closed]),
        // None is kept beside one that holds on every path.
        (Leaving::Repeat(second), [closed, closed, closed]),
    ]
}

// A king has five evasions; each is noted as a repetition, and the first, which takes the rook, as
// an escape for good.
#[test]
fn a_note_counts_where_its_position_is_on_the_path(rt: HostRuntime) -> Result<(), Fail> {
    let alloc = rt.alloc();
    let Some((problem, position)) = checked() else {
        return Err(Fail::from("no position"));
    };
    let moves = evasions();
    let [first, _, _, _, _] = moves;
    let paths = [
        path_through(alloc, &problem, &position, &[first])?,
        path_through(alloc, &problem, &position, &moves)?,
        Path::make(alloc),
    ];
    let key = key_of(&position);
    let mut shard = Shard::make(alloc, 3)?;
    let spot = shard.spot_of(&key);
    let Kept::Slot(slot) = shard.enter(spot, &key, Numbers::ONE, &mut RowPins { counts: &[0; 8] })
    else {
        return Err(Fail::from("no slot"));
    };
    for (leaving, wanted) in left_in_turn(moves) {
        let note = note_of(alloc, &problem, &position, leaving);
        let left = leave(&mut shard, slot, &key, note);
        same(&rt, leaving, left, true);
        same(&rt, leaving, rules_on(&shard, &key, &paths)?, wanted);
    }
    Ok(())
}

// What a look shows, without its numbers and notes.
#[derive(Clone, Copy, Debug, PartialEq)]
enum Sight {
    New,
    Open,
    Solved,
    Lent,
}

// What a look shows on that path, where the table lends to that side.
fn shown(shard: &Shard, to: Option<Side>, key: &Key, path: &Path) -> Result<Sight, AllocError> {
    Ok(
        match shard.look(
            to,
            shard.spot_of(key),
            key,
            path,
            &mut RowPins { counts: &[0; 8] },
        )? {
            Seen::New => Sight::New,
            Seen::Open { .. } => Sight::Open,
            Seen::Solved(_) => Sight::Solved,
            Seen::Lent(_) => Sight::Lent,
        },
    )
}

// The key of the same board with a gold more in a side's hand.
fn richer(key: &Key, side: Side) -> Key {
    let mut other = *key;
    other.gain(side, Kind::Gold);
    other
}

// What looks show at the key, at the richer defender, at the richer attacker, at the defender for
// the other side, and at him where nothing is lent.
fn all_shown(shard: &Shard, key: &Key, path: &Path) -> Result<[Sight; 5], AllocError> {
    let (his, its) = (richer(key, Side::White), richer(key, Side::Black));
    Ok([
        shown(shard, Some(Side::Black), key, path)?,
        shown(shard, Some(Side::Black), &his, path)?,
        shown(shard, Some(Side::Black), &its, path)?,
        shown(shard, Some(Side::White), &his, path)?,
        shown(shard, None, &his, path)?,
    ])
}

// Notes that are left in turn, and what looks show then.
fn lent_in_turn(first: Move, second: Move) -> [(Leaving, [Sight; 5]); 3] {
    let lent = [
        Sight::Solved,
        Sight::Lent,
        Sight::New,
        Sight::New,
        Sight::New,
    ];
    [
        (
            Leaving::Repeat(first),
            [Sight::Open, Sight::New, Sight::New, Sight::New, Sight::New],
        ),
        (Leaving::Escape(first), lent),
        (Leaving::Repeat(second), lent),
    ]
}

// A checked king escapes, by repeating or for good, and White may have a gold to interpose.
#[test]
fn a_note_is_lent_to_other_hands(rt: HostRuntime) -> Result<(), Fail> {
    let alloc = rt.alloc();
    let Some((problem, position)) = checked() else {
        return Err(Fail::from("no position"));
    };
    let [first, second, _, _, _] = evasions();
    let (path, key) = (Path::make(alloc), key_of(&position));
    let mut shard = Shard::make(alloc, 3)?;
    let spot = shard.spot_of(&key);
    let Kept::Slot(slot) = shard.enter(spot, &key, Numbers::ONE, &mut RowPins { counts: &[0; 8] })
    else {
        return Err(Fail::from("no slot"));
    };
    for (leaving, wanted) in lent_in_turn(first, second) {
        let note = note_of(alloc, &problem, &position, leaving);
        let left = leave(&mut shard, slot, &key, note);
        same(&rt, leaving, left, true);
        same(&rt, leaving, all_shown(&shard, &key, &path)?, wanted);
    }
    // An entry of his own shows only where nothing is lent to him.
    let his = richer(&key, Side::White);
    let spot = shard.spot_of(&his);
    let _slot = shard.enter(spot, &his, Numbers::ONE, &mut RowPins { counts: &[1; 8] });
    let wanted = [
        Sight::Solved,
        Sight::Lent,
        Sight::New,
        Sight::Open,
        Sight::Open,
    ];
    same(&rt, "entered", all_shown(&shard, &key, &path)?, wanted);
    Ok(())
}
