// Looks, enters and leaves at random keys in a table that is full.
ghost use Rattle.std.specs.Prelude.{◌<◌};

use crate::pace::{Done, print_done};
use crate::words::Asked;
use board_core::Key;
use notes::{Kept, Seen, Update};
use path_tags::Path;
use pn_numbers::Numbers;
use std::alloc::{AllocError, Global};
use std::io;
use std::time::Instant;
use table_shard::{RowPins, Shard};

// Nobody is below any entry.
const NOBODY: [u32; 8] = [0; 8];

// The numbers that entries are given.
const NUMBERS: Numbers = Numbers { pn: 2, dn: 3 };

// A key that no other number has, with words that look random.
fn key(number: u64) -> Key {
    let mut mixed = number.wrapping_mul(0x9e37_79b9_7f4a_7c15);
    mixed = (mixed ^ (mixed >> 30)).wrapping_mul(0xbf58_476d_1ce4_e5b9);
    mixed = mixed ^ (mixed >> 27);
    Key([mixed, number, mixed, number, mixed, number, mixed, mixed])
}

// Numbers in a random order, each below a limit.
#[derive(Drop)]
struct Numbering {
    state: u64,
    limit: u64,
}

impl Numbering {
    fn next(&mut self) -> u64 {
        self.state = self
            .state
            .wrapping_mul(6_364_136_223_846_793_005)
            .wrapping_add(1_442_695_040_888_963_407);
        (self.state >> 20).checked_rem(self.limit).unwrap_or(0)
    }
}

// Counts by which no worker is below a slot.
fn nobody() -> RowPins<'static> {
    RowPins { counts: &NOBODY }
}

// A shard of so many rows, nearly all of them full, and the numbers of keys of which nearly all are
// in it.
fn filled(alloc: Global, rows: usize) -> Result<(Shard, Numbering), AllocError>
    requires { 0 < rows }
{
    let mut shard = Shard::make(alloc, rows)?;
    let limit = (rows as u64).saturating_mul(4);
    for number in 0..limit.saturating_mul(4) {
        let key = key(number);
        shard.enter(shard.spot_of(&key), &key, NUMBERS, &mut nobody());
    }
    Ok((shard, Numbering { state: 1, limit }))
}

fn look_each(
    shard: &Shard,
    path: &Path,
    keys: &mut Numbering,
    rounds: u64,
) -> Result<Done, AllocError> {
    let mut sum: u64 = 0;
    for _ in 0..rounds {
        let key = key(keys.next());
        if let Seen::Open { numbers, .. } = shard.look(
            None,
            shard.spot_of(&key),
            &key,
            path,
            &mut nobody(),
        )? {
            sum = sum.wrapping_add(u64::from(numbers.pn));
        }
    }
    Ok(Done { calls: rounds, sum })
}

fn enter_each(shard: &mut Shard, keys: &mut Numbering, rounds: u64) -> Done {
    let mut sum: u64 = 0;
    for _ in 0..rounds {
        let key = key(keys.next());
        let spot = shard.spot_of(&key);
        if let Kept::Slot(slot) = shard.enter(spot, &key, NUMBERS, &mut nobody()) {
            shard.leave(spot, slot, &key, Update::Numbers(NUMBERS));
            sum = sum.wrapping_add(u64::from(slot));
        }
    }
    Done { calls: rounds, sum }
}

/// Looks, so many times, at random keys in a table of so many rows, where the sum is that of the
/// proof numbers that were found; then enters and leaves such keys, where it is that of the slots
/// that were taken.
pub fn tables(rt: &HostRuntime, asked: &Asked, rows: usize) -> io::Result<()>
    requires { 0 < rows }
{
    println!(rt; "{rows} rows")?;
    let (mut shard, mut keys) = filled(rt.alloc(), rows)?;
    let path = Path::make(rt.alloc());
    let begun = Instant::now(rt)?;
    let done = look_each(&shard, &path, &mut keys, asked.rounds)?;
    print_done(rt, asked, "looks", begun, done)?;
    let begun = Instant::now(rt)?;
    let done = enter_each(&mut shard, &mut keys, asked.rounds);
    print_done(rt, asked, "enters and leaves", begun, done)
}
