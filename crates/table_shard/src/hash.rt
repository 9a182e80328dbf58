// Which row a key has, and how it is told apart there at a glance.
ghost use Rattle.std.specs.Prelude.{◌≡◌, ◌<◌, ◌≤◌, ◌+◌, ◌*◌, ◌/◌, ◌%◌, ◌^◌, ℕ};
ghost use Rattle.board_core.specs.declared.keys.Key.{Key};
ghost use Rattle.table_shard.specs.Spot.{hash_over, hash_of, spot_of, place_of, word_of};

use board_core::Key;
use hand_dominance::board_of;

// What a hash is multiplied by.
pub(crate) const MULTIPLIER: u64 = 1_442_695_040_888_963_407;

// Hashes are below this prime, 2^61 - 1.
pub(crate) const MODULUS: u64 = 2_305_843_009_213_693_951;

// The multiplier's powers modulo that prime, the eighth first.
pub(crate) const POWERS: [u64; 8] = [
    1_667_393_777_810_465_414,
    1_984_756_286_431_158_282,
    1_326_976_529_174_680_866,
    2_081_708_393_209_093_232,
    1_482_615_688_415_304_670,
    625_503_576_604_529_627,
    61_630_319_319_281_164,
    1_442_695_040_888_963_407,
];

// A number modulo the prime.
fn reduced(number: u128) -> u64
    ensures { result ≡ number % MODULUS }
{
    let once = (number >> 61) + (number & u128::from(MODULUS));
    let twice = (once >> 61) as u64 + (once & u128::from(MODULUS)) as u64;
    if twice >= MODULUS {
        return twice - MODULUS;
    }
    twice
}

// A word of a key times a power of the multiplier.
fn weighed(word: u64, power: u64) -> u128
    requires { power < 2 ^ 61 }
    ensures product { result ≡ word * power }
    ensures small { result < 2 ^ 125 }
{
    u128::from(word) * u128::from(power)
}

// The hash of eight words. Each word is multiplied by its own power, so that none waits for the
// hash of those before it.
fn hash_over(words: &[u64; 8]) -> u64
    ensures { result ≡ hash_over words.now }
{
    let sum = weighed(words[0], POWERS[0])
        + weighed(words[1], POWERS[1])
        + weighed(words[2], POWERS[2])
        + weighed(words[3], POWERS[3])
        + weighed(words[4], POWERS[4])
        + weighed(words[5], POWERS[5])
        + weighed(words[6], POWERS[6])
        + weighed(words[7], POWERS[7]);
    reduced(sum)
}

// The hash of a key, whatever its hands.
pub(crate) fn hash_of(key: &Key) -> u64
    ensures { result ≡ hash_of key.now.0 }
{
    hash_over(&board_of(key).0)
}

/// Where a table has a position: in which row, and by which mark the entries of its board there are
/// told apart at a glance. Both are of a hash of the key's words without the hands, so that all
/// hands of a board share a row; it is reckoned once for all that is asked of the table at a time.
#[derive(Clone, Copy, Debug)]
pub struct Spot {
    /// The row, from 0.
    pub place: usize,
    /// A part of the hash: entries of one board and side to move have one mark.
    pub mark: u32,
}

// In which of so many rows a hash names a place: the hash modulo the rows, which for a power of two
// are its last bits.
fn place_of(hash: u64, rows: u64) -> u64
    requires { 0 < rows }
    ensures { result ≡ hash % rows }
{
    let bits = rows.trailing_zeros();
    if 1 << bits == rows {
        return hash & (rows - 1);
    }
    hash % rows
}

// Where a table of so many rows has the position of a key whose hash this is: in the row that the
// hash modulo the rows names.
pub(crate) fn spot_at(hash: u64, rows: usize) -> Spot
    requires { 0 < rows }
    ensures spot { (key : Key) → hash ≡ hash_of key.0 → result ≡ spot_of key rows }
    ensures there { result.place < rows }
{
    Spot {
        place: place_of(hash, rows as u64) as usize,
        mark: (hash >> 32) as u32,
    }
}

/// Where a table that is cut into shards has a position: in which shard, by which hash that shard
/// finds it, and which word counts the visits below the first slot of its row; the words of the
/// other slots follow it.
#[derive(Clone, Copy, Debug)]
pub struct Site {
    /// The shard, from 0.
    pub shard: usize,
    /// The hash of the key's words without the hands.
    pub hash: u64,
    /// The word of the row's first slot, from 0.
    pub word: usize,
}

/// Where a table of so many shards, each of `own` rows, has the position of a key: in the row that
/// a hash of the key's words without the hands names, modulo all rows. The shards have the rows in
/// their order, so a shard finds the row's place among its own by that hash. Takes no memory.
pub fn site_of(key: &Key, shards: usize, own: usize) -> Site
    requires shards { 0 < shards }
    requires own { 0 < own }
    requires few { shards * own ≤ 2 ^ 40 }
    ensures shard { result.shard ≡ place_of key.now (shards * own) / own }
    ensures within { result.shard < shards }
    ensures hash { result.hash ≡ hash_of key.now.0 }
    ensures place { place_of key.now own ≡ place_of key.now (shards * own) % own }
    ensures words { (slot : ℕ) → slot < 8 → word_of (shards * own) key.now slot
        ≡ result.word + slot }
    ensures inside { result.word + 8 ≤ 8 * (shards * own) }
{
    let hash = hash_of(key);
    let row = place_of(hash, (shards * own) as u64) as usize;
    Site {
        shard: row / own,
        hash,
        word: 8 * row,
    }
}
