// Tags.
ghost use Rattle.std.specs.Prelude.{◌≡◌, ◌≢◌, ◌↔◌, ◌⊎◌, [], ◌∷◌, OnOk, OnErr, IfOk, IsOk, IsTrue, Contains, length};
ghost use Rattle.board_core.specs.declared.keys.Key.{Key};
ghost use Rattle.path_tags.specs.Tag.{IsRising, IsWithin, joined_without};

use crate::Path;
use crate::merge::first_of;
use board_core::Key;
use std::alloc::{AllocError, Global};
use std::marker::Model;

/// The keys of the positions that a disproof depends on, in the order of keys, each once. The
/// disproof may be used on each path on which all of them stand (Kishimoto and Müller 2004).
/// Contracts see the list.
#[derive(Drop, Debug)]
pub struct Tag {
    keys: Vec<Key>,
}

impl Model for Tag {
    ghost use Rattle.std.specs.Prelude.{List};
    ghost use Rattle.board_core.specs.declared.keys.Key.{Key};
    ghost use Rattle.path_tags.specs.Tag.{IsRising};

    ghost Value = { List Key };

    ghost view = { λ t. t.keys.items };

    ghost invariant = { λ t. IsRising t.keys.items };
}

impl Tag {
    /// The tag of a disproof that depends on no repetition. Takes no memory.
    pub fn empty(alloc: Global) -> Tag
        ensures { result ≡ [] }
    {
        Tag {
            keys: Vec::new(alloc),
        }
    }

    /// The tag of a disproof that depends on one position. Errors: want of memory alone.
    pub fn one(alloc: Global, key: Key) -> Result<Tag, AllocError>
        ensures { IfOk result (λ tag. tag ≡ key ∷ []) }
    {
        let mut keys = Vec::new(alloc);
        keys.push(key)?;
        Ok(Tag { keys })
    }

    /// A tag of the same keys. Errors: want of memory alone, which an empty tag takes none of.
    pub fn copied(&self, alloc: Global) -> Result<Tag, AllocError>
        ensures same { IfOk result (λ tag. tag ≡ self.now) }
        ensures free { self.now ≡ [] → IsOk result }
    {
        let mut keys = Vec::new(alloc);
        keys.extend_from_slice(&self.keys)?;
        Ok(Tag { keys })
    }

    /// Adds the keys of another tag, and takes one key out. So a disproof gets its tag from those
    /// of the disproofs that it needs: its own position's key is taken out, since that position
    /// stands on the path wherever they are used. Errors: want of memory alone, and then the tag
    /// stays as it was; a tag that comes out empty takes none.
    pub fn add_without(&mut self, alloc: Global, other: &Tag, key: &Key) -> Result<(), AllocError>
        ensures joined { OnOk result (self.new ≡ joined_without key.now self.old other.now) }
        ensures holds { OnOk result ((each : Key) → Contains self.new each
            ↔ ((Contains self.old each ⊎ Contains other.now each) × (each ≢ key.now))) }
        ensures rises { OnOk result (IsRising self.new) }
        ensures unchanged { OnErr result (self.new ≡ self.old) }
        ensures free { joined_without key.now self.old other.now ≡ [] → IsOk result }
    {
        let mut keys = Vec::new(alloc);
        let (mut ours, mut theirs) = (self.keys.as_slice(), other.keys());
        while let Some(first) = first_of(ours, theirs) {
            if first.key != *key {
                keys.push(first.key)?;
            }
            ours = first.ours;
            theirs = first.theirs;
        }
        self.keys = keys;
        Ok(())
    }

    /// Whether each key of the tag stands on the path: whether the disproof holds there. Asks the
    /// path at most once for each key. Takes no memory.
    pub fn within(&self, path: &Path) -> bool
        ensures { IsTrue result ↔ IsWithin self.now path.now }
    {
        self.keys.iter().all(|key| path.holds(key))
    }

    /// Whether it has no key: the disproof holds on every path.
    pub fn is_empty(&self) -> bool
        ensures { IsTrue result ↔ (self.now ≡ []) }
    {
        self.keys.is_empty()
    }

    /// How many keys it has.
    pub fn len(&self) -> usize
        ensures { result ≡ length self.now }
    {
        self.keys.len()
    }

    /// Its keys, in their order.
    pub fn keys(&self) -> &[Key]
        ensures keys { result.now ≡ self.now }
        ensures rises { IsRising self.now }
    {
        &self.keys
    }

    /// What the type keeps: the keys rise. Does nothing; whoever wants to know this of a tag calls
    /// it. Takes no memory.
    pub fn laws(&self)
        ensures rises { IsRising self.now }
    {
        let _rising = &self.keys;
    }
}
