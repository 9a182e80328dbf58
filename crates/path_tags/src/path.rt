// Paths, and the index by which a key is found on one.
ghost use Rattle.std.specs.Prelude.{◌≡◌, ◌↔◌, [], ◌∷◌, ◌++◌, OnOk, OnErr, IfSome, IfNone, IsTrue, Contains, length};

use board_core::Key;
use std::alloc::{AllocError, Global};
use std::collections::BTreeMap;
use std::marker::Model;

/// The keys of the attacker's positions on the way of a search, in the order in which they were
/// pushed: the root's first, the latest last. A key may stand on it more than once. It is asked for
/// a key in a time that grows as the logarithm of its length. Contracts see the list.
#[derive(Drop, Debug)]
pub struct Path {
    keys: Vec<Key>,
    index: BTreeMap<Key, usize>,
}

impl Model for Path {
    ghost use Rattle.std.specs.Prelude.{List};
    ghost use Rattle.board_core.specs.declared.keys.Key.{Key};
    ghost use Rattle.path_tags.specs.Path.{IsIndex};

    ghost Value = { List Key };

    ghost view = { λ p. p.keys.items };

    ghost invariant = { λ p. IsIndex p.index p.keys.items };
}

impl Path {
    /// The path with no key on it. Takes no memory.
    pub fn make(alloc: Global) -> Path
        ensures { result ≡ [] }
    {
        Path {
            keys: Vec::new(alloc),
            index: BTreeMap::new(alloc),
        }
    }

    /// Puts a key behind the others. Errors: want of memory alone, and then the path stays as it
    /// was.
    pub fn push(&mut self, key: Key) -> Result<(), AllocError>
        ensures pushed { OnOk result (self.new ≡ self.old ++ key ∷ []) }
        ensures unchanged { OnErr result (self.new ≡ self.old) }
    {
        // Room for the key first: the index isn't touched where there is none.
        self.keys.reserve(1)?;
        let next = self.keys.len();
        self.index.entry(key)?.or_insert(next);
        self.keys.push(key)?;
        Ok(())
    }

    /// Takes the latest key off the path and tells it, or tells that there is none. Takes no
    /// memory.
    pub fn pop(&mut self) -> Option<Key>
        ensures popped { IfSome result (λ key. self.old ≡ self.new ++ key ∷ []) }
        ensures none { IfNone result (self.old ≡ []) }
        ensures unchanged { IfNone result (self.new ≡ self.old) }
    {
        let key = self.keys.pop()?;
        if self.index.get(&key).copied() == Some(self.keys.len()) {
            self.index.remove(&key);
        }
        Some(key)
    }

    /// Whether the key stands on the path. Takes no memory.
    pub fn holds(&self, key: &Key) -> bool
        ensures { IsTrue result ↔ Contains self.now key.now }
    {
        self.index.contains_key(key)
    }

    /// Whether no key stands on the path.
    pub fn is_empty(&self) -> bool
        ensures { IsTrue result ↔ (self.now ≡ []) }
    {
        self.keys.is_empty()
    }

    /// How many keys stand on the path, each as often as it does.
    pub fn len(&self) -> usize
        ensures { result ≡ length self.now }
    {
        self.keys.len()
    }

    /// The keys, the root's first and the latest last.
    pub fn keys(&self) -> &[Key]
        ensures { result.now ≡ self.now }
    {
        &self.keys
    }
}
