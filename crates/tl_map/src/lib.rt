//! A map from bytes to values, which is walked in the order of its keys.
#![tactic(auto)]

ghost use Rattle.std.specs.Prelude.{◌≡◌, ◌↔◌, ◌^◌, ◌<◌, length, IsTrue, IfOk, OnOk, OnErr, IfErr, IsOk, filter, ◌&&◌};
ghost use Rattle.std.specs.Option.{option_copied};
ghost use Rattle.std.specs.Ordering.{nat_cmp, is_le, is_lt};
ghost use Rattle.std.specs.Cmp.Lexicographic.{slice_cmp};
ghost use Rattle.std.specs.FinMap as map;
ghost use Rattle.std.specs.Map.Iter.{ShowsInOrder, deref_pair};
ghost use Rattle.tl_base.specs.declared.bytes.Bytes.{Bytes};

use std::alloc::Global;
use std::collections::BTreeMap;
use std::collections::btree_map::{IntoIter, Iter, Range};
use std::marker::Model;
use std::mem;
use tl_base::{Bytes, Duplicate, NoMemory};

/// A map whose keys are bytes, in their order.
#[derive(Drop)]
pub struct SortedMap<V> {
    tree: BTreeMap<Bytes, V>,
}

impl<V> Model for SortedMap<V> {
    ghost use Rattle.std.specs.Prelude.{IsTrue};
    ghost use Rattle.std.specs.Ordering.{nat_cmp};
    ghost use Rattle.std.specs.Coded.{coded_list, coded_ℕ};
    ghost use Rattle.std.specs.Cmp.Lexicographic.{slice_cmp};
    ghost use Rattle.std.specs.FinMap as map;
    ghost use Rattle.std.specs.FinMap.{is_sorted};

    ghost Value = { map.FinMap (slice_cmp nat_cmp) V };

    ghost coded = { map.code (coded_list coded_ℕ) V.code };

    ghost view = { λ m. map.from_sorted m.tree.entries };

    ghost invariant = { λ m. IsTrue (is_sorted (slice_cmp nat_cmp) m.tree.entries) };
}

impl<V> SortedMap<V> {
    pub fn new(alloc: Global) -> SortedMap<V>
        ensures { result ≡ map.empty }
    {
        SortedMap {
            tree: BTreeMap::new(alloc),
        }
    }

    pub fn get(&self, key: &Bytes) -> Option<&V>
        ensures { option_copied result ≡ map.get self.now key.now }
    {
        self.tree.get(key)
    }

    pub fn contains_key(&self, key: &Bytes) -> bool
        ensures { result ≡ map.contains_key self.now key.now }
    {
        self.tree.contains_key(key)
    }

    /// How many keys there are.
    pub fn len(&self) -> usize
        ensures len { result ≡ map.len self.now }
        ensures fits { result < 2 ^ 63 }
    {
        self.tree.len()
    }

    pub fn is_empty(&self) -> bool
        ensures { IsTrue result ↔ (self.now ≡ map.empty) }
    {
        self.tree.is_empty()
    }

    /// The entries, in the order of their keys.
    pub fn iter(&self) -> Iter<'_, Bytes, V>
        ensures entries { result ≡ map.entries self.now }
        ensures fits { length result < 2 ^ 63 }
        ensures runs { ShowsInOrder (deref_pair {K = Bytes} {X = V}) }
    {
        self.tree.iter()
    }

    /// The entries whose keys are at least `from`, in the order of their keys.
    pub fn range_from(&self, from: &Bytes) -> Range<'_, Bytes, V>
        ensures entries { result ≡ filter (λ e. is_le (slice_cmp nat_cmp from.now e.0)) (map.entries self.now) }
        ensures fits { length result < 2 ^ 63 }
        ensures runs { ShowsInOrder (deref_pair {K = Bytes} {X = V}) }
    {
        self.tree.range(from..)
    }
}

impl<V> SortedMap<V> {
    /// The entries whose keys are at least `from` and below `before`, in the order of their keys.
    pub fn range(&self, from: &Bytes, before: &Bytes) -> Range<'_, Bytes, V>
        ensures entries { result ≡ filter (λ e. is_le (slice_cmp nat_cmp from.now e.0) && is_lt (slice_cmp nat_cmp e.0 before.now)) (map.entries self.now) }
        ensures fits { length result < 2 ^ 63 }
        ensures runs { ShowsInOrder (deref_pair {K = Bytes} {X = V}) }
    {
        if from > before {
            return self.tree.range(before..before);
        }
        self.tree.range(from..before)
    }

    /// Puts the value in the place of the one under the key, which takes no memory, and gives that one. A
    /// value whose key is not there is given back.
    fn replace(&mut self, key: &Bytes, value: V) -> Result<V, V>
        ensures found { IfOk result (λ found. map.get self.old key.now ≡ Some found) }
        ensures replaced { OnOk result (self.new ≡ map.insert self.old key.now value) }
        ensures absent { IfErr result (λ back. (back ≡ value) × (map.get self.old key.now ≡ None)) }
        ensures kept { OnErr result (self.new ≡ self.old) }
    {
        let Some(place) = self.tree.get_mut(key) else {
            return Err(value);
        };
        Ok(mem::replace(place, value))
    }
}

impl<V: Drop> SortedMap<V> {
    /// Puts the value under the key, and gives the value that was there. Without memory the map stays as
    /// it was.
    pub fn insert(&mut self, key: Bytes, value: V) -> Result<Option<V>, NoMemory>
        ensures found { IfOk result (λ found. found ≡ map.get self.old key) }
        ensures ok { OnOk result (self.new ≡ map.insert self.old key value) }
        ensures err { OnErr result (self.new ≡ self.old) }
    {
        let found = self.tree.insert(key, value)?;
        Ok(found)
    }

    /// Puts the value under a copy of the key, or in the place of the value that is there, which takes no
    /// memory. Without memory the map stays as it was.
    pub fn put(&mut self, key: &Bytes, value: V) -> Result<(), NoMemory>
        ensures ok { OnOk result (self.new ≡ map.insert self.old key.now value) }
        ensures err { OnErr result (self.new ≡ self.old) }
        ensures there { IsTrue (map.contains_key self.old key.now) → IsOk result }
    {
        let Err(value) = self.replace(key, value) else {
            return Ok(());
        };
        self.insert(key.copy()?, value)?;
        Ok(())
    }

    /// Takes the key out, and gives the value that was there.
    pub fn remove(&mut self, key: &Bytes) -> Option<V>
        ensures found { result ≡ map.get self.old key.now }
        ensures removed { self.new ≡ map.remove self.old key.now }
    {
        self.tree.remove(key)
    }
}

impl<'a, V> IntoIterator for &'a SortedMap<V> {
    type Item = (&'a Bytes, &'a V);

    type IntoIter = Iter<'a, Bytes, V>;

    ghost into_iter_gives = { λ m entries. entries ≡ map.entries m.now };

    fn into_iter(self) -> Iter<'a, Bytes, V> {
        self.iter()
    }
}

impl<V: Drop> IntoIterator for SortedMap<V> {
    type Item = (Bytes, V);

    type IntoIter = IntoIter<Bytes, V>;

    ghost into_iter_gives = { λ m entries. entries ≡ map.entries m };

    fn into_iter(self) -> IntoIter<Bytes, V> {
        let SortedMap { tree } = self;
        tree.into_iter()
    }
}
