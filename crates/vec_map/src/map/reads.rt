// Reading a map.
ghost use Rattle.std.specs.Prelude.{◌≡◌, ◌≤◌, min, false, length, take, MatchOption, ◌==◌};
ghost use Rattle.vec_map.specs.Entries.{holds_key, reading, distinct, LastAt, entry_at};
ghost use Rattle.vec_map.specs.Slices.{map_of};
ghost use Rattle.vec_map.specs.Views.{view_map};

use crate::entry::{Entry, Sameness};
use crate::map::VecMap;
use crate::scans::{has_key, last_place};
use crate::view::MapView;

impl<K: Copy, V: Copy> VecMap<'_, K, V> {
    // How many entries of the slice are the map's: never more than there are.
    pub(super) fn count(&self) -> usize
        ensures count { result ≡ length (map_of self.now).entries }
        ensures front { take result self.now.entries.now ≡ (map_of self.now).entries }
        ensures least { result ≡ min self.now.len (length self.now.entries.now) }
    {
        self.len.min(self.entries.len())
    }

    // The map, lent to be read: the calls that ask of its entries go through it.
    pub fn view(&self) -> MapView<'_, K, V>
        ensures { view_map result ≡ map_of self.now }
    {
        let all = &*self.entries;
        MapView {
            entries: &all[..self.count()],
            deduped: self.deduped,
        }
    }

    // How many entries the map has, those of a key that stands twice included.
    pub fn len(&self) -> usize
        ensures count { result ≡ length (map_of self.now).entries }
        ensures front { take result self.now.entries.now ≡ (map_of self.now).entries }
        ensures within { result ≤ length self.now.entries.now }
    {
        self.count()
    }

    // Whether the map has no entry.
    pub fn is_empty(&self) -> bool
        ensures { result ≡ (length (map_of self.now).entries == 0) }
    {
        self.len() == 0
    }

    // Whether the map is flagged as one in which no key stands twice.
    pub fn is_deduped(&self) -> bool
        ensures { result ≡ (map_of self.now).deduped }
    {
        self.deduped
    }

    // The entry at a place, so that a caller can go through them all.
    pub fn entry(&self, i: usize) -> Option<Entry<K, V>>
        ensures { result ≡ entry_at (map_of self.now).entries i }
    {
        self.view().entry(i)
    }

    // What the key reads: the value of its last entry.
    pub fn get<S: Sameness<K>>(&self, by: &S, key: &K) -> Option<V>
        ensures { result ≡ reading (S.Sameness.alike by.now) (map_of self.now).entries key.now }
    {
        self.view().get(by, key)
    }

    // Whether some entry has the key.
    pub fn contains_key<S: Sameness<K>>(&self, by: &S, key: &K) -> bool
        ensures { result ≡ holds_key (S.Sameness.alike by.now) (map_of self.now).entries key.now }
    {
        has_key(self.view().entries, by, key)
    }

    // The place of the last entry with the key, whose value `set_at` then changes.
    pub fn place_of<S: Sameness<K>>(&self, by: &S, key: &K) -> Option<usize>
        ensures { MatchOption result
            (holds_key (S.Sameness.alike by.now) (map_of self.now).entries key.now ≡ false)
            (LastAt (S.Sameness.alike by.now) (map_of self.now).entries key.now) }
    {
        last_place(self.view().entries, by, key)
    }

    // Whether no two entries have one key.
    pub(super) fn is_distinct<S: Sameness<K>>(&self, by: &S) -> bool
        ensures { result ≡ distinct (S.Sameness.alike by.now) (map_of self.now).entries }
    {
        self.view().is_distinct(by)
    }
}
