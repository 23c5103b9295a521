// A map that is lent to be read.
ghost use Rattle.std.specs.Prelude.{◌≡◌, length};
ghost use Rattle.vec_map.specs.Entries.{entry_at, reading, distinct};
ghost use Rattle.vec_map.specs.Readings.{reads};
ghost use Rattle.vec_map.specs.Views.{view_map};

use crate::entry::{Entry, Sameness};
use crate::scans::{all_distinct, last_spelt, last_value};
use texts::stock::{Stock, Text};

// All entries of a slice; `deduped` says that no two of them have one key, whether there are any or not.
#[derive(Clone, Copy)]
pub struct MapView<'a, K, V> {
    pub entries: &'a [Entry<K, V>],
    pub deduped: bool,
}

impl<K: Copy, V: Copy> MapView<'_, K, V> {
    // How many entries the map has, those of a key that stands twice included.
    pub fn len(&self) -> usize
        ensures { result ≡ length (view_map self.now).entries }
    {
        self.entries.len()
    }

    // Whether the map is flagged as one in which no key stands twice.
    pub fn is_deduped(&self) -> bool
        ensures { result ≡ (view_map self.now).deduped }
    {
        self.deduped
    }

    // The entry at a place, so that a caller can go through them all.
    pub fn entry(&self, i: usize) -> Option<Entry<K, V>>
        ensures { result ≡ entry_at (view_map self.now).entries i }
    {
        self.entries.get(i).copied()
    }

    // What the key reads: the value of its last entry.
    pub fn get<S: Sameness<K>>(&self, by: &S, key: &K) -> Option<V>
        ensures { result ≡ reading (S.Sameness.alike by.now) (view_map self.now).entries key.now }
    {
        last_value(self.entries, by, key)
    }

    // Whether no two entries have one key.
    pub fn is_distinct<S: Sameness<K>>(&self, by: &S) -> bool
        ensures { result ≡ distinct (S.Sameness.alike by.now) (view_map self.now).entries }
    {
        all_distinct(self.entries, by)
    }
}

impl<V: Copy> MapView<'_, Text, V> {
    // What the key with these bytes reads. No stock has to hold them as a text.
    pub fn read<S: Stock>(&self, stock: &S, key: &[u8]) -> Option<V>
        ensures { result ≡ reads (S.Stock.meaning stock.now) (view_map self.now).entries key.now }
    {
        last_spelt(self.entries, stock, key)
    }
}
