// One map over a slice of entries.
ghost use Rattle.std.specs.Prelude.{◌≡◌, take};
ghost use Rattle.vec_map.specs.Maps.{blank};
ghost use Rattle.vec_map.specs.Slices.{map_of};

use crate::entry::Entry;

mod reads;
mod writes;

// The first `len` entries of a slice; `deduped` says that no two of them have one key, whether there are any or not. No
// `Vec`, since a row of a table has its places from the making of the table.
#[derive(Drop)]
pub struct VecMap<'a, K, V> {
    entries: &'a mut [Entry<K, V>],
    len: usize,
    deduped: bool,
}

impl<'a, K: Copy, V: Copy> VecMap<'a, K, V> {
    // An empty map, for which every place of the slice is free.
    pub fn new(entries: &'a mut [Entry<K, V>]) -> Self
        ensures lends { result.entries.ghost_name ≡ entries.entry.ghost_name }
        ensures slice { result.entries.now ≡ entries.old }
        ensures map { map_of result ≡ blank }
    {
        VecMap::over(entries, 0, false)
    }

    // The map that the first `len` entries of the slice are, or all of them where there are fewer.
    pub fn over(entries: &'a mut [Entry<K, V>], len: usize, deduped: bool) -> Self
        ensures lends { result.entries.ghost_name ≡ entries.entry.ghost_name }
        ensures slice { result.entries.now ≡ entries.old }
        ensures map { map_of result ≡ record { entries = take len entries.entry.now; deduped = deduped } }
    {
        VecMap {
            entries,
            len,
            deduped,
        }
    }
}
