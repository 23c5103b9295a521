// Work on the first `len` entries of a slice, which are a map's. (The slice and its count go together here alone: everywhere
// else they are a `VecMap`, which these work below.)
ghost use Rattle.std.specs.Prelude.{◌≡◌, ◌+◌, ◌<◌, Bool, true, [], ◌∷◌, ◌++◌, reverse, length, take, if◌then◌else◌, Some, None};
ghost use Rattle.vec_map.specs.Keys.{Equivalence};
ghost use Rattle.vec_map.specs.Entries.{reading, without, lasts, distinct, with_value, LastAt};
ghost use Rattle.vec_map.specs.Fronts.{Turned};

use crate::entry::{Entry, Sameness};
use crate::scans::{has_key, keep};

// Writes an entry behind the first `len`.
pub(crate) fn append<K: Copy, V: Copy>(entries: &mut [Entry<K, V>], len: usize, entry: Entry<K, V>)
    requires { len < length entries.old }
    ensures turned { Turned entries.old len entries.new (len + 1) (take len entries.old ++ entry ∷ []) }
    ensures reads { (same : K → K → Bool) → Equivalence same → (q : K) → reading same (take (len + 1) entries.new) q ≡ (if same entry.key q then Some entry.value else reading same (take len entries.old) q) }
{
    entries[len] = entry;
}

// Writes the value of an entry of the first `len`.
pub(crate) fn rewrite<K: Copy, V: Copy>(
    entries: &mut [Entry<K, V>],
    len: usize,
    place: usize,
    value: V,
)
    requires held { place < len }
    requires within { place < length entries.old }
    ensures turned { Turned entries.old len entries.new len (with_value (take len entries.old) place value) }
    ensures reads { (same : K → K → Bool) → Equivalence same → (k : K) → LastAt same (take len entries.old) k place → (q : K) → reading same (take len entries.new) q ≡ (if same k q then Some value else reading same (take len entries.old) q) }
    ensures apart { (same : K → K → Bool) → Equivalence same → distinct same (take len entries.new) ≡ distinct same (take len entries.old) }
{
    entries[place].value = value;
}

// Takes every entry of the key out of the first `len`, and says how many are left.
pub(crate) fn remove_key<K: Copy, V: Copy, S: Sameness<K>>(
    entries: &mut [Entry<K, V>],
    len: usize,
    by: &S,
    key: &K,
) -> usize
    ensures turned { Turned entries.old len entries.new result (without (S.Sameness.alike by.now) (take len entries.old) key.now) }
    ensures reads { (q : K) → reading (S.Sameness.alike by.now) (take result entries.new) q ≡ (if S.Sameness.alike by.now key.now q then None else reading (S.Sameness.alike by.now) (take len entries.old) q) }
    ensures apart { distinct (S.Sameness.alike by.now) (take len entries.old) ≡ true → distinct (S.Sameness.alike by.now) (take result entries.new) ≡ true }
{
    let n = len.min(entries.len());
    keep(&mut entries[..n], |_, e| !by.same_key(&e.key, key))
}

// Leaves of the first `len` the last entry of each key, the latest first, and says how many they are.
pub(crate) fn remove_earlier<K: Copy, V: Copy, S: Sameness<K>>(
    entries: &mut [Entry<K, V>],
    len: usize,
    by: &S,
) -> usize
    ensures turned { Turned entries.old len entries.new result (reverse (lasts (S.Sameness.alike by.now) (take len entries.old))) }
    ensures reads { (q : K) → reading (S.Sameness.alike by.now) (take result entries.new) q ≡ reading (S.Sameness.alike by.now) (take len entries.old) q }
    ensures apart { distinct (S.Sameness.alike by.now) (take result entries.new) ≡ true }
{
    let n = len.min(entries.len());
    let first = &mut entries[..n];
    first.reverse();
    keep(first, |kept, e| !has_key(kept, by, &e.key))
}
