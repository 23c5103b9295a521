// Walks over entries.
ghost use Rattle.std.specs.Prelude.{◌≡◌, Bool, false, List, MatchOption};
ghost use Rattle.vec_map.specs.Entries.{holds_key, reading, distinct, LastAt};
ghost use Rattle.vec_map.specs.Readings.{reads};
ghost use Rattle.vec_map.specs.Fronts.{Front, kept_by};

use crate::entry::{Entry, Sameness};
use texts::stock::{Stock, Text};

// Whether some entry has the key.
pub(crate) fn has_key<K: Copy, V: Copy, S: Sameness<K>>(
    entries: &[Entry<K, V>],
    by: &S,
    key: &K,
) -> bool
    ensures { result ≡ holds_key (S.Sameness.alike by.now) entries.now key.now }
{
    entries.iter().any(|e| by.same_key(&e.key, key))
}

// The place of the last entry with the key.
pub(crate) fn last_place<K: Copy, V: Copy, S: Sameness<K>>(
    entries: &[Entry<K, V>],
    by: &S,
    key: &K,
) -> Option<usize>
    ensures { MatchOption result
        (holds_key (S.Sameness.alike by.now) entries.now key.now ≡ false)
        (LastAt (S.Sameness.alike by.now) entries.now key.now) }
{
    entries.iter().rposition(|e| by.same_key(&e.key, key))
}

// The value of the last entry with the key.
pub(crate) fn last_value<K: Copy, V: Copy, S: Sameness<K>>(
    entries: &[Entry<K, V>],
    by: &S,
    key: &K,
) -> Option<V>
    ensures { result ≡ reading (S.Sameness.alike by.now) entries.now key.now }
{
    entries
        .iter()
        .rev()
        .find(|e| by.same_key(&e.key, key))
        .map(|e| e.value)
}

// The value of the last entry whose key is spelt with these bytes. One chain, as the one above: as a function of the test
// it would be as long, and could say only how the test and what is found are related.
pub(crate) fn last_spelt<V: Copy, S: Stock>(
    entries: &[Entry<Text, V>],
    stock: &S,
    key: &[u8],
) -> Option<V>
    ensures { result ≡ reads (S.Stock.meaning stock.now) entries.now key.now }
{
    entries
        .iter()
        .rev()
        .find(|e| stock.bytes(e.key) == key)
        .map(|e| e.value)
}

// Whether no two entries have one key.
pub(crate) fn all_distinct<K: Copy, V: Copy, S: Sameness<K>>(
    entries: &[Entry<K, V>],
    by: &S,
) -> bool
    ensures { result ≡ distinct (S.Sameness.alike by.now) entries.now }
{
    let mut rest = entries;
    while let [first, later @ ..] = rest {
        if has_key(later, by, &first.key) {
            return false;
        }
        rest = later;
    }
    true
}

// Moves the elements that are wanted to the front, in their order, and says how many they are. Each is asked for with
// those kept before it. In place an element is read and written by its index.
pub(crate) fn keep<X: Copy, F: Fn(&[X], &X) -> bool>(items: &mut [X], wanted: F) -> usize
    requires { F.IsAlwaysCallable wanted }
    ensures { (test : List X → X → Bool) → ((kept : _) (x : _) (r : Bool) → F.post wanted kept x r → r ≡ test kept.now x.now) → Front items.new result (kept_by test items.old) }
{
    let mut moved = 0;
    for i in 0..items.len() {
        let x = items[i];
        if wanted(&items[..moved], &x) {
            items[moved] = x;
            moved += 1;
        }
    }
    moved
}
