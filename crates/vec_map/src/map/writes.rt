// Changing a map. What a call does to flags is said in each contract, by the sameness that the call takes.
ghost use Rattle.std.specs.Prelude.{◌≡◌, Bool, true, false, length, is_ok, Some, None};
ghost use Rattle.vec_map.specs.Keys.{Equivalence};
ghost use Rattle.vec_map.specs.Entries.{distinct, LastAt};
ghost use Rattle.vec_map.specs.Maps.{removed, tidied, cleared, insert_into, write_into, claim_on};
ghost use Rattle.vec_map.specs.Readings.{ReadsWith, ReadsAlike, FlagHolds};
ghost use Rattle.vec_map.specs.Slices.{map_of, Became, Worked};

use crate::entry::{Entry, Sameness};
use crate::fault::MapFault;
use crate::fronts::{append, remove_earlier, remove_key, rewrite};
use crate::map::VecMap;

impl<K: Copy, V: Copy> VecMap<'_, K, V> {
    // Appends an entry, which is then the last of its key. The flag goes, since the key may stand there already.
    pub fn insert(&mut self, key: K, value: V) -> Result<(), MapFault>
        ensures worked { Worked (insert_into (length self.old.entries.now) key value (map_of self.old)) self.old self.new result }
        ensures reads { (same : K → K → Bool) → Equivalence same → is_ok result ≡ true → ReadsWith same (map_of self.old) (map_of self.new) key (Some value) }
        ensures keeps { (same : K → K → Bool) → Equivalence same → FlagHolds same (map_of self.old) → FlagHolds same (map_of self.new) }
    {
        if self.count() >= self.entries.len() {
            return Err(MapFault::Full);
        }
        append(self.entries, self.len, Entry { key, value });
        self.len += 1;
        self.deduped = false;
        Ok(())
    }

    // Writes the value of the entry at a place, under its key.
    pub fn set_at(&mut self, place: usize, value: V) -> Result<(), MapFault>
        ensures worked { Worked (write_into place value (map_of self.old)) self.old self.new result }
        ensures reads { (same : K → K → Bool) → Equivalence same → (k : K) → LastAt same (map_of self.old).entries k place → ReadsWith same (map_of self.old) (map_of self.new) k (Some value) }
        ensures keeps { (same : K → K → Bool) → Equivalence same → FlagHolds same (map_of self.old) → FlagHolds same (map_of self.new) }
    {
        if place >= self.count() {
            return Err(MapFault::NoPlace);
        }
        rewrite(self.entries, self.len, place, value);
        Ok(())
    }

    // Takes out every entry of the key, in one pass over all of them.
    pub fn remove_slow<S: Sameness<K>>(&mut self, by: &S, key: &K)
        ensures became { Became self.old self.new (removed (S.Sameness.alike by.now) key.now (map_of self.old)) }
        ensures reads { ReadsWith (S.Sameness.alike by.now) (map_of self.old) (map_of self.new) key.now None }
        ensures keeps { FlagHolds (S.Sameness.alike by.now) (map_of self.old) → FlagHolds (S.Sameness.alike by.now) (map_of self.new) }
    {
        self.len = remove_key(self.entries, self.len, by, key);
    }

    // Leaves the last entry of each key, the latest first, and sets the flag. A flagged map has nothing to leave out.
    pub fn dedup<S: Sameness<K>>(&mut self, by: &S)
        ensures became { Became self.old self.new (tidied (S.Sameness.alike by.now) (map_of self.old)) }
        ensures reads { ReadsAlike (S.Sameness.alike by.now) (map_of self.old) (map_of self.new) }
        ensures apart { (map_of self.old).deduped ≡ false → distinct (S.Sameness.alike by.now) (map_of self.new).entries ≡ true }
        ensures keeps { FlagHolds (S.Sameness.alike by.now) (map_of self.old) → FlagHolds (S.Sameness.alike by.now) (map_of self.new) }
    {
        if self.deduped {
            return;
        }
        self.len = remove_earlier(self.entries, self.len, by);
        self.deduped = true;
    }

    // Sets the flag on the caller's word, which is looked into: keys that stand twice are refused.
    pub fn mark_deduped<S: Sameness<K>>(&mut self, by: &S) -> Result<(), MapFault>
        ensures worked { Worked (claim_on (S.Sameness.alike by.now) (map_of self.old)) self.old self.new result }
        ensures reads { ReadsAlike (S.Sameness.alike by.now) (map_of self.old) (map_of self.new) }
        ensures keeps { FlagHolds (S.Sameness.alike by.now) (map_of self.old) → FlagHolds (S.Sameness.alike by.now) (map_of self.new) }
    {
        if !self.is_distinct(by) {
            return Err(MapFault::Twice);
        }
        self.deduped = true;
        Ok(())
    }

    // Takes out every entry, and leaves the flag as it is: no key stands twice in an empty map.
    pub fn clear(&mut self)
        ensures became { Became self.old self.new (cleared (map_of self.old)) }
    {
        self.len = 0;
    }
}
