// What a call does to the map of one row.
ghost use Rattle.std.specs.Prelude.{◌≡◌, ◌≤◌, length, ◌==◌};
ghost use Rattle.texts.specs.Outcomes.{leaves, answers};
ghost use Rattle.map_table.specs.Edits.{edit_on, row_map};
ghost use Rattle.vec_map.specs.Slices.{map_of, Worked};
ghost use Rattle.map_table.specs.EditsLemmas.{number_equivalence};

use crate::rows::Row;
use texts::stock::Text;
use vec_map::entry::{Entry, Sameness};
use vec_map::fault::MapFault;
use vec_map::map::VecMap;

// The calls that change one map, as a value, so that a table cuts out a row's places in one way for all of them. What
// each comes to is a definition over the value, which a closure does not give.
#[derive(Clone, Copy)]
pub enum Edit<V> {
    Insert(Text, V),
    Remove(Text),
    Dedup,
    Claim,
}

// Keys that are the same where their numbers are, for an edit that compares none.
pub struct ByNumber;

impl Sameness<Text> for ByNumber {
    ghost alike = { λ _ a b. (a.number == b.number) };

    ghost equivalence = { λ _. number_equivalence };

    fn same_key(&self, a: &Text, b: &Text) -> bool {
        a.number == b.number
    }
}

impl<V: Copy> Edit<V> {
    // Makes the call on a map.
    fn run<S: Sameness<Text>>(self, map: &mut VecMap<'_, Text, V>, by: &S) -> Result<(), MapFault>
        ensures worked { Worked (edit_on (S.Sameness.alike by.now) (length map.old.entries.now) self (map_of map.old)) map.old map.new result }
    {
        match self {
            Edit::Insert(key, value) => map.insert(key, value),
            Edit::Remove(key) => {
                map.remove_slow(by, &key);
                Ok(())
            }
            Edit::Dedup => {
                map.dedup(by);
                Ok(())
            }
            Edit::Claim => map.mark_deduped(by),
        }
    }
}

// Edits the map over a row's own places, and answers what is to be kept of the row.
pub(crate) fn edit_places<V: Copy, S: Sameness<Text>>(
    places: &mut [Entry<Text, V>],
    row: Row,
    by: &S,
    edit: Edit<V>,
) -> (Row, Result<(), MapFault>)
    ensures told { result.1 ≡ answers (edit_on (S.Sameness.alike by.now) (length places.old) edit (row_map places.old row)) }
    ensures left { row_map places.new result.0 ≡ leaves (row_map places.old row) (edit_on (S.Sameness.alike by.now) (length places.old) edit (row_map places.old row)) }
    ensures fits { result.0.len ≤ length places.old }
{
    let mut map = VecMap::over(places, row.len, row.deduped);
    let told = edit.run(&mut map, by);
    (Row::from(map.view()), told)
}
