// Changing the rows of a table. What a call leaves is one record (`RowWorked`); only the steps below the calls, and a
// truncation, which is of no one row, say by themselves that the shape stays.
ghost use Rattle.std.specs.Prelude.{◌≡◌, ◌<◌, [], ◌∷◌, ◌++◌, take, vec_len, slice_index_or, slice_set};
ghost use Rattle.map_table.specs.Edits.{edit_on};
ghost use Rattle.vec_map.specs.Maps.{blank, removed, tidied, insert_into, claim_on, always};
ghost use Rattle.map_table.specs.Rows.{maps_of, ShapeStays, RowWorked, RowEdited, row_added, row_copied};
ghost use Rattle.map_table.specs.Tables.{OutsideStays};

use crate::rows::Row;
use crate::table::MapTable;
use crate::table::edits::{ByNumber, Edit, edit_places};
use texts::stock::Text;
use vec_map::entry::{Entry, Sameness};
use vec_map::fault::MapFault;

impl<V: Copy> MapTable<V> {
    // Edits the map of a row over its places, and keeps what the edit leaves of the row.
    fn edit_row<S: Sameness<Text>>(
        &mut self,
        by: &S,
        row: usize,
        edit: Edit<V>,
    ) -> Result<(), MapFault>
        ensures { RowEdited (edit_on (S.Sameness.alike by.now) self.old.stride edit) row self.old self.new result }
    {
        let kept = *self.rows.get(row).ok_or(MapFault::NoPlace)?;
        let start = self.start_of(row);
        let end = start + self.stride;
        let (kept, told) = edit_places(&mut self.entries[start..end], kept, by, edit);
        self.rows[row] = kept;
        told
    }

    // Edits the map of a row in its own places of the table. The four calls below are this one, each with its edit.
    pub fn edit<S: Sameness<Text>>(
        &mut self,
        by: &S,
        row: usize,
        edit: Edit<V>,
    ) -> Result<(), MapFault>
        ensures { RowEdited (edit_on (S.Sameness.alike by.now) self.old.stride edit) row self.old self.new result }
    {
        self.edit_row(by, row, edit)
    }

    // Appends an entry to a row, and clears its flag. It compares no keys, so any sameness serves.
    pub fn insert(&mut self, row: usize, key: Text, value: V) -> Result<(), MapFault>
        ensures { RowEdited (insert_into self.old.stride key value) row self.old self.new result }
    {
        self.edit(&ByNumber, row, Edit::Insert(key, value))
    }

    // Takes every entry of the key out of a row, and keeps its flag.
    pub fn remove<S: Sameness<Text>>(
        &mut self,
        by: &S,
        row: usize,
        key: Text,
    ) -> Result<(), MapFault>
        ensures { RowEdited (always (removed (S.Sameness.alike by.now) key)) row self.old self.new result }
    {
        self.edit(by, row, Edit::Remove(key))
    }

    // Leaves the last entry of each key in a row, the latest first, and flags it.
    pub fn dedup<S: Sameness<Text>>(&mut self, by: &S, row: usize) -> Result<(), MapFault>
        ensures { RowEdited (always (tidied (S.Sameness.alike by.now))) row self.old self.new result }
    {
        self.edit(by, row, Edit::Dedup)
    }

    // Flags a row on the caller's word, which is looked into: keys that stand twice are refused.
    pub fn claim<S: Sameness<Text>>(&mut self, by: &S, row: usize) -> Result<(), MapFault>
        ensures { RowEdited (claim_on (S.Sameness.alike by.now)) row self.old self.new result }
    {
        self.edit(by, row, Edit::Claim)
    }

    // Appends a row with no entries, where there is room for one more.
    pub fn add_row(&mut self) -> Result<(), MapFault>
        ensures { RowWorked (row_added self.old.room (maps_of self.old)) (vec_len self.old.rows) self.old self.new result }
    {
        if self.count() >= self.room {
            return Err(MapFault::Full);
        }
        self.append_row();
        Ok(())
    }

    // The memory was taken at the making, so neither growth can fail.
    fn append_row(&mut self)
        requires { vec_len self.old.rows < self.old.room }
        ensures maps { maps_of self.new ≡ maps_of self.old ++ blank ∷ [] }
        ensures outside { OutsideStays self.old.stride (vec_len self.old.rows) self.old.entries.items self.new.entries.items }
        ensures shape { ShapeStays self.old self.new }
    {
        let filler = Entry {
            key: Text { number: 0 },
            value: self.filler,
        };
        let places = self.entries.len() + self.stride;
        let _ = self.entries.resize(places, filler);
        self.rows.push_reserved(Row {
            len: 0,
            deduped: false,
        });
    }

    // Copies the map of one row over that of another; both must be there.
    pub fn copy_row(&mut self, from: usize, to: usize) -> Result<(), MapFault>
        ensures { RowWorked (row_copied from to (maps_of self.old)) to self.old self.new result }
    {
        let rows = self.count();
        if from >= rows || to >= rows {
            return Err(MapFault::NoPlace);
        }
        self.overwrite(from, to);
        Ok(())
    }

    // Copies a row's places and what is kept of it.
    fn overwrite(&mut self, from: usize, to: usize)
        requires source { from < vec_len self.old.rows }
        requires target { to < vec_len self.old.rows }
        ensures maps { maps_of self.new ≡ slice_set (maps_of self.old) to (slice_index_or (maps_of self.old) from blank) }
        ensures outside { OutsideStays self.old.stride to self.old.entries.items self.new.entries.items }
        ensures shape { ShapeStays self.old self.new }
    {
        let source = self.start_of(from);
        let target = self.start_of(to);
        let end = source + self.stride;
        self.entries.copy_within(source..end, target);
        self.rows[to] = self.rows[from];
    }

    // Takes away the rows from a place on, so that a caller can undo what it added.
    pub fn truncate(&mut self, rows: usize)
        ensures maps { maps_of self.new ≡ take rows (maps_of self.old) }
        ensures shape { ShapeStays self.old self.new }
    {
        if rows < self.count() {
            self.keep_rows(rows);
        }
    }

    // Cuts the places and the rows at the same row.
    fn keep_rows(&mut self, rows: usize)
        requires { rows < vec_len self.old.rows }
        ensures maps { maps_of self.new ≡ take rows (maps_of self.old) }
        ensures shape { ShapeStays self.old self.new }
    {
        let places = self.start_of(rows);
        self.entries.truncate(places);
        self.rows.truncate(rows);
    }
}
