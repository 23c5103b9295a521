// A table handed out as its parts, and made of them.
ghost use Rattle.std.specs.Prelude.{◌≡◌, true, length};
ghost use Rattle.map_table.specs.Tables.{rows_fit, parts_fit, maps_in};
ghost use Rattle.map_table.specs.Rows.{maps_of, stride_fits, TableJoined};

use crate::rows::Row;
use crate::table::bounds::stride_fits;
use crate::table::{MapTable, PartsFault};
use texts::stock::Text;
use vec_map::entry::Entry;

// Whether no row has more entries than the stride.
fn rows_fit(rows: &[Row], stride: usize) -> bool
    ensures { result ≡ rows_fit stride rows.now }
{
    rows.iter().all(|row| row.len <= stride)
}

// Whether the entries are just the places of the rows, each of which has no more of them than it has places.
fn parts_fit<V: Copy>(entries: &[Entry<Text, V>], rows: &[Row], stride: usize) -> bool
    ensures { result ≡ parts_fit stride entries.now rows.now }
{
    rows.len().checked_mul(stride) == Some(entries.len()) && rows_fit(rows, stride)
}

impl<V: Copy> MapTable<V> {
    // The table whose parts these are, with room for the rows that it has: their memory is enough for them.
    pub fn from_parts(
        entries: Vec<Entry<Text, V>>,
        rows: Vec<Row>,
        stride: usize,
        filler: V,
    ) -> Result<MapTable<V>, PartsFault>
        ensures { TableJoined stride entries.items rows.items result }
    {
        if !parts_fit(&entries, &rows, stride) {
            return Err(PartsFault::Broken);
        }
        if !stride_fits(stride) {
            return Err(PartsFault::Stride);
        }
        let room = rows.len();
        Ok(MapTable {
            entries,
            rows,
            stride,
            room,
            filler,
        })
    }

    // The entries of all places, and what is kept of each row, as `from_parts` takes them.
    pub fn into_parts(self) -> (Vec<Entry<Text, V>>, Vec<Row>)
        ensures entries { result.0.items ≡ self.entries.items }
        ensures rows { result.1.items ≡ self.rows.items }
        ensures fit { parts_fit self.stride result.0.items result.1.items ≡ true }
        ensures maps { maps_in self.stride result.0.items result.1.items ≡ maps_of self }
    {
        (self.entries, self.rows)
    }
}
