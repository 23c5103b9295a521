// Reading the rows of a table.
ghost use Rattle.std.specs.Prelude.{◌≡◌, length};
ghost use Rattle.std.specs.Option.{option_map};
ghost use Rattle.vec_map.specs.Entries.{distinct, entry_at, reading};
ghost use Rattle.vec_map.specs.Readings.{reads};
ghost use Rattle.map_table.specs.Rows.{maps_of, in_row};
ghost use Rattle.vec_map.specs.Views.{view_map};

use crate::table::MapTable;
use texts::stock::{Stock, Text};
use vec_map::entry::{Entry, Sameness};
use vec_map::view::MapView;

impl<V: Copy> MapTable<V> {
    // The map over the places of a row, if there is one. The public `row` is a call of it, so that a wrong body of that one is
    // refused where it stands.
    fn view(&self, row: usize) -> Option<MapView<'_, Text, V>>
        ensures { option_map view_map result ≡ entry_at (maps_of self.now) row }
    {
        let kept = self.rows.get(row)?;
        let start = self.start_of(row);
        Some(MapView {
            entries: &self.entries[start..start + kept.len],
            deduped: kept.deduped,
        })
    }

    // How many places each row has.
    pub fn stride(&self) -> usize
        ensures { result ≡ self.now.stride }
    {
        self.stride
    }

    // How many rows the table can have.
    pub fn room(&self) -> usize
        ensures { result ≡ self.now.room }
    {
        self.room
    }

    // How many rows the table has.
    pub fn rows(&self) -> usize
        ensures { result ≡ length (maps_of self.now) }
    {
        self.count()
    }

    // What the key reads in a row; a row that is missing reads nothing.
    pub fn get<S: Sameness<Text>>(&self, by: &S, row: usize, key: Text) -> Option<V>
        ensures { result ≡ in_row (λ m. reading (S.Sameness.alike by.now) m.entries key) (maps_of self.now) row }
    {
        self.row(row).and_then(|view| view.get(by, &key))
    }

    // How many entries a row has.
    pub fn row_len(&self, row: usize) -> Option<usize>
        ensures { result ≡ option_map (λ m. length m.entries) (entry_at (maps_of self.now) row) }
    {
        self.row(row).map(|view| view.len())
    }

    // Whether a row is flagged as one in which no key stands twice.
    pub fn row_deduped(&self, row: usize) -> Option<bool>
        ensures { result ≡ option_map (λ m. m.deduped) (entry_at (maps_of self.now) row) }
    {
        self.row(row).map(|view| view.is_deduped())
    }

    // The entry at a place of a row.
    pub fn entry(&self, row: usize, i: usize) -> Option<Entry<Text, V>>
        ensures { result ≡ in_row (λ m. entry_at m.entries i) (maps_of self.now) row }
    {
        self.row(row).and_then(|view| view.entry(i))
    }

    // The map of a row, if there is one: the calls that ask of one row go through it.
    pub fn row(&self, row: usize) -> Option<MapView<'_, Text, V>>
        ensures { option_map view_map result ≡ entry_at (maps_of self.now) row }
    {
        self.view(row)
    }

    // What the key with these bytes reads in a row; a row that is missing reads nothing.
    pub fn read<S: Stock>(&self, stock: &S, row: usize, key: &[u8]) -> Option<V>
        ensures { result ≡ in_row (λ m. reads (S.Stock.meaning stock.now) m.entries key.now) (maps_of self.now) row }
    {
        self.row(row).and_then(|view| view.read(stock, key))
    }

    // Whether no two entries of a row have one key.
    pub fn row_distinct<S: Sameness<Text>>(&self, by: &S, row: usize) -> Option<bool>
        ensures { result ≡ option_map (λ m. distinct (S.Sameness.alike by.now) m.entries) (entry_at (maps_of self.now) row) }
    {
        self.row(row).map(|view| view.is_distinct(by))
    }
}
