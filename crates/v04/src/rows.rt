// Reading one row of a table, with its values typed.
ghost use Rattle.std.specs.Prelude.{◌≡◌};
ghost use Rattle.std.specs.Option.{option_map, option_flatten};
ghost use Rattle.vec_map.specs.Entries.{entry_at};
ghost use Rattle.map_table.specs.Rows.{maps_of};
ghost use Rattle.span.specs.Readings.{read_in};
ghost use Rattle.map_table.specs.Tables.{row_of};
ghost use Rattle.v04.specs.Maps.{typed_at};

use crate::typed::Typed;
use map_table::rows::Row;
use map_table::table::MapTable;
use span::value::Value;
use texts::stock::{Stock, Text};
use vec_map::entry::Entry;

// What the key with these bytes reads; a row that is missing reads nothing.
#[tactic(auto, using(crate::proofs::RowReads::read_at))]
pub(crate) fn read_row<V: Typed, S: Stock>(
    table: &MapTable<V>,
    stock: &S,
    row: usize,
    key: &[u8],
) -> Option<Value>
    ensures { result ≡ read_in (S.Stock.meaning stock.now) (typed_at V.Typed.value (maps_of table.now) row) key.now }
{
    table.read(stock, row, key).map(|value| value.typed())
}

// How many entries the row has, and whether it is deduped.
pub(crate) fn row_kept<V: Typed>(table: &MapTable<V>, row: usize) -> Option<Row>
    ensures { result ≡ option_map row_of (typed_at V.Typed.value (maps_of table.now) row) }
{
    table.row(row).map(Row::from)
}

// The entry at a place of the row.
pub(crate) fn row_entry<V: Typed>(
    table: &MapTable<V>,
    row: usize,
    i: usize,
) -> Option<Entry<Text, Value>>
    ensures { result ≡ option_flatten (option_map (λ m. entry_at m.entries i) (typed_at V.Typed.value (maps_of table.now) row)) }
{
    table.entry(row, i).map(|entry| Entry {
        key: entry.key,
        value: entry.value.typed(),
    })
}
