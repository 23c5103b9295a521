// Editing the maps of one span.
ghost use Rattle.std.specs.Prelude.{◌≡◌, Some as held, None as homeless};
ghost use Rattle.std.specs.Option.{option_map};
ghost use Rattle.texts.specs.Outcomes.{Came, answers};
ghost use Rattle.texts.specs.Stocks.{same_text};
ghost use Rattle.map_table.specs.Rows.{RowWorked};
ghost use Rattle.vec_map.specs.Entries.{entry_at};
ghost use Rattle.span.specs.Edits.{all_distinct};
ghost use Rattle.span.specs.Tables.{edit_owner};
ghost use Rattle.span.specs.Views.Kind.{of_span};
ghost use Rattle.v04.specs.Edits.{edit_span, edit_chunk, insert_span, and_both};
ghost use Rattle.v04.specs.Shown.{v04_view, v04_home};
ghost use Rattle.v04.specs.Tables.{row_edited};

use crate::maps::V04Maps;
use map_table::table::{Edit, MapTable};
use span::owner::Owner;
use span::value::Value;
use texts::stock::{Stock, Text};
use vec_map::fault::MapFault;

// Whether both are true, where there are both.
fn both_true(a: Option<bool>, b: Option<bool>) -> Option<bool>
    ensures { result ≡ and_both a b }
{
    a.zip(b).map(|(a, b)| a && b)
}

// Edits a row in both tables, where they answer alike.
fn edit_both<S: Stock>(
    meta: &mut MapTable<Text>,
    metrics: &mut MapTable<u64>,
    stock: &S,
    row: usize,
    texts: Edit<Text>,
    floats: Edit<u64>,
) -> Result<(), MapFault>
    requires { answers (row_edited (S.Stock.meaning stock.now) texts row meta.old) ≡ answers (row_edited (S.Stock.meaning stock.now) floats row metrics.old) }
    ensures texts { RowWorked (row_edited (S.Stock.meaning stock.now) texts row meta.old) row meta.old meta.new result }
    ensures floats { RowWorked (row_edited (S.Stock.meaning stock.now) floats row metrics.old) row metrics.old metrics.new result }
{
    let told = meta.edit(stock, row, texts);
    let _ = metrics.edit(stock, row, floats);
    told
}

impl V04Maps {
    // Appends an entry to the map of texts of a span. This and the next are two, since the tables are of two types and
    // the maps of a span are numbered.
    fn insert_text(&mut self, row: usize, key: Text, text: Text) -> Result<(), MapFault>
        ensures { Came (insert_span (held 0) key (Value.Text text) row self.old) self.old self.new result }
    {
        self.meta.insert(row, key, text)
    }

    // Appends an entry to the map of floats of a span.
    fn insert_float(&mut self, row: usize, key: Text, bits: u64) -> Result<(), MapFault>
        ensures { Came (insert_span (held 1) key (Value.Float bits) row self.old) self.old self.new result }
    {
        self.metrics.insert(row, key, bits)
    }

    // Refuses an insert of a value that a span has no map for; that there is no such span is told first. `key` and
    // `value` are there for the clause alone, which speaks of that insert.
    fn lacks(&self, row: usize, key: Text, value: Value) -> Result<(), MapFault>
        ensures { Came (insert_span homeless key value row self.now) self.now self.now result }
    {
        if row < self.span_count() {
            Err(MapFault::Lacks)
        } else {
            Err(MapFault::NoPlace)
        }
    }

    // Appends an entry to the map that a span has for such a value.
    fn insert(&mut self, row: usize, key: Text, value: Value) -> Result<(), MapFault>
        ensures { Came (insert_span (v04_home of_span value) key value row self.old) self.old self.new result }
    {
        match value {
            Value::Text(text) => self.insert_text(row, key, text),
            Value::Float(bits) => self.insert_float(row, key, bits),
            _ => self.lacks(row, key, value),
        }
    }

    // Takes every entry of the key out of both maps of a span.
    fn remove<S: Stock>(&mut self, stock: &S, row: usize, key: Text) -> Result<(), MapFault>
        ensures { Came (edit_span (S.Stock.meaning stock.now) (Edit.Remove key) row self.old) self.old self.new result }
    {
        let V04Maps { meta, metrics, .. } = self;
        edit_both(
            meta,
            metrics,
            stock,
            row,
            Edit::Remove(key),
            Edit::Remove(key),
        )
    }

    // Leaves the last entry of each key in both maps of a span.
    fn dedup<S: Stock>(&mut self, stock: &S, row: usize) -> Result<(), MapFault>
        ensures { Came (edit_span (S.Stock.meaning stock.now) Edit.Dedup row self.old) self.old self.new result }
    {
        let V04Maps { meta, metrics, .. } = self;
        edit_both(meta, metrics, stock, row, Edit::Dedup, Edit::Dedup)
    }

    // Whether no key stands twice in either map of a span.
    fn distinct<S: Stock>(&self, stock: &S, row: usize) -> Option<bool>
        ensures { result ≡ option_map (all_distinct (same_text (S.Stock.meaning stock.now))) (entry_at self.now.spans row) }
    {
        both_true(
            self.meta.row_distinct(stock, row),
            self.metrics.row_distinct(stock, row),
        )
    }

    // Flags both maps of a span or neither.
    fn claim<S: Stock>(&mut self, stock: &S, row: usize) -> Result<(), MapFault>
        ensures { Came (edit_span (S.Stock.meaning stock.now) Edit.Claim row self.old) self.old self.new result }
    {
        let Some(distinct) = self.distinct(stock, row) else {
            return Err(MapFault::NoPlace);
        };
        if !distinct {
            return Err(MapFault::Twice);
        }
        let V04Maps { meta, metrics, .. } = self;
        edit_both(meta, metrics, stock, row, Edit::Claim, Edit::Claim)
    }

    // Edits the maps of a span. A match, since each edit is another of texts and of floats.
    fn edit_span<S: Stock>(
        &mut self,
        stock: &S,
        row: usize,
        edit: Edit<Value>,
    ) -> Result<(), MapFault>
        ensures { Came (edit_span (S.Stock.meaning stock.now) edit row self.old) self.old self.new result }
    {
        match edit {
            Edit::Insert(key, value) => self.insert(row, key, value),
            Edit::Remove(key) => self.remove(stock, row, key),
            Edit::Dedup => self.dedup(stock, row),
            Edit::Claim => self.claim(stock, row),
        }
    }

    // Refuses an edit of a chunk, which has no maps; that there is no such chunk is told first. `stock` and `edit` are
    // there for the clause alone, which speaks of that edit.
    fn edit_chunk<S: Stock>(&self, stock: &S, row: usize, edit: Edit<Value>) -> Result<(), MapFault>
        ensures { Came (edit_chunk (S.Stock.meaning stock.now) edit row self.now) self.now self.now result }
    {
        if row < self.chunks {
            Err(MapFault::Lacks)
        } else {
            Err(MapFault::NoPlace)
        }
    }

    // Edits the maps of one owner.
    pub(crate) fn edit<S: Stock>(
        &mut self,
        stock: &S,
        owner: Owner,
        edit: Edit<Value>,
    ) -> Result<(), MapFault>
        ensures { Came (edit_owner v04_view (S.Stock.meaning stock.now) edit owner self.old) self.old self.new result }
    {
        match owner {
            Owner::Span(row) => self.edit_span(stock, row, edit),
            Owner::Chunk(row) => self.edit_chunk(stock, row, edit),
        }
    }
}
