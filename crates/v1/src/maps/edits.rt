// Rows added to the tables, and edits of one row's map.
ghost use Rattle.span.specs.Tables.{edit_owner, chunk_row_added, span_row_added};
ghost use Rattle.texts.specs.Outcomes.{Came};
ghost use Rattle.v1.specs.Shown.{v1_view};

use crate::maps::V1Maps;
use map_table::table::Edit;
use span::owner::Owner;
use span::value::Value;
use texts::stock::Stock;
use vec_map::fault::MapFault;

impl V1Maps {
    // Appends the blank map of one chunk more.
    pub(crate) fn add_chunk_row(&mut self) -> Result<(), MapFault>
        ensures { Came (chunk_row_added v1_view self.old) self.old self.new result }
    {
        self.chunks.add_row()
    }

    // Appends the blank map of one span more.
    pub(crate) fn add_span_row(&mut self) -> Result<(), MapFault>
        ensures { Came (span_row_added v1_view self.old) self.old self.new result }
    {
        self.spans.add_row()
    }

    // Edits the map of one owner.
    pub(crate) fn edit<S: Stock>(
        &mut self,
        stock: &S,
        owner: Owner,
        edit: Edit<Value>,
    ) -> Result<(), MapFault>
        ensures { Came (edit_owner v1_view (S.Stock.meaning stock.now) edit owner self.old) self.old self.new result }
    {
        match owner {
            Owner::Span(row) => self.spans.edit(stock, row, edit),
            Owner::Chunk(row) => self.chunks.edit(stock, row, edit),
        }
    }
}
