// Adding chunks and spans.
ghost use Rattle.std.specs.Prelude.{◌≡◌, ◌<◌, [], ◌∷◌, ◌++◌, length, OnOk};
ghost use Rattle.texts.specs.Outcomes.{Came};
ghost use Rattle.span.specs.Tables.{blank_maps};
ghost use Rattle.span.specs.Views.Kind.{of_span, of_chunk};
ghost use Rattle.batch_tables.specs.Batches.{all_spans, with_batch, to_last, add_chunk, add_span, outcome_of, retold};
ghost use Rattle.batch_tables.specs.declared.fault.BatchFault.TheVariants.{Stock as of_stock};
ghost use Rattle.batch_tables.specs.Flags.{Works};

use crate::fault::BatchFault;
use crate::limits::ChunkRow;
use crate::tables::BatchTables;
use span::edition::Edition;
use span::fields::Fields;
use texts::stock::{Stock, StockFault};

// What the stock answered, as the batch tells it.
fn carried(told: Result<(), StockFault>) -> Result<(), BatchFault>
    ensures { result ≡ retold of_stock told }
{
    Ok(told?)
}

impl<E: Edition> BatchTables<E> {
    // Appends a chunk with no spans, for which there is room.
    fn append_chunk(&mut self, head: E::Head)
        requires { length self.old.batch < self.old.room.chunks }
        ensures { self.new ≡ with_batch self.old (self.old.batch ++ (record { head = head; maps = blank_maps E.Edition.shown of_chunk; spans = [] } ∷ [])) }
    {
        let _ = E::add_chunk_row(&mut self.maps);
        self.chunks.push_reserved(ChunkRow { count: 0, head });
    }

    // Appends a span to the last chunk; there is one, and room for the span.
    fn append_span(&mut self, fields: Fields<E::Own>)
        requires some { 0 < length self.old.batch }
        requires room { length (all_spans self.old.batch) < self.old.room.spans }
        ensures { self.new ≡ with_batch self.old (to_last (record { fields = fields; maps = blank_maps E.Edition.shown of_span }) self.old.batch) }
    {
        let _ = E::add_span_row(&mut self.maps);
        self.spans.push_reserved(fields);
        let last = self.chunks.len() - 1;
        let row = self.chunks[last];
        self.chunks[last] = ChunkRow {
            count: row.count + 1,
            head: row.head,
        };
    }

    // Refuses one chunk more where there is no room, or a text is not known.
    fn check_chunk<S: Stock>(&self, stock: &S, head: &E::Head) -> Result<(), BatchFault>
        ensures free { OnOk result (length self.now.batch < self.now.room.chunks) }
        ensures comes { add_chunk E.Edition.shown (S.Stock.meaning stock.now) head.entry.now self.now ≡ outcome_of result (with_batch self.now (self.now.batch ++ (record { head = head.entry.now; maps = blank_maps E.Edition.shown of_chunk; spans = [] } ∷ []))) }
    {
        if self.chunks.len() >= self.room.chunks {
            return Err(BatchFault::Full);
        }
        carried(E::check_chunk(stock, head))
    }

    // One chunk more, if it can be added.
    fn push_chunk<S: Stock>(&mut self, stock: &S, head: E::Head) -> Result<(), BatchFault>
        ensures { Came (add_chunk E.Edition.shown (S.Stock.meaning stock.now) head self.old) self.old self.new result }
    {
        self.check_chunk(stock, &head)?;
        self.append_chunk(head);
        Ok(())
    }

    // One chunk more, with no spans yet.
    pub fn add_chunk<S: Stock>(&mut self, stock: &S, head: E::Head) -> Result<(), BatchFault>
        ensures { Works (S.Stock.meaning stock.now) (add_chunk E.Edition.shown (S.Stock.meaning stock.now) head self.old) self.old self.new result }
    {
        self.push_chunk(stock, head)
    }

    // Refuses one span more where there is no chunk or no room, or a text is not known.
    fn check_span<S: Stock>(&self, stock: &S, fields: &Fields<E::Own>) -> Result<(), BatchFault>
        ensures free { OnOk result ((0 < length self.now.batch) × (length (all_spans self.now.batch) < self.now.room.spans)) }
        ensures comes { add_span E.Edition.shown (S.Stock.meaning stock.now) fields.entry.now self.now ≡ outcome_of result (with_batch self.now (to_last (record { fields = fields.entry.now; maps = blank_maps E.Edition.shown of_span }) self.now.batch)) }
    {
        if self.chunks.len() == 0 {
            return Err(BatchFault::NoChunk(0));
        }
        if self.spans.len() >= self.room.spans {
            return Err(BatchFault::Full);
        }
        carried(E::check_span(stock, fields))
    }

    // One span more, if it can be added.
    fn push_span<S: Stock>(&mut self, stock: &S, fields: Fields<E::Own>) -> Result<(), BatchFault>
        ensures { Came (add_span E.Edition.shown (S.Stock.meaning stock.now) fields self.old) self.old self.new result }
    {
        self.check_span(stock, &fields)?;
        self.append_span(fields);
        Ok(())
    }

    // One span more, in the last chunk.
    pub fn add_span<S: Stock>(
        &mut self,
        stock: &S,
        fields: Fields<E::Own>,
    ) -> Result<(), BatchFault>
        ensures { Works (S.Stock.meaning stock.now) (add_span E.Edition.shown (S.Stock.meaning stock.now) fields self.old) self.old self.new result }
    {
        self.push_span(stock, fields)
    }
}
