// What stands in the tables.
ghost use Rattle.std.specs.Prelude.{◌≡◌, ◌<◌, length, IfErr, OnOk};
ghost use Rattle.texts.specs.Outcomes.Outcome.{refused};
ghost use Rattle.texts.specs.Stocks.{Texts};
ghost use Rattle.map_table.specs.declared.table.edits.Edit.{Edit as Edited};
ghost use Rattle.span.specs.declared.value.Value.{Value as Typed};
ghost use Rattle.span.specs.declared.owner.Owner.TheVariants.{Span as of_span, Chunk as of_chunk};
ghost use Rattle.batch_tables.specs.declared.query.Question.{Question as Asked};
ghost use Rattle.batch_tables.specs.Batches.{all_spans, edit_batch};
ghost use Rattle.batch_tables.specs.Queries.{query_batch};
ghost use Rattle.batch_tables.specs.Held.{Stands};

use crate::fault::BatchFault;
use crate::tables::BatchTables;
use span::edition::Edition;
use span::owner::Owner;

impl<E: Edition> BatchTables<E> {
    // Refuses a span that is not there.
    pub(super) fn find_span(&self, place: usize) -> Result<(), BatchFault>
        ensures there { OnOk result (place < length (all_spans self.now.batch)) }
        ensures edits { IfErr result (λ f. (t : Texts) (e : Edited Typed) → edit_batch E.Edition.shown t e (of_span place) self.now ≡ refused f) }
        ensures asks { IfErr result (λ f. (t : Texts) (q : Asked) → query_batch E.Edition.shown t place q self.now ≡ refused f) }
    {
        if place >= self.spans.len() {
            return Err(BatchFault::NoSpan(place));
        }
        Ok(())
    }

    // Refuses a chunk that is not there.
    pub(super) fn find_chunk(&self, place: usize) -> Result<(), BatchFault>
        ensures there { OnOk result (place < length self.now.batch) }
        ensures edits { IfErr result (λ f. (t : Texts) (e : Edited Typed) → edit_batch E.Edition.shown t e (of_chunk place) self.now ≡ refused f) }
    {
        if place >= self.chunks.len() {
            return Err(BatchFault::NoChunk(place));
        }
        Ok(())
    }

    // The same of either.
    pub(super) fn find(&self, owner: Owner) -> Result<(), BatchFault>
        ensures there { OnOk result (Stands owner self.now.batch) }
        ensures edits { IfErr result (λ f. (t : Texts) (e : Edited Typed) → edit_batch E.Edition.shown t e owner self.now ≡ refused f) }
    {
        match owner {
            Owner::Span(place) => self.find_span(place),
            Owner::Chunk(place) => self.find_chunk(place),
        }
    }
}
