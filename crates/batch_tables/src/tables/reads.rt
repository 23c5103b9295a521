// Reading chunks, spans and their maps.
ghost use Rattle.std.specs.Prelude.{◌≡◌, ◌≤◌, length};
ghost use Rattle.span.specs.declared.owner.Owner.{Owner as OfOwner};
ghost use Rattle.std.specs.Option.{option_map, option_flatten};
ghost use Rattle.vec_map.specs.Entries.{entry_at};
ghost use Rattle.map_table.specs.Tables.{row_of};
ghost use Rattle.span.specs.Tables.{owner_maps};
ghost use Rattle.batch_tables.specs.Batches.{all_spans};
ghost use Rattle.batch_tables.specs.Limits.{most_chunks, most_spans};
ghost use Rattle.batch_tables.specs.Reads.{chunk_at, fields_at, maps_in, map_in};

use crate::limits::ChunkRow;
use crate::tables::BatchTables;
use map_table::rows::Row;
use span::edition::Edition;
use span::fields::Fields;
use span::owner::Owner;
use span::value::Value;
use texts::stock::Text;
use vec_map::entry::Entry;

impl<E: Edition> BatchTables<E> {
    // The rows of the chunks are as many as there are chunks.
    fn chunk_rows(&self) -> usize
        ensures count { result ≡ length self.now.batch }
        ensures few { (result ≤ self.now.room.chunks) × (self.now.room.chunks ≤ most_chunks) }
    {
        self.chunks.len()
    }

    // How many chunks there are.
    pub fn chunk_count(&self) -> usize
        ensures count { result ≡ length self.now.batch }
        ensures few { (result ≤ self.now.room.chunks) × (self.now.room.chunks ≤ most_chunks) }
    {
        self.chunk_rows()
    }

    // The rows of the spans are as many as there are spans.
    fn span_rows(&self) -> usize
        ensures count { result ≡ length (all_spans self.now.batch) }
        ensures few { (result ≤ self.now.room.spans) × (self.now.room.spans ≤ most_spans) }
    {
        self.spans.len()
    }

    // How many spans there are in all.
    pub fn span_count(&self) -> usize
        ensures count { result ≡ length (all_spans self.now.batch) }
        ensures few { (result ≤ self.now.room.spans) × (self.now.room.spans ≤ most_spans) }
    {
        self.span_rows()
    }

    // A chunk is what its row says.
    fn chunk_row(&self, place: usize) -> Option<ChunkRow<E::Head>>
        ensures { result ≡ chunk_at self.now.batch place }
    {
        self.chunks.get(place).copied()
    }

    // How many spans a chunk has, and what the edition has of it.
    pub fn chunk(&self, place: usize) -> Option<ChunkRow<E::Head>>
        ensures { result ≡ chunk_at self.now.batch place }
    {
        self.chunk_row(place)
    }

    // A span has the fields of its row.
    fn span_row(&self, place: usize) -> Option<Fields<E::Own>>
        ensures { result ≡ fields_at self.now.batch place }
    {
        self.spans.get(place).copied()
    }

    // The fields of a span.
    pub fn span(&self, place: usize) -> Option<Fields<E::Own>>
        ensures { result ≡ fields_at self.now.batch place }
    {
        self.span_row(place)
    }

    // The maps: each owner of the batch has those of its row, and one that is not there has none.
    fn maps(&self) -> &E::Maps
        ensures { (owner : OfOwner) → maps_in owner self.now.batch ≡ owner_maps owner (E.Edition.table result.now) }
    {
        &self.maps
    }

    // What is kept of one of an owner's maps, by the map's number.
    pub fn map_row(&self, owner: Owner, which: usize) -> Option<Row>
        ensures { result ≡ option_map row_of (map_in owner which self.now.batch) }
    {
        E::map_row(self.maps(), owner, which)
    }

    // One entry of one of an owner's maps.
    pub fn entry(&self, owner: Owner, which: usize, i: usize) -> Option<Entry<Text, Value>>
        ensures { result ≡ option_flatten (option_map (λ m. entry_at m.entries i) (map_in owner which self.now.batch)) }
    {
        E::entry(self.maps(), owner, which, i)
    }
}
