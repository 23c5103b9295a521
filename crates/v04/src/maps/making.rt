// Making the tables of a v04 batch, and adding to them.
ghost use Rattle.std.specs.Prelude.{◌≡◌, length};
ghost use Rattle.texts.specs.Outcomes.{Came};
ghost use Rattle.span.specs.Tables.{TablesMade, shape_of, chunk_row_added, span_row_added};
ghost use Rattle.v04.specs.Shown.{v04_view};

use crate::maps::V04Maps;
use map_table::table::{MapTable, TableFault};
use span::shape::Shape;
use std::alloc::Global;
use texts::stock::Text;
use vec_map::fault::MapFault;

impl V04Maps {
    // Tables with no rows yet, and with the memory for so many spans.
    pub(crate) fn begin(
        heap: Global,
        stride: usize,
        chunks: usize,
        spans: usize,
    ) -> Result<V04Maps, TableFault>
        ensures { TablesMade (λ t. t) stride chunks spans result }
    {
        let meta = MapTable::new(heap, stride, spans, Text { number: 0 })?;
        let metrics = MapTable::new(heap, stride, spans, 0)?;
        Ok(V04Maps {
            meta,
            metrics,
            chunks: 0,
            chunk_room: chunks,
        })
    }

    // How far the tables go.
    pub(crate) fn shape(&self) -> Shape
        ensures { result ≡ shape_of self.now }
    {
        Shape {
            stride: self.meta.stride(),
            chunk_room: self.chunk_room,
            span_room: self.meta.room(),
            chunks: self.chunks,
            spans: self.span_count(),
        }
    }

    // How many spans there are, each with a row in both tables.
    pub(super) fn span_count(&self) -> usize
        ensures { result ≡ length self.now.spans }
    {
        self.meta.rows()
    }

    // Counts one chunk more, where there is room for it.
    pub(crate) fn add_chunk_row(&mut self) -> Result<(), MapFault>
        ensures { Came (chunk_row_added v04_view self.old) self.old self.new result }
    {
        if self.chunks >= self.chunk_room {
            return Err(MapFault::Full);
        }
        self.chunks += 1;
        Ok(())
    }

    // Appends a row with no entries to both tables. They have the same rows and room, and so answer alike.
    pub(crate) fn add_span_row(&mut self) -> Result<(), MapFault>
        ensures { Came (span_row_added v04_view self.old) self.old self.new result }
    {
        let told = self.meta.add_row();
        let _ = self.metrics.add_row();
        told
    }
}
