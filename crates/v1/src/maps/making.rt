// Making the tables, and how far they go.
ghost use Rattle.std.specs.Prelude.{◌≡◌};
ghost use Rattle.span.specs.Tables.{TablesMade, shape_of};

use crate::maps::V1Maps;
use map_table::table::{MapTable, TableFault};
use span::shape::Shape;
use span::value::Value;
use std::alloc::Global;

impl V1Maps {
    // Tables with no rows yet, and with the memory for so many chunks and spans.
    pub(crate) fn begin(
        heap: Global,
        stride: usize,
        chunks: usize,
        spans: usize,
    ) -> Result<V1Maps, TableFault>
        ensures { TablesMade (λ t. t) stride chunks spans result }
    {
        let filler = Value::Int(0);
        let spans = MapTable::new(heap, stride, spans, filler)?;
        let chunks = MapTable::new(heap, stride, chunks, filler)?;
        Ok(V1Maps { spans, chunks })
    }

    // The places of each map, the room, and the rows that stand.
    pub(crate) fn shape(&self) -> Shape
        ensures { result ≡ shape_of self.now }
    {
        Shape {
            stride: self.chunks.stride(),
            chunk_room: self.chunks.room(),
            span_room: self.spans.room(),
            chunks: self.chunks.rows(),
            spans: self.spans.rows(),
        }
    }
}
