// Beginning a batch.
ghost use Rattle.batch_tables.specs.Held.{Begun};

use crate::fault::BatchFault;
use crate::limits::{MOST_CHUNKS, MOST_SPANS, Room};
use crate::tables::BatchTables;
use map_table::table::TableFault;
use span::edition::Edition;
use std::alloc::Global;
use texts::refusal::Unmade;

impl<E: Edition> BatchTables<E> {
    // Takes the memory.
    fn make(heap: Global, stride: usize, room: Room) -> Result<BatchTables<E>, Unmade<BatchFault>>
        ensures { Begun stride room result }
    {
        let room = Room {
            chunks: room.chunks.min(MOST_CHUNKS),
            spans: room.spans.min(MOST_SPANS),
        };
        // A match: both types are of other crates, so that no `From` can stand here.
        let maps = match E::begin(heap, stride, room.chunks, room.spans) {
            Ok(maps) => maps,
            Err(TableFault::Stride) => return Err(Unmade::Refused(BatchFault::Stride)),
            Err(TableFault::Memory) => return Err(Unmade::Memory),
        };
        let chunks = Vec::with_capacity(heap, room.chunks)?;
        let spans = Vec::with_capacity(heap, room.spans)?;
        Ok(BatchTables {
            chunks,
            spans,
            maps,
            stride,
            room,
        })
    }

    // A batch with no chunks yet, whose maps have `stride` places. The memory for `room` is taken here, or for as much
    // of it as the limits allow.
    pub fn begin(
        heap: Global,
        stride: usize,
        room: Room,
    ) -> Result<BatchTables<E>, Unmade<BatchFault>>
        ensures { Begun stride room result }
    {
        BatchTables::make(heap, stride, room)
    }
}
