// Tables handed out to a host, and in from one.
ghost use Rattle.std.specs.Prelude.{◌≡◌, true, ◌&&◌, vec_len, vec_capacity, ◌==◌};
ghost use Rattle.batch_tables.specs.Handing.{within_room, limits, whole, parts_shape, parts_held, Joined};
ghost use Rattle.batch_tables.specs.Limits.{total};

use crate::fault::BatchFault;
use crate::limits::{ChunkRow, MOST_CHUNKS, MOST_SPANS, Room};
use crate::parts::Parts;
use crate::tables::BatchTables;
use map_table::table::stride_fits;
use span::edition::Edition;
use span::shape::Shape;

// Whether the chunks have so many spans together. A loop, since a sum may overflow, and the proof of a `try_fold` stays
// open.
fn adds_up<H: Copy>(chunks: &[ChunkRow<H>], spans: usize) -> bool
    ensures { result ≡ (total chunks.now == spans) }
{
    let mut rest = spans;
    for chunk in chunks {
        let count = chunk.count as usize;
        if count > rest {
            return false;
        }
        rest -= count;
    }
    rest == 0
}

// Whether so many chunks and spans are within a room.
fn within(chunks: usize, spans: usize, room: Room) -> bool
    ensures { result ≡ within_room chunks spans room }
{
    chunks <= room.chunks && spans <= room.spans
}

impl<E: Edition> Parts<E> {
    // How far the maps must go, for as many chunks and spans as there are.
    fn wanted_shape(&self) -> Shape
        ensures { result ≡ parts_shape E.Edition.table self.now }
    {
        Shape {
            stride: self.stride,
            chunk_room: self.room.chunks,
            span_room: self.room.spans,
            chunks: self.chunks.len(),
            spans: self.spans.len(),
        }
    }

    // Whether nothing passes the room, and the memory for the room is there.
    fn is_reserved(&self) -> bool
        ensures { result ≡ (within_room (vec_len self.now.chunks) (vec_len self.now.spans) self.now.room && within_room self.now.room.chunks self.now.room.spans (record { chunks = vec_capacity self.now.chunks; spans = vec_capacity self.now.spans })) }
    {
        let reserved = Room {
            chunks: self.chunks.capacity(),
            spans: self.spans.capacity(),
        };
        let counted = within(self.chunks.len(), self.spans.len(), self.room);
        counted && within(self.room.chunks, self.room.spans, reserved)
    }

    // Whether the parts hold together.
    fn is_whole(&self) -> bool
        ensures { result ≡ whole E.Edition.table self.now }
    {
        adds_up(&self.chunks, self.spans.len())
            && E::shape(&self.maps) == self.wanted_shape()
            && self.is_reserved()
    }
}

impl<E: Edition> BatchTables<E> {
    // The tables, as `from_parts` takes them.
    pub fn into_parts(self) -> Parts<E>
        ensures held { parts_held E.Edition.table result ≡ self }
        ensures whole { whole E.Edition.table result ≡ true }
    {
        Parts {
            chunks: self.chunks,
            spans: self.spans,
            maps: self.maps,
            stride: self.stride,
            room: self.room,
        }
    }

    // Tables of parts that hold together, within the limits.
    fn join(parts: Parts<E>) -> BatchTables<E>
        requires together { whole E.Edition.table parts ≡ true }
        requires few { within_room parts.room.chunks parts.room.spans limits ≡ true }
        ensures { result ≡ parts_held E.Edition.table parts }
    {
        let Parts {
            chunks,
            spans,
            maps,
            stride,
            room,
        } = parts;
        BatchTables {
            chunks,
            spans,
            maps,
            stride,
            room,
        }
    }

    // The tables whose parts these are. All of it is looked into, once.
    pub fn from_parts(parts: Parts<E>) -> Result<BatchTables<E>, BatchFault>
        ensures { Joined E.Edition.table parts result }
    {
        if !parts.is_whole() {
            return Err(BatchFault::Broken);
        }
        if !stride_fits(parts.stride) {
            return Err(BatchFault::Stride);
        }
        let limits = Room {
            chunks: MOST_CHUNKS,
            spans: MOST_SPANS,
        };
        if !within(parts.room.chunks, parts.room.spans, limits) {
            return Err(BatchFault::Full);
        }
        Ok(BatchTables::join(parts))
    }
}
