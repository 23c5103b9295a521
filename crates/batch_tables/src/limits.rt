// How much a batch holds at most.

// The most chunks of a batch.
pub const MOST_CHUNKS: usize = 1_024;

// The most spans of a batch.
pub const MOST_SPANS: usize = 16_384;

// For how many chunks and spans there is memory.
#[derive(Clone, Copy, PartialEq, Eq, Debug)]
pub struct Room {
    pub chunks: usize,
    pub spans: usize,
}

// What a batch has of a chunk: how many spans, and what the edition has of it. A count and no `Vec` of its spans, since the
// memory for the spans of all chunks is taken at the making.
#[derive(Clone, Copy, Debug)]
pub struct ChunkRow<H> {
    pub count: u16,
    pub head: H,
}
