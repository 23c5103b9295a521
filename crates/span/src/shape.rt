// How far the tables of maps of a batch go.

// The places of each map; for how many chunks and spans there is room; and how many stand.
#[derive(Clone, Copy, PartialEq, Eq, Debug)]
pub struct Shape {
    pub stride: usize,
    pub chunk_room: usize,
    pub span_room: usize,
    pub chunks: usize,
    pub spans: usize,
}
