// The fields of a span.
use texts::stock::Text;

// What every edition has of a span, and `own`, what one edition alone has.
#[derive(Clone, Copy)]
pub struct Fields<O> {
    pub service: Text,
    pub span_id: u64,
    pub parent_id: u64,
    pub own: O,
}

// 128 bits, as the upper and the lower 64.
#[derive(Clone, Copy, PartialEq, Eq, Debug)]
pub struct TraceId {
    pub high: u64,
    pub low: u64,
}
