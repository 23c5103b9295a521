// What a v1 chunk has beside its map and its spans.
use span::fields::TraceId;
use texts::stock::Text;

// `dropped_trace` says that a sampler let the trace go, whatever the priority is.
#[derive(Clone, Copy)]
pub struct Head {
    pub trace_id: TraceId,
    pub priority: Option<i32>,
    pub origin: Text,
    pub sampling_mechanism: Option<u32>,
    pub dropped_trace: bool,
}
