// What a v04 span has beside its service, id and parent.
use span::fields::TraceId;
use texts::stock::Text;

// `rest` is one number of the host's, for what is never opened here.
#[derive(Clone, Copy)]
pub struct Own {
    pub name: Text,
    pub resource: Text,
    pub span_type: Text,
    pub trace_id: TraceId,
    pub start: i64,
    pub duration: i64,
    pub error: i32,
    pub rest: u64,
}
