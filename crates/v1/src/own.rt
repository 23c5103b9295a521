// What a v1 span has beside its service, id and parent.
use span::v1::SpanKind;
use texts::stock::Text;

// `rest` is one number of the host's, for what is never opened here.
#[derive(Clone, Copy)]
pub struct Own {
    pub name: Text,
    pub resource: Text,
    pub span_type: Text,
    pub start: i64,
    pub duration: i64,
    pub error: bool,
    pub span_kind: SpanKind,
    pub env: Text,
    pub version: Text,
    pub component: Text,
    pub rest: u64,
}
