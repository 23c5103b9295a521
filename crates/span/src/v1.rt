// The kinds of a v1 span.
ghost use Rattle.std.specs.Prelude.{◌≡◌};
ghost use Rattle.span.specs.Kinds.{kind_of, kind_word};

// A span's part in an exchange between services. Unset and unknown kinds count as internal.
#[derive(Clone, Copy, PartialEq, Eq, Debug)]
pub enum SpanKind {
    Internal,
    Server,
    Client,
    Producer,
    Consumer,
}

impl From<u32> for SpanKind {
    ghost from_gives = { λ number kind. kind ≡ kind_of number };

    fn from(number: u32) -> SpanKind {
        match number {
            2 => SpanKind::Server,
            3 => SpanKind::Client,
            4 => SpanKind::Producer,
            5 => SpanKind::Consumer,
            _ => SpanKind::Internal,
        }
    }
}

impl SpanKind {
    // The word that a `span.kind` tag shows.
    pub fn as_meta_str(self) -> &'static str
        ensures { result.now ≡ kind_word self }
    {
        match self {
            SpanKind::Internal => "internal",
            SpanKind::Server => "server",
            SpanKind::Client => "client",
            SpanKind::Producer => "producer",
            SpanKind::Consumer => "consumer",
        }
    }
}
