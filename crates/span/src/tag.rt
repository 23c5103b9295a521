// What a tag shows, and what a chunk's priority comes to.
ghost use Rattle.std.specs.Prelude.{◌≡◌, cond};
ghost use Rattle.span.specs.declared.tag.Priority.TheVariants.{Positive, NotPositive};
ghost use Rattle.span.specs.Tags.{tag_bytes};

use crate::v1::SpanKind;
use texts::stock::{Stock, Text};

// A tag's text, or the kind whose word it is. No `Result`, since neither is a failure.
#[derive(Clone, Copy, Debug)]
pub enum Tag {
    Text(Text),
    Kind(SpanKind),
}

impl Tag {
    // The bytes that the tag shows.
    pub fn bytes<S: Stock>(self, stock: &S) -> &[u8]
        ensures { result.now ≡ tag_bytes (S.Stock.meaning stock.now) self }
    {
        match self {
            Tag::Text(text) => stock.bytes(text),
            Tag::Kind(kind) => kind.as_meta_str().as_bytes(),
        }
    }
}

// Whether a sampling priority is above 0.
#[derive(Clone, Copy, PartialEq, Eq, Debug)]
pub enum Priority {
    Positive,
    NotPositive,
}

impl Priority {
    // That of a number which is above 0, or is not. No `From`, since a truth value alone says nothing of a priority.
    pub fn of(positive: bool) -> Priority
        ensures { result ≡ cond positive Positive NotPositive }
    {
        if positive {
            Priority::Positive
        } else {
            Priority::NotPositive
        }
    }
}
