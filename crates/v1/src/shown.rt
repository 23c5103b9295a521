// What the fields of a span or chunk show.
ghost use Rattle.std.specs.Prelude.{◌≡◌};
ghost use Rattle.span.specs.Keys.{key_spelling};
ghost use Rattle.std.specs.List.{find};
ghost use Rattle.std.specs.Option.{option_map};
ghost use Rattle.std.specs.Str.{bytes_eq};
ghost use Rattle.v1.specs.Shown.{unless_empty, promoted, promoted_key, effective_priority, weighed_int};

use crate::chunk::Head;
use crate::own::Own;
use span::key::Key;
use span::tag::{Priority, Tag};
use span::v1::SpanKind;
use texts::stock::{Stock, Text};

// The first of the keys that has these bytes.
fn key_among(keys: &[Key], bytes: &[u8]) -> Option<Key>
    ensures { result ≡ find (λ k. bytes_eq bytes.now (key_spelling k)) keys.now }
{
    keys.iter().copied().find(|key| bytes == key.bytes())
}

// The key with these bytes, where a field shows at it.
fn promoted_key(bytes: &[u8]) -> Option<Key>
    ensures { result ≡ promoted_key bytes.now }
{
    let keys = [Key::Env, Key::Version, Key::Component, Key::SpanKind];
    key_among(&keys, bytes)
}

// A field as a tag, unless it is empty.
fn unless_empty<S: Stock>(stock: &S, text: Text) -> Option<Tag>
    ensures { result ≡ unless_empty ((S.Stock.meaning stock.now).bytes text) text }
{
    (!stock.bytes(text).is_empty()).then_some(Tag::Text(text))
}

// The tag that a field shows at its key: a text that is not empty, or a kind that is not internal.
pub(crate) fn promoted<S: Stock>(stock: &S, own: &Own, key: &[u8]) -> Option<Tag>
    ensures { result ≡ promoted (S.Stock.meaning stock.now) own.now key.now }
{
    match promoted_key(key)? {
        Key::Env => unless_empty(stock, own.env),
        Key::Version => unless_empty(stock, own.version),
        Key::Component => unless_empty(stock, own.component),
        Key::SpanKind if own.span_kind != SpanKind::Internal => Some(Tag::Kind(own.span_kind)),
        _ => None,
    }
}

// The priority of a chunk. Where a sampler let the trace go, it is the chunk's if that is below 0, else -1.
fn effective_priority(head: &Head) -> Option<i32>
    ensures { result ≡ effective_priority head.now }
{
    if head.dropped_trace {
        head.priority.filter(|n| *n < 0).or(Some(-1))
    } else {
        head.priority
    }
}

// What that priority comes to.
pub(crate) fn priority_of(head: &Head) -> Option<Priority>
    ensures { result ≡ option_map weighed_int (effective_priority head.now) }
{
    effective_priority(head).map(|n| Priority::of(n > 0))
}
