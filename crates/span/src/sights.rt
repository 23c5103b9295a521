// What a reading comes to: a tag, a number, a priority, and whether a span is sampled by itself.
ghost use Rattle.std.specs.Prelude.{◌≡◌};
ghost use Rattle.span.specs.Sights.{tag_read, number_read, weighed, sampled_by};

use crate::tag::{Priority, Tag};
use crate::value::Value;
use numbers::{is_eight, is_positive};

// The tag that a reading shows, where it is a text.
pub fn tag_read(reading: Option<Value>) -> Option<Tag>
    ensures { result ≡ tag_read reading }
{
    match reading {
        Some(Value::Text(text)) => Some(Tag::Text(text)),
        _ => None,
    }
}

// The number that a reading has, if it has one.
pub fn number_read(reading: Option<Value>) -> Option<f64>
    ensures { result ≡ number_read reading }
{
    reading?.number()
}

// What a number says as a priority: a NaN is not positive.
pub fn weighed(number: Option<f64>) -> Option<Priority>
    ensures { result ≡ weighed number }
{
    number.map(|x| Priority::of(is_positive(x)))
}

// Whether a span with this sampling mechanism is sampled by itself; one that is rated for analytics always is.
pub fn sampled_by(mechanism: Option<f64>, rated: bool) -> bool
    ensures { result ≡ sampled_by mechanism rated }
{
    mechanism.is_some_and(|x| is_eight(x)) || rated
}
