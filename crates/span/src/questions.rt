// Three questions on what a span reads as numbers. The tests are called in closures, since the check does not take a
// function of another crate by its name.
ghost use Rattle.std.specs.Prelude.{◌≡◌};
ghost use Rattle.span.specs.Questions.{top_level, measured, partial_snapshot};
ghost use Rattle.span.specs.Tables.{sight_at};

use crate::edition::{Edition, SpanAt};
use crate::key::Key;
use numbers::{is_at_least_zero, is_one};
use texts::stock::{Stock, WellKnown};

// Whether the span is marked as a top level, by its tracer or by a mark.
pub fn has_top_level<E: Edition, S: Stock>(stock: &S, span: &SpanAt<'_, E::Own, E::Maps>) -> bool
    ensures { result ≡ top_level (sight_at E.Edition.shown E.Edition.table (S.Stock.meaning stock.now) span.now).number }
{
    let traced = E::number(stock, span, Key::TracerTopLevel.bytes());
    let marked = E::number(stock, span, WellKnown::TopLevel.bytes());
    traced.is_some_and(|x| is_one(x)) || marked.is_some_and(|x| is_one(x))
}

// Whether the span is to be measured.
pub fn is_measured<E: Edition, S: Stock>(stock: &S, span: &SpanAt<'_, E::Own, E::Maps>) -> bool
    ensures { result ≡ measured (sight_at E.Edition.shown E.Edition.table (S.Stock.meaning stock.now) span.now).number }
{
    E::number(stock, span, Key::Measured.bytes()).is_some_and(|x| is_one(x))
}

// Whether the span is a snapshot of one that has not ended: its version is 0 or more.
pub fn is_partial_snapshot<E: Edition, S: Stock>(
    stock: &S,
    span: &SpanAt<'_, E::Own, E::Maps>,
) -> bool
    ensures { result ≡ partial_snapshot (sight_at E.Edition.shown E.Edition.table (S.Stock.meaning stock.now) span.now).number }
{
    E::number(stock, span, Key::PartialVersion.bytes()).is_some_and(|x| is_at_least_zero(x))
}
