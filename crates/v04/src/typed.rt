// Values that a table of one map holds, as typed ones.
ghost use Rattle.std.specs.Prelude.{◌≡◌};
ghost use Rattle.span.specs.declared.value.Value.{Value as Held};
ghost use Rattle.span.specs.declared.value.Value.TheVariants as of;

use span::value::Value;
use texts::stock::Text;

// `Into` says only how a value and what it becomes are related; the meaning of a table maps this function over its values.
pub trait Typed: Copy {
    ghost value: { Self → Held };

    fn typed(self) -> Value
        ensures { result ≡ value self };
}

impl Typed for Text {
    ghost value = { of.Text };

    fn typed(self) -> Value {
        Value::Text(self)
    }
}

// A float, by its bits.
impl Typed for u64 {
    ghost value = { of.Float };

    fn typed(self) -> Value {
        Value::Float(self)
    }
}
