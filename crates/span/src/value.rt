// Typed values.
ghost use Rattle.std.specs.Prelude.{◌≡◌};
ghost use Rattle.span.specs.Values.{number_of};

use numbers::{float_of_bits, int_to_float};
use texts::stock::Text;

// A float is held as its 64 bits, which an `f64` does not keep of a NaN. Bytes, key-value and list hold one number of the host's, which is never opened.
#[derive(Clone, Copy, Debug)]
pub enum Value {
    Text(Text),
    Float(u64),
    Int(i64),
    Bool(bool),
    Bytes(u64),
    KeyValue(u64),
    List(u64),
}

impl Value {
    // The number that the value reads as, if it has one.
    pub fn number(self) -> Option<f64>
        ensures { result ≡ number_of self }
    {
        match self {
            Value::Float(bits) => Some(float_of_bits(bits)),
            Value::Int(n) => Some(int_to_float(n)),
            _ => None,
        }
    }
}
