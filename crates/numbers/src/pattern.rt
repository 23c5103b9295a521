// A float from its 64 bits. In the logic every NaN is one value, so that a NaN's bits give it,
// whatever their sign and payload.
ghost use Rattle.std.specs.Prelude.{◌≡◌, from_bits};
ghost use Rattle.std.specs.Float.{binary64};

use std::num::f64_from_bits_with_nan;

// The float of the bits, for all bits: those of a NaN give the NaN.
pub fn float_of_bits(bits: u64) -> f64
    ensures { result ≡ from_bits binary64 bits }
{
    f64_from_bits_with_nan(bits)
}
