// A number held against one, eight and zero. A NaN passes no test, and -0.0 passes those that 0.0
// passes.
ghost use Rattle.std.specs.Prelude.{◌≡◌};
ghost use Rattle.std.specs.Float.Ieee.{eq, le, lt};
ghost use Rattle.numbers.specs.Known.{zero, one, eight};

// Whether the number equals 1. (One comparison, as the next: a function of the number to compare with is no shorter.)
pub fn is_one(number: f64) -> bool
    ensures { result ≡ eq number one }
{
    number == 1.0
}

// Whether the number equals 8.
#[tactic(auto, using(crate::proofs::Literals::literals))]
pub fn is_eight(number: f64) -> bool
    ensures { result ≡ eq number eight }
{
    number == 8.0
}

// Whether the number is 0 or more: -0.0 passes, and a NaN does not.
pub fn is_at_least_zero(number: f64) -> bool
    ensures { result ≡ le zero number }
{
    0.0 <= number
}

// Whether the number is more than 0: neither zero passes, and no NaN.
pub fn is_positive(number: f64) -> bool
    ensures { result ≡ lt zero number }
{
    0.0 < number
}
