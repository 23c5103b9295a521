// An integer as a float: the nearest one, a tie to the even one. The integer is split into two halves that are floats
// exactly, so that only their sum rounds.
ghost use Rattle.std.specs.Prelude.{◌≡◌, true, pos, Float};
ghost use Rattle.std.specs.Float.{binary64};
ghost use Rattle.std.specs.Float.Ieee.{of_int};
ghost use Rattle.numbers.specs.Halves.{upper, lower, Halved};
ghost use Rattle.numbers.specs.Near.{Exactly, Near};
ghost use Rattle.numbers.specs.Example.{Example};

// The upper half of n, a multiple of 2^32 that is n or next below n: a float exactly. No call of the library's nearest,
// since what is promised of the halves is promised of what is computed.
fn upper_half(n: i64) -> f64
    ensures value { result ≡ of_int binary64 (upper n) }
    ensures exact { Exactly result (upper n) }
{
    (n >> 32) as f64 * 4294967296.0
}

// The lower half of n, what n lies above the upper one, below 2^32: a float exactly. The two
// halves make n, and the rounded sum of their floats is the float nearest to n, which lies near n.
fn lower_half(n: i64) -> f64
    ensures value { result ≡ of_int binary64 (pos (lower n)) }
    ensures exact { Exactly result (pos (lower n)) }
    ensures halves { Halved n }
    ensures near { (x : Float) → x ≡ of_int binary64 n → Near x n }
{
    (n & 0xffff_ffff) as f64
}

// The float nearest to n, a tie to the even one: a whole number that is at most 512 from n. It is the sum, rounded once,
// of two halves of n that are floats exactly.
pub fn int_to_float(n: i64) -> f64
    ensures nearest { result ≡ of_int binary64 n }
    ensures near { Near result n }
    ensures halves { Halved n }
{
    upper_half(n) + lower_half(n)
}

// The worked example stands: 9007199254740993, half way between two floats, reads
// 9007199254740992, the even one.
#[tactic(auto, using(crate::proofs::Literals::literals))]
pub fn example_stands() -> bool
    ensures example { Example }
    ensures answer { result ≡ true }
{
    int_to_float(9007199254740993) == 9007199254740992.0
}
