// Numbers as a trace's maps hold them: a float lies in a table as its 64 bits, and an integer as
// itself. As a number the first is the float of these bits, and the second is the 64-bit float
// nearest to it, a tie to the even one (IEEE 754).
#![tactic(auto)]

mod compare;
mod integer;
mod pattern;

pub use compare::{is_at_least_zero, is_eight, is_one, is_positive};
pub use integer::{example_stands, int_to_float};
pub use pattern::float_of_bits;
