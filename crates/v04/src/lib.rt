// The edition of traces that is called 0.4: a span has a map of texts and a map of floats, and a chunk has nothing but
// its spans.
#![tactic(auto)]

pub mod edition;
pub mod maps;
pub mod own;
mod rows;
mod typed;
