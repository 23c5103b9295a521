// The edition of traces that is called 1: a span has one map of typed values, and so has a chunk.
#![tactic(auto)]

pub mod chunk;
pub mod edition;
pub mod maps;
pub mod own;
mod shown;
