// The tables of a batch: chunks, spans and their maps, in one run each.
#![tactic(auto)]

pub mod fault;
pub mod limits;
pub mod parts;
pub mod query;
pub mod tables;
