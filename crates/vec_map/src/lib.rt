// Maps as lists of entries, of which the last with a key counts.
#![tactic(auto)]

pub mod entry;
mod example;
pub mod fault;
mod fronts;
pub mod map;
mod scans;
pub mod view;

pub use example::example_stands;
