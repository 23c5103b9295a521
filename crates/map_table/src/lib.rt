// Rows of maps in one table of entries.
#![tactic(auto)]

pub mod rows;
pub mod table;
