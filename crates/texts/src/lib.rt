// Texts by number, what a stock of them means, and how a refusal is told.
#![tactic(auto)]

pub mod refusal;
pub mod stock;
