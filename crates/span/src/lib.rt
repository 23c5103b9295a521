// What spans hold and show.
#![tactic(auto)]

pub mod checks;
pub mod edition;
pub mod fields;
pub mod key;
pub mod owner;
pub mod questions;
pub mod resource;
pub mod shape;
pub mod sights;
pub mod tag;
pub mod v1;
pub mod value;
