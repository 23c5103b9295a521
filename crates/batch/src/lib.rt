// A batch of span chunks: it is filled, and then worked on.
#![tactic(auto)]

pub mod filling;
pub mod state;
pub mod working;

pub use batch_tables::fault::BatchFault;
pub use batch_tables::limits::{ChunkRow, Room};
pub use batch_tables::parts::Parts;
pub use batch_tables::query::{Question, Reply};
