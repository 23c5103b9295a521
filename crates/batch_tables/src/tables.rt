// The tables of a batch. Where a public function is only a call of one below it with the same contract, it is there so that a
// wrong body of it is refused where it stands.
use crate::limits::{ChunkRow, Room};
use span::edition::Edition;
use span::fields::Fields;
use std::marker::Model;

mod adding;
mod bounds;
mod edits;
mod handing;
mod making;
mod queries;
mod reads;

// The spans of a chunk follow those of the chunks before it. The memory for all is taken at the making.
#[derive(Drop)]
pub struct BatchTables<E: Edition> {
    chunks: Vec<ChunkRow<E::Head>>,
    spans: Vec<Fields<E::Own>>,
    maps: E::Maps,
    stride: usize,
    room: Room,
}

// Tables are seen as the batch that they hold. There are none that do not hold together.
impl<E: Edition> Model for BatchTables<E> {
    ghost use Rattle.std.specs.Prelude.{vec_items, vec_capacity};
    ghost use Rattle.batch_tables.specs.Batches.{Held};
    ghost use Rattle.batch_tables.specs.Held.{held, Together};

    ghost Value = { Held E.Head E.Own };

    ghost view = { λ b. held (vec_items b.chunks) (vec_items b.spans) b.stride b.room (E.Edition.table b.maps) };

    ghost invariant = { λ b.
        Together (vec_items b.chunks) (vec_items b.spans) b.stride b.room (record { chunks = vec_capacity b.chunks; spans = vec_capacity b.spans }) (E.Edition.table b.maps) };
}
