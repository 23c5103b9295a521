// The maps of the spans of a v04 batch.
use map_table::table::MapTable;
use std::marker::Model;
use texts::stock::Text;

mod edits;
mod making;
mod reads;

// The map of texts and the map of floats of each span, in two tables with the same rows, the memory for which is taken at
// the making. A chunk has no maps, so that chunks are only counted.
#[derive(Drop)]
pub struct V04Maps {
    meta: MapTable<Text>,
    metrics: MapTable<u64>,
    chunks: usize,
    chunk_room: usize,
}

impl Model for V04Maps {
    ghost use Rattle.span.specs.Tables.{Table};

    ghost Value = { Table };

    ghost use Rattle.v04.specs.Tables.{v04_table, SameRows};

    ghost view = { v04_table };

    ghost invariant = { SameRows };
}
