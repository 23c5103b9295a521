// The tables of the maps of a v1 batch.
use map_table::table::MapTable;
use span::value::Value;
use std::marker::Model;

mod edits;
mod making;
mod reads;

// A map for each span of the whole batch and one for each chunk, all with the same number of places.
#[derive(Drop)]
pub struct V1Maps {
    spans: MapTable<Value>,
    chunks: MapTable<Value>,
}

impl Model for V1Maps {
    ghost use Rattle.std.specs.Prelude.{◌≡◌};
    ghost use Rattle.span.specs.Tables.{Table};
    ghost use Rattle.v1.specs.Tables.{v1_table};

    ghost Value = { Table };

    ghost view = { λ t. v1_table t.spans t.chunks };

    ghost invariant = { λ t. t.spans.stride ≡ t.chunks.stride };
}
