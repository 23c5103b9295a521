// Rows of maps in one table of entries.
ghost use Rattle.std.specs.Prelude.{◌≡◌, ◌*◌, ◌≤◌, true, vec_len, vec_capacity};
ghost use Rattle.map_table.specs.Tables.{most_places, rows_fit};

use crate::rows::Row;
use texts::stock::Text;
use vec_map::entry::Entry;

mod bounds;
mod edits;
mod making;
mod parts;
mod reads;
mod writes;

pub use bounds::stride_fits;
pub use edits::Edit;

// The most entries that a row has places for.
pub const MOST_PLACES: usize = 64;

// Rows of `stride` places each, of which the row at `p` has those from `p * stride` on. There are at most `room` of
// them, and the memory for all is taken at the making. `filler` stands where no entry was written yet.
#[derive(Drop)]
pub struct MapTable<V: Copy> {
    entries: Vec<Entry<Text, V>>,
    rows: Vec<Row>,
    stride: usize,
    room: usize,
    filler: V,
    ghost some: { 1 ≤ stride },
    ghost few: { stride ≤ most_places },
    ghost whole: { vec_len entries ≡ vec_len rows * stride },
    ghost fit: { rows_fit stride rows.items ≡ true },
    ghost within: { vec_len rows ≤ room },
    ghost reserved: { room ≤ vec_capacity rows },
    ghost places: { room * stride ≤ vec_capacity entries },
}

// Why a table cannot be made. An enum of its own, since the one ground has no number here: the layers above tell it as theirs.
#[derive(Clone, Copy, Debug)]
pub enum TableFault {
    // A row has at least one place and at most `MOST_PLACES`.
    Stride,
    // There is no memory for that many rows.
    Memory,
}

// Why parts are not those of a table. An enum of its own, since parts bring their memory with them.
#[derive(Clone, Copy, Debug)]
pub enum PartsFault {
    // The entries are not just the places of the rows, or a row has more of them than it has places.
    Broken,
    // A row has at least one place and at most `MOST_PLACES`.
    Stride,
}
