// Making a table.
ghost use Rattle.std.specs.Prelude.{◌≡◌};
ghost use Rattle.map_table.specs.declared.table.TableFault.TheVariants.{Memory as unfilled};
ghost use Rattle.map_table.specs.Rows.{TableMade};

use crate::table::bounds::stride_fits;
use crate::table::{MapTable, TableFault};
use std::alloc::{AllocError, Global};

// By hand, since its contract names the case.
impl From<AllocError> for TableFault {
    ghost from_gives = { λ _ r. r ≡ unfilled };

    fn from(_fault: AllocError) -> TableFault {
        TableFault::Memory
    }
}

impl<V: Copy> MapTable<V> {
    // A table with no rows yet, and with the memory for `room` of them, so that no later call allocates.
    pub fn new(
        heap: Global,
        stride: usize,
        room: usize,
        filler: V,
    ) -> Result<MapTable<V>, TableFault>
        ensures { TableMade stride room result }
    {
        if !stride_fits(stride) {
            return Err(TableFault::Stride);
        }
        let places = room.checked_mul(stride).ok_or(TableFault::Memory)?;
        let entries = Vec::with_capacity(heap, places)?;
        let rows = Vec::with_capacity(heap, room)?;
        Ok(MapTable {
            entries,
            rows,
            stride,
            room,
            filler,
        })
    }
}
