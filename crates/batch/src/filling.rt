// A batch that is being filled: chunks and spans are added to its end, and their maps are edited.
ghost use Rattle.std.specs.Prelude.{◌≡◌};
ghost use Rattle.batch_tables.specs.Batches.{add_chunk, add_span};
ghost use Rattle.batch_tables.specs.Flags.{Works};
ghost use Rattle.batch_tables.specs.Held.{Begun};

use crate::state::{Batch, State};
use crate::working::Working;
use batch_tables::fault::BatchFault;
use batch_tables::limits::Room;
use batch_tables::tables::BatchTables;
use span::edition::Edition;
use span::fields::Fields;
use std::alloc::Global;
use texts::refusal::Unmade;
use texts::stock::Stock;

// The state in which a batch is filled.
#[derive(Clone, Copy, Debug)]
pub struct Open;

impl State for Open {}

pub type Filling<E> = Batch<E, Open>;

impl<E: Edition> Batch<E, Open> {
    // An empty batch whose maps have `stride` places, with the memory for `room`.
    pub fn begin(heap: Global, stride: usize, room: Room) -> Result<Filling<E>, Unmade<BatchFault>>
        ensures { Begun stride room result }
    {
        Ok(Batch::over(BatchTables::begin(heap, stride, room)?))
    }

    // One chunk more, with no spans yet.
    pub fn add_chunk<S: Stock>(&mut self, stock: &S, head: E::Head) -> Result<(), BatchFault>
        ensures { Works (S.Stock.meaning stock.now) (add_chunk E.Edition.shown (S.Stock.meaning stock.now) head self.old) self.old self.new result }
    {
        self.tables.add_chunk(stock, head)
    }

    // One span more, in the last chunk.
    pub fn add_span<S: Stock>(
        &mut self,
        stock: &S,
        fields: Fields<E::Own>,
    ) -> Result<(), BatchFault>
        ensures { Works (S.Stock.meaning stock.now) (add_span E.Edition.shown (S.Stock.meaning stock.now) fields self.old) self.old self.new result }
    {
        self.tables.add_span(stock, fields)
    }

    // Ends the filling: no chunk or span is added any more.
    pub fn close(self) -> Working<E>
        ensures { result ≡ self }
    {
        Batch::over(self.tables)
    }
}
