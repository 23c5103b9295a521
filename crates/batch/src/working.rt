// A batch that is worked on: it has all its chunks and spans.
ghost use Rattle.std.specs.Prelude.{◌≡◌};
ghost use Rattle.texts.specs.Outcomes.{answers};
ghost use Rattle.map_table.specs.declared.table.edits.Edit.TheVariants.{Dedup as dedups, Claim as claims};
ghost use Rattle.batch_tables.specs.Batches.{edit_batch};
ghost use Rattle.batch_tables.specs.Flags.{Works};
ghost use Rattle.batch_tables.specs.Queries.{query_batch};

use crate::state::{Batch, State};
use batch_tables::fault::BatchFault;
use batch_tables::query::{Question, Reply};
use map_table::table::Edit;
use span::edition::Edition;
use span::owner::Owner;
use texts::stock::Stock;

// The state in which a batch is worked on.
#[derive(Clone, Copy, Debug)]
pub struct Closed;

impl State for Closed {}

pub type Working<E> = Batch<E, Closed>;

impl<E: Edition> Batch<E, Closed> {
    // Leaves the last entry of each key, the latest first, and flags the maps.
    pub fn dedup<S: Stock>(&mut self, stock: &S, owner: Owner) -> Result<(), BatchFault>
        ensures { Works (S.Stock.meaning stock.now) (edit_batch E.Edition.shown (S.Stock.meaning stock.now) dedups owner self.old) self.old self.new result }
    {
        self.edit(stock, owner, Edit::Dedup)
    }

    // Flags the maps on the caller's word, which is looked into: keys that stand twice are refused.
    pub fn claim<S: Stock>(&mut self, stock: &S, owner: Owner) -> Result<(), BatchFault>
        ensures { Works (S.Stock.meaning stock.now) (edit_batch E.Edition.shown (S.Stock.meaning stock.now) claims owner self.old) self.old self.new result }
    {
        self.edit(stock, owner, Edit::Claim)
    }

    // Answers a question on one span.
    pub fn query<S: Stock>(
        &self,
        stock: &S,
        span: usize,
        question: Question,
    ) -> Result<Reply, BatchFault>
        ensures { result ≡ answers (query_batch E.Edition.shown (S.Stock.meaning stock.now) span question self.now) }
    {
        self.tables.query(stock, span, question)
    }
}
