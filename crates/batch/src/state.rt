// What a batch does in each of its states.
ghost use Rattle.std.specs.Prelude.{◌≡◌, true};
ghost use Rattle.map_table.specs.declared.table.edits.Edit.TheVariants.{Insert as inserts, Remove as removes};
ghost use Rattle.batch_tables.specs.Batches.{edit_batch};
ghost use Rattle.batch_tables.specs.Flags.{Works};
ghost use Rattle.batch_tables.specs.Handing.{parts_held, whole, Joined};

use batch_tables::fault::BatchFault;
use batch_tables::parts::Parts;
use batch_tables::tables::BatchTables;
use map_table::table::Edit;
use span::edition::Edition;
use span::owner::Owner;
use span::value::Value;
use std::marker::{Model, PhantomData};
use texts::stock::{Stock, Text};

// A state of a batch: `filling::Open` or `working::Closed`.
pub trait State {}

// A batch in the state P, which says what else may be done with it.
#[derive(Drop)]
pub struct Batch<E: Edition, P: State> {
    pub(crate) tables: BatchTables<E>,
    state: PhantomData<P>,
}

// It is seen as its tables are.
impl<E: Edition, P: State> Model for Batch<E, P> {
    ghost use Rattle.batch_tables.specs.Batches.{Held};

    ghost Value = { Held E.Head E.Own };

    ghost view = { λ b. b.tables };
}

impl<E: Edition, P: State> Batch<E, P> {
    // A batch over these tables.
    pub(crate) fn over(tables: BatchTables<E>) -> Batch<E, P>
        ensures { result ≡ tables }
    {
        Batch {
            tables,
            state: PhantomData,
        }
    }

    // Edits the maps of the span or chunk at a place.
    pub(crate) fn edit<S: Stock>(
        &mut self,
        stock: &S,
        owner: Owner,
        edit: Edit<Value>,
    ) -> Result<(), BatchFault>
        ensures { Works (S.Stock.meaning stock.now) (edit_batch E.Edition.shown (S.Stock.meaning stock.now) edit owner self.old) self.old self.new result }
    {
        self.tables.edit(stock, owner, edit)
    }

    // Inserts a value under a key.
    pub fn insert<S: Stock>(
        &mut self,
        stock: &S,
        owner: Owner,
        key: Text,
        value: Value,
    ) -> Result<(), BatchFault>
        ensures { Works (S.Stock.meaning stock.now) (edit_batch E.Edition.shown (S.Stock.meaning stock.now) (inserts key value) owner self.old) self.old self.new result }
    {
        self.edit(stock, owner, Edit::Insert(key, value))
    }

    // Takes out every entry of a key.
    pub fn remove<S: Stock>(&mut self, stock: &S, owner: Owner, key: Text) -> Result<(), BatchFault>
        ensures { Works (S.Stock.meaning stock.now) (edit_batch E.Edition.shown (S.Stock.meaning stock.now) (removes key) owner self.old) self.old self.new result }
    {
        self.edit(stock, owner, Edit::Remove(key))
    }

    // The tables, to be read.
    pub fn tables(&self) -> &BatchTables<E>
        ensures { result.now ≡ self.now }
    {
        &self.tables
    }

    // The tables, handed out to the host.
    pub fn into_parts(self) -> Parts<E>
        ensures held { parts_held E.Edition.table result ≡ self }
        ensures whole { whole E.Edition.table result ≡ true }
    {
        self.tables.into_parts()
    }

    // A batch over tables that a host hands in, which are looked into.
    pub fn from_parts(parts: Parts<E>) -> Result<Batch<E, P>, BatchFault>
        ensures { Joined E.Edition.table parts result }
    {
        Ok(Batch::over(BatchTables::from_parts(parts)?))
    }
}
