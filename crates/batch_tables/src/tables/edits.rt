// Editing the maps of one span or chunk.
ghost use Rattle.std.specs.Prelude.{◌≡◌, true};
ghost use Rattle.texts.specs.Outcomes.{Came, answers};
ghost use Rattle.vec_map.specs.declared.fault.MapFault.TheVariants.{Stock as of_stock};
ghost use Rattle.span.specs.Owners.{owner_place};
ghost use Rattle.span.specs.Tables.{edit_owner, if_all_known};
ghost use Rattle.batch_tables.specs.declared.fault.BatchFault.TheVariants.{Map as owned_by};
ghost use Rattle.batch_tables.specs.Batches.{told_as, after, edit_texts, edit_batch, retold};
ghost use Rattle.batch_tables.specs.Flags.{Works};
ghost use Rattle.batch_tables.specs.Held.{Stands};

use crate::fault::{BatchFault, OwnedFault};
use crate::tables::BatchTables;
use map_table::table::Edit;
use span::checks::check_all;
use span::edition::Edition;
use span::owner::Owner;
use span::value::Value;
use texts::stock::Stock;
use vec_map::fault::MapFault;

// Refuses the first text that an edit names and the stock does not know, the key before the value.
fn check_texts<S: Stock>(stock: &S, edit: Edit<Value>) -> Result<(), MapFault>
    ensures { result ≡ answers (told_as of_stock (if_all_known (S.Stock.meaning stock.now) (edit_texts edit))) }
{
    match edit {
        Edit::Insert(key, Value::Text(text)) => check_all(stock, &[key, text])?,
        Edit::Insert(key, _) | Edit::Remove(key) => stock.check(key)?,
        Edit::Dedup | Edit::Claim => {}
    }
    Ok(())
}

// Edits the maps of an owner, with texts that are known.
fn edit_known<E: Edition, S: Stock>(
    maps: &mut E::Maps,
    stock: &S,
    owner: Owner,
    edit: Edit<Value>,
) -> Result<(), MapFault>
    ensures { Came
        (after (told_as of_stock (if_all_known (S.Stock.meaning stock.now) (edit_texts edit))) (edit_owner E.Edition.shown (S.Stock.meaning stock.now) edit owner (E.Edition.table maps.old)))
        (E.Edition.table maps.old) (E.Edition.table maps.new) result }
{
    check_texts(stock, edit)?;
    E::edit(maps, stock, owner, edit)
}

// What a map's call came to, told of the owner at a place.
fn owned(place: usize, told: Result<(), MapFault>) -> Result<(), BatchFault>
    ensures { result ≡ retold (owned_by place) told }
{
    Ok(told.map_err(|fault| OwnedFault { place, fault })?)
}

impl<E: Edition> BatchTables<E> {
    // Edits the maps of an owner that stands.
    fn edit_standing<S: Stock>(
        &mut self,
        stock: &S,
        owner: Owner,
        edit: Edit<Value>,
    ) -> Result<(), BatchFault>
        requires { Stands owner self.old.batch }
        ensures { Came (edit_batch E.Edition.shown (S.Stock.meaning stock.now) edit owner self.old) self.old self.new result }
    {
        let told = edit_known::<E, S>(&mut self.maps, stock, owner, edit);
        owned(owner.place(), told)
    }

    // Edits the maps of an owner, if it is there.
    fn edit_found<S: Stock>(
        &mut self,
        stock: &S,
        owner: Owner,
        edit: Edit<Value>,
    ) -> Result<(), BatchFault>
        ensures { Came (edit_batch E.Edition.shown (S.Stock.meaning stock.now) edit owner self.old) self.old self.new result }
    {
        self.find(owner)?;
        self.edit_standing(stock, owner, edit)
    }

    // Edits the maps of the span or chunk at a place.
    pub fn edit<S: Stock>(
        &mut self,
        stock: &S,
        owner: Owner,
        edit: Edit<Value>,
    ) -> Result<(), BatchFault>
        ensures { Works (S.Stock.meaning stock.now) (edit_batch E.Edition.shown (S.Stock.meaning stock.now) edit owner self.old) self.old self.new result }
    {
        self.edit_found(stock, owner, edit)
    }
}
