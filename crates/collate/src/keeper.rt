// One map over a stock of texts.
use crate::action::Action;
use map_table::table::{MOST_PLACES, MapTable, TableFault};
use session::ValueWord;
use span::value::Value;
use std::alloc::Global;
use texts::stock::{Stock, StockFault, Text};
use vec_map::fault::MapFault;
use vec_map::view::MapView;

// The map is the one row of a table.
#[derive(Drop)]
pub struct Keeper<S> {
    pub stock: S,
    maps: MapTable<Value>,
}

// What an action that is taken answers.
#[derive(Clone, Copy)]
pub enum Answer {
    Taken,
    Reading(Option<Value>),
    Follows,
}

impl<S: Stock + Drop> Keeper<S> {
    pub fn new(heap: Global, stock: S) -> Result<Keeper<S>, TableFault> {
        let mut maps = MapTable::new(heap, MOST_PLACES, 1, Value::Bool(false))?;
        let _ = maps.add_row();
        Ok(Keeper { stock, maps })
    }

    // Does what a line asks for. A text is put into the stock where it first stands.
    pub fn act(&mut self, action: &Action) -> Result<Answer, MapFault> {
        match action {
            Action::Insert(key, value) => self.insert(key, value)?,
            Action::Remove(key) => self.remove(key)?,
            Action::Dedup => self.maps.dedup(&self.stock, 0)?,
            Action::Claim => self.maps.claim(&self.stock, 0)?,
            Action::Get(key) => return Ok(Answer::Reading(self.reading(key)?)),
            Action::Dump => return Ok(Answer::Follows),
        }
        Ok(Answer::Taken)
    }

    fn insert(&mut self, key: &[u8], value: &ValueWord) -> Result<(), MapFault> {
        let key = self.stock.put(key)?;
        let value = self.value(value)?;
        self.maps.insert(0, key, value)
    }

    fn remove(&mut self, key: &[u8]) -> Result<(), MapFault> {
        let key = self.stock.put(key)?;
        self.maps.remove(&self.stock, 0, key)
    }

    fn reading(&mut self, key: &[u8]) -> Result<Option<Value>, StockFault> {
        let key = self.stock.put(key)?;
        Ok(self.maps.get(&self.stock, 0, key))
    }

    // The value that a word means, with its text put into the stock, so that it is no `From`.
    fn value(&mut self, word: &ValueWord) -> Result<Value, StockFault> {
        Ok(match word {
            ValueWord::Text(bytes) => Value::Text(self.stock.put(bytes)?),
            ValueWord::Float(bits) => Value::Float(*bits),
            ValueWord::Int(number) => Value::Int(*number),
            ValueWord::Bool(flag) => Value::Bool(*flag),
            ValueWord::Bytes(number) => Value::Bytes(*number),
            ValueWord::KeyValue(number) => Value::KeyValue(*number),
            ValueWord::List(number) => Value::List(*number),
        })
    }

    // The map, to be read. Its row stands from the making on.
    pub fn map(&self) -> MapView<'_, Text, Value> {
        self.maps.row(0).unwrap_or(MapView {
            entries: &[],
            deduped: false,
        })
    }
}
