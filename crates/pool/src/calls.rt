// Making a pool, and its calls.
ghost use Rattle.std.specs.Prelude.{◌≡◌, ◌+◌, cond, length};
ghost use Rattle.texts.specs.Outcomes.{Came};
ghost use Rattle.texts.specs.Stocks.{Put};
ghost use Rattle.pool.specs.Pools.{start_of, length_of, pool_texts, pool_room, pool_put};
ghost use Rattle.pool.specs.Makings.{PoolMade};
ghost use Rattle.std.proofs.Common.{rules, arith};

use crate::Pool;
use std::alloc::Global;
use texts::refusal::Unmade;
use texts::stock::{LONGEST, MOST_BYTES, Stock, StockFault, Text, WellKnown};

// What a place in the pool counts in a text's number: more than the longest text has bytes.
const STEP: u64 = 65_536;

// Where a text starts in the pool.
fn start_of(text: Text) -> usize
    ensures { result ≡ start_of text }
{
    (text.number / STEP) as usize
}

// How many bytes a text has.
fn length_of(text: Text) -> usize
    ensures { result ≡ length_of text }
{
    (text.number % STEP) as usize
}

impl Pool {
    // A pool that uses at most `bytes` bytes, with the well-known texts in it.
    pub fn new(heap: Global, bytes: usize) -> Result<Pool, Unmade<StockFault>>
        ensures { PoolMade bytes result }
    {
        let limit = bytes.min(MOST_BYTES);
        let first = WellKnown::TopLevel.bytes();
        if first.len() > limit {
            return Err(Unmade::Refused(StockFault::NoSpace));
        }
        let mut area = Vec::with_capacity(heap, limit)?;
        area.extend_from_slice(first)?;
        Ok(Pool { area, limit })
    }

    // Appends a text, and answers its number. The memory was taken at the making, so the growth cannot fail.
    fn append(&mut self, bytes: &[u8]) -> Result<Text, StockFault>
        ensures exactly { Came (pool_put self.old.limit self.old.area.items bytes.now) self.old.area.items self.new.area.items result }
        ensures limit { self.new.limit ≡ self.old.limit }
    {
        if !self.will_take(bytes) {
            return Err(StockFault::of_put(bytes.len()));
        }
        let number = self.area.len() as u64 * STEP + bytes.len() as u64;
        let _ = self.area.extend_from_slice(bytes);
        Ok(Text { number })
    }
}

impl Stock for Pool {
    ghost meaning = { λ p. pool_texts p.area.items };

    ghost room = { λ p. pool_room p.limit p.area.items };

    ghost sound = { Prim.search rules };

    fn knows(&self, text: Text) -> bool {
        start_of(text) + length_of(text) <= self.area.len()
    }

    fn bytes(&self, text: Text) -> &[u8] {
        let start = start_of(text);
        self.area.get(start..start + length_of(text)).unwrap_or(&[])
    }

    fn held(&self, which: WellKnown) -> Text {
        match which {
            WellKnown::TopLevel => Text { number: 10 },
        }
    }

    fn will_take(&self, bytes: &[u8]) -> bool {
        bytes.len() <= LONGEST && bytes.len() <= self.limit - self.area.len()
    }

    fn put(&mut self, bytes: &[u8]) -> Result<Text, StockFault>
        ensures means { Put (pool_texts self.old.area.items) (pool_texts self.new.area.items) (pool_room self.old.limit self.old.area.items bytes.now) bytes.now result }
        ensures exactly { Came (pool_put self.old.limit self.old.area.items bytes.now) self.old.area.items self.new.area.items result }
        ensures limit { self.new.limit ≡ self.old.limit }
    {
        self.append(bytes)
    }
}
