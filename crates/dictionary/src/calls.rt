// Making a dictionary, and its calls.
ghost use Rattle.std.specs.Prelude.{◌≡◌, ◌+◌, ◌<◌, ◌≤◌, true, [], ◌∷◌, ◌++◌, length, replicate, None, vec_len, vec_capacity, slice_index_or};
ghost use Rattle.dictionary.specs.Buckets.{slot_bytes};
ghost use Rattle.dictionary.specs.Dictionaries.{most_entries, total, first_entries, place_of, fits_in, dictionary_texts, dictionary_room, dictionary_put};
ghost use Rattle.dictionary.specs.Held.{texts_in};
ghost use Rattle.dictionary.specs.Makings.{DictionaryMade};
ghost use Rattle.texts.specs.Outcomes.{Came};
ghost use Rattle.texts.specs.Stocks.{most_bytes, Put};
ghost use Rattle.dictionary.specs.DictionariesLemmas.{dictionary_sound};

use crate::Dictionary;
use crate::buckets::bucket;
use crate::slot::Slot;
use std::alloc::Global;
use texts::refusal::Unmade;
use texts::stock::{LONGEST, MOST_BYTES, Stock, StockFault, Text, WellKnown};

// The most entries.
pub const MOST_ENTRIES: usize = 65_536;

// Appends bytes for which the memory is there.
fn extend_reserved(area: &mut Vec<u8>, bytes: &[u8])
    requires { vec_len area.old + length bytes.now ≤ vec_capacity area.old }
    ensures items { area.new.items ≡ area.old.items ++ bytes.now }
    ensures len { vec_len area.new ≡ vec_len area.old + length bytes.now }
    ensures capacity { vec_capacity area.old ≤ vec_capacity area.new }
{
    let _ = area.extend_from_slice(bytes);
}

// The bytes of an entry that lies within the area.
fn bytes_of(area: &[u8], slot: Slot) -> &[u8]
    requires { slot.start + slot.len ≤ length area.now }
    ensures { result.now ≡ slot_bytes area.now slot }
{
    let start = slot.start as usize;
    &area[start..start + slot.len as usize]
}

impl Dictionary {
    // A dictionary that uses at most `bytes` bytes and `entries` entries, with the well-known texts in it.
    pub fn new(heap: Global, bytes: usize, entries: usize) -> Result<Dictionary, Unmade<StockFault>>
        ensures { DictionaryMade bytes entries result }
    {
        let limit = bytes.min(MOST_BYTES);
        let buckets = entries.min(MOST_ENTRIES);
        let first = WellKnown::TopLevel.bytes();
        if limit < first.len() || buckets < 1 {
            return Err(Unmade::Refused(StockFault::NoSpace));
        }
        let mut area = Vec::with_capacity(heap, limit)?;
        extend_reserved(&mut area, first);
        let mut slots = Vec::with_capacity(heap, buckets)?;
        slots.push_reserved(Slot {
            start: 0,
            len: first.len() as u32,
            next: None,
        });
        let mut heads = vec![in heap; None; buckets]?;
        heads[bucket(first, buckets)] = Some(0);
        Ok(Dictionary {
            area,
            slots,
            heads,
            limit,
        })
    }

    // How many texts there are.
    fn count(&self) -> usize
        ensures { result ≡ length (texts_in self.now) }
    {
        self.slots.len()
    }

    // The text at a place, or the empty one past the last.
    fn text_at(&self, place: usize) -> &[u8]
        ensures { result.now ≡ slice_index_or (texts_in self.now) place [] }
    {
        match self.slots.get(place) {
            Some(slot) => bytes_of(&self.area, *slot),
            None => &[],
        }
    }

    // The place of the entry that has these bytes: the chain of their bucket is walked from its latest entry back. No map of
    // the library, since the memory for the chains is taken at the making.
    fn place(&self, bytes: &[u8]) -> Option<u32>
        ensures { result ≡ place_of (texts_in self.now) bytes.now }
    {
        let mut at = self.heads[bucket(bytes, self.heads.len())];
        while let Some(i) = at {
            if self.text_at(i as usize) == bytes {
                return Some(i);
            }
            at = self.slots[i as usize].next;
        }
        None
    }

    // Whether new bytes fit: not too long, an entry free, and as many bytes free as they are.
    #[tactic(auto, using(crate::proofs::Held::fits_counted))]
    fn fits(&self, bytes: &[u8]) -> bool
        ensures { result ≡ fits_in self.now.limit (vec_len self.now.heads) (texts_in self.now) bytes.now }
    {
        bytes.len() <= LONGEST
            && self.slots.len() < self.heads.len()
            && bytes.len() <= self.limit - self.area.len()
    }

    // Adds an entry for new bytes that fit, and answers its number. That limit and buckets stay is said by each step, since a
    // dictionary has no model.
    fn append(&mut self, bytes: &[u8]) -> Text
        requires new { place_of (texts_in self.old) bytes.now ≡ None }
        requires fits { fits_in self.old.limit (vec_len self.old.heads) (texts_in self.old) bytes.now ≡ true }
        ensures number { result ≡ record { number = length (texts_in self.old) } }
        ensures texts { texts_in self.new ≡ texts_in self.old ++ bytes.now ∷ [] }
        ensures limit { self.new.limit ≡ self.old.limit }
        ensures buckets { vec_len self.new.heads ≡ vec_len self.old.heads }
    {
        let place = self.slots.len() as u32;
        let which = bucket(bytes, self.heads.len());
        let slot = Slot {
            start: self.area.len() as u32,
            len: bytes.len() as u32,
            next: self.heads[which],
        };
        extend_reserved(&mut self.area, bytes);
        self.slots.push_reserved(slot);
        self.heads[which] = Some(place);
        Text {
            number: u64::from(place),
        }
    }

    // Answers the number of these bytes, which become one entry more if they are new.
    fn intern(&mut self, bytes: &[u8]) -> Result<Text, StockFault>
        ensures exactly { Came (dictionary_put self.old.limit (vec_len self.old.heads) (texts_in self.old) bytes.now) (texts_in self.old) (texts_in self.new) result }
        ensures limit { self.new.limit ≡ self.old.limit }
        ensures buckets { vec_len self.new.heads ≡ vec_len self.old.heads }
    {
        if let Some(place) = self.place(bytes) {
            return Ok(Text {
                number: u64::from(place),
            });
        }
        if !self.fits(bytes) {
            return Err(StockFault::of_put(bytes.len()));
        }
        Ok(self.append(bytes))
    }
}

impl Stock for Dictionary {
    ghost meaning = { λ d. dictionary_texts (texts_in d) };

    ghost room = { λ d. dictionary_room d.limit (vec_len d.heads) (texts_in d) };

    ghost sound = { λ d. dictionary_sound (texts_in d) d.opens };

    fn knows(&self, text: Text) -> bool {
        text.number < self.count() as u64
    }

    fn bytes(&self, text: Text) -> &[u8] {
        self.text_at(text.number as usize)
    }

    fn held(&self, which: WellKnown) -> Text {
        match which {
            WellKnown::TopLevel => Text { number: 0 },
        }
    }

    fn will_take(&self, bytes: &[u8]) -> bool {
        self.place(bytes).is_some() || self.fits(bytes)
    }

    fn put(&mut self, bytes: &[u8]) -> Result<Text, StockFault>
        ensures means { Put (dictionary_texts (texts_in self.old)) (dictionary_texts (texts_in self.new)) (dictionary_room self.old.limit (vec_len self.old.heads) (texts_in self.old) bytes.now) bytes.now result }
        ensures exactly { Came (dictionary_put self.old.limit (vec_len self.old.heads) (texts_in self.old) bytes.now) (texts_in self.old) (texts_in self.new) result }
        ensures limit { self.new.limit ≡ self.old.limit }
        ensures entries { vec_len self.new.heads ≡ vec_len self.old.heads }
    {
        self.intern(bytes)
    }
}
