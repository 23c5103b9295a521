// A stock that holds each text once.
#![tactic(auto)]

ghost use Rattle.std.specs.Prelude.{◌≡◌, ◌<◌, ◌≤◌, true, length, take, vec_len, vec_capacity};
ghost use Rattle.dictionary.specs.Dictionaries.{most_entries, total, apart, first_entries};
ghost use Rattle.texts.specs.Stocks.{most_bytes};
ghost use Rattle.dictionary.specs.Buckets.{held_texts, slots_within, HeadsRight, LinksRight};

use slot::Slot;

mod buckets;
pub mod calls;
mod slot;

// The bytes of all texts, at most `limit` of them; an entry for each text, at most as many as there are buckets; and the
// latest entry of each bucket. The memory for them is taken at the making. It has no model: the law of a stock is of each
// value, and a model's value would not carry that the well-known texts are held.
#[derive(Drop)]
pub struct Dictionary {
    area: Vec<u8>,
    slots: Vec<Slot>,
    heads: Vec<Option<u32>>,
    limit: usize,
    ghost within: { vec_len area ≤ limit },
    ghost reserved: { limit ≤ vec_capacity area },
    ghost few: { limit ≤ most_bytes },
    ghost entries_within: { vec_len slots ≤ vec_len heads },
    ghost entries_reserved: { vec_len heads ≤ vec_capacity slots },
    ghost entries_few: { vec_len heads ≤ most_entries },
    ghost some: { 0 < vec_len heads },
    ghost placed: { slots_within (vec_len area) slots.items ≡ true },
    ghost whole: { total (held_texts area.items slots.items) ≡ vec_len area },
    ghost once: { apart (held_texts area.items slots.items) ≡ true },
    ghost opens: { take (length first_entries) (held_texts area.items slots.items) ≡ first_entries },
    ghost headed: { HeadsRight (vec_len heads) heads.items (held_texts area.items slots.items) },
    ghost linked: { LinksRight (vec_len heads) slots.items (held_texts area.items slots.items) },
}
