// A stock that appends every text to one run of bytes.
#![tactic(auto)]

ghost use Rattle.std.specs.Prelude.{◌≡◌, ◌≤◌, length, take, vec_len, vec_capacity};
ghost use Rattle.pool.specs.Pools.{prelude};
ghost use Rattle.texts.specs.Stocks.{most_bytes};

pub mod calls;

// The bytes put so far, of which there are at most `limit`, with the memory for them taken at the making. It has no model:
// the law of a stock is of each value, and a model's value would not carry that the well-known texts are held.
#[derive(Drop)]
pub struct Pool {
    area: Vec<u8>,
    limit: usize,
    ghost within: { vec_len area ≤ limit },
    ghost reserved: { limit ≤ vec_capacity area },
    ghost few: { limit ≤ most_bytes },
    ghost opens: { take (length prelude) area.items ≡ prelude },
}
