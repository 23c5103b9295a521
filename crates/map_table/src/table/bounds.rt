// How far a table goes.
ghost use Rattle.std.specs.Prelude.{◌≡◌, ℕ, ◌+◌, ◌*◌, ◌<◌, ◌≤◌, length, take, vec_len};
ghost use Rattle.map_table.specs.Rows.{maps_of, stride_fits};

use crate::table::{MOST_PLACES, MapTable};

// Whether a row may have so many places.
pub fn stride_fits(stride: usize) -> bool
    ensures { result ≡ stride_fits stride }
{
    (1..=MOST_PLACES).contains(&stride)
}

impl<V: Copy> MapTable<V> {
    // How many rows there are.
    pub(super) fn count(&self) -> usize
        ensures maps { result ≡ length (maps_of self.now) }
        ensures rows { result ≡ vec_len self.now.rows }
        ensures all { (n : ℕ) → result ≤ n → maps_of self.now ≡ take n (maps_of self.now) }
    {
        self.rows.len()
    }

    // Where the places of a row begin. They end within the table.
    pub(super) fn start_of(&self, row: usize) -> usize
        requires { row < vec_len self.now.rows }
        ensures start { result ≡ row * self.now.stride }
        ensures within { result + self.now.stride ≤ vec_len self.now.entries }
    {
        row * self.stride
    }
}
