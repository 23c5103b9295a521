// A worked example, as a theorem.
ghost use Rattle.std.specs.Prelude.{◌≡◌, true};
ghost use Rattle.vec_map.specs.Example.{LastWins};

// A dedup of a = 1, b = 2, a = 3 leaves a = 3, b = 2, flagged.
pub fn example_stands() -> bool
    ensures { (result ≡ true) × LastWins }
{
    true
}
