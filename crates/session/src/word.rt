// What the writers of numbers do with their words.
ghost use Rattle.std.specs.Prelude.{◌≡◌, ◌++◌, is_ok, IfSome, if◌then◌else◌};

use std::alloc::AllocError;
use std::fmt;

// What a word takes at most: a signed number of 64 bits with its sign.
const LONGEST: usize = 20;

// Appends a word, which is made whole first. Memory is asked for once, since a `String` that grows asks several times.
pub(crate) fn append<W: fmt::Display + Drop>(out: &mut Vec<u8>, word: W) -> Result<(), AllocError>
    ensures { IfSome (W.output word) (λ bytes. out.new.items ≡ (if is_ok result then out.old.items ++ bytes else out.old.items)) }
{
    let mut whole = String::with_capacity(*out.allocator(), LONGEST)?;
    whole.write(word)?;
    out.extend_from_slice(whole.as_bytes())
}
