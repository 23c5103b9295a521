// Why a word is not read.
ghost use Rattle.std.specs.Prelude.{◌≡◌};
ghost use Rattle.session.specs.declared.fault.WordFault.TheVariants.{Memory};

use std::alloc::{AllocError, AllocFailed};

#[derive(Clone, Copy, Debug, PartialEq, Eq)]
pub enum WordFault {
    // The word is not of the wanted kind.
    Malformed,
    // There is no memory for what it means.
    Memory,
}

// Both conversions are written out, since a derived one does not say which fault it gives.
impl From<AllocError> for WordFault {
    ghost from_gives = { λ _ r. r ≡ Memory };

    fn from(_e: AllocError) -> WordFault {
        WordFault::Memory
    }
}

impl<T: Drop> From<AllocFailed<T>> for WordFault {
    ghost from_gives = { λ _ r. r ≡ Memory };

    fn from(_e: AllocFailed<T>) -> WordFault {
        WordFault::Memory
    }
}
