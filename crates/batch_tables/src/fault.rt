// Why a call on a batch is refused.
ghost use Rattle.std.specs.Prelude.{◌≡◌};
ghost use Rattle.batch_tables.specs.declared.fault.BatchFault.TheVariants.{Stock as carried, Map as owned_by};
ghost use Rattle.batch_tables.specs.Refusals.{batch_refusal};

use texts::refusal::{Fault, Layer, Refusal};
use texts::stock::StockFault;
use vec_map::fault::MapFault;

#[derive(Clone, Copy, Debug)]
pub enum BatchFault {
    // The tables are too short for the counts, the counts do not add up, or a map passes the stride.
    Broken,
    // A map has at least one place, and not too many.
    Stride,
    // There is no such chunk.
    NoChunk(usize),
    // There is no such span.
    NoSpan(usize),
    // An empty chunk has no root.
    NoRoot(usize),
    // A further chunk or span would pass the limits or the room.
    Full,
    // What the stock of texts refused.
    Stock(StockFault),
    // What the map of a span or chunk refused, and the place of its owner.
    Map(usize, MapFault),
}

// What a map refused, with the place of the span or chunk that has it.
#[derive(Clone, Copy, Debug)]
pub struct OwnedFault {
    pub place: usize,
    pub fault: MapFault,
}

// By hand, as the next, since its contract names the case.
impl From<OwnedFault> for BatchFault {
    ghost from_gives = { λ e r. r ≡ owned_by e.place e.fault };

    fn from(owned: OwnedFault) -> BatchFault {
        BatchFault::Map(owned.place, owned.fault)
    }
}

impl From<StockFault> for BatchFault {
    ghost from_gives = { λ e r. r ≡ carried e };

    fn from(fault: StockFault) -> BatchFault {
        BatchFault::Stock(fault)
    }
}

// What a map refused, told of its owner; a stock's refusal names its own place.
fn owned_refusal(place: usize, fault: MapFault) -> Refusal
    ensures { result ≡ batch_refusal (owned_by place fault) }
{
    match fault {
        MapFault::Stock(inner) => inner.refusal(),
        _ => Refusal {
            number: fault.number(),
            layer: Layer::Map,
            place: place as u64,
        },
    }
}

impl Fault for BatchFault {
    ghost stands = { batch_refusal };

    fn refusal(&self) -> Refusal {
        let (number, place) = match *self {
            BatchFault::Broken => (1, 0),
            BatchFault::Stride => (2, 0),
            BatchFault::NoChunk(place) | BatchFault::NoSpan(place) => (3, place as u64),
            BatchFault::NoRoot(place) => (4, place as u64),
            BatchFault::Full => (5, 0),
            BatchFault::Stock(inner) => return inner.refusal(),
            BatchFault::Map(place, inner) => return owned_refusal(place, inner),
        };
        Refusal {
            number,
            layer: Layer::Batch,
            place,
        }
    }
}
