// Why a call on a map is refused.
ghost use Rattle.std.specs.Prelude.{◌≡◌};
ghost use Rattle.vec_map.specs.declared.fault.MapFault.TheVariants.{Stock as carried};
ghost use Rattle.vec_map.specs.Refusals.{map_refusal};

use texts::refusal::{Fault, Layer, Refusal};
use texts::stock::StockFault;

#[derive(Clone, Copy, Debug)]
pub enum MapFault {
    // What the stock of texts refused.
    Stock(StockFault),
    // The edition has no such map, or no map for such a value.
    Lacks,
    // No place is left for one more entry.
    Full,
    // There is no entry, or no row, at that place.
    NoPlace,
    // Two entries have one key.
    Twice,
}

impl Fault for MapFault {
    ghost stands = { map_refusal };

    fn refusal(&self) -> Refusal {
        let number = match self {
            MapFault::Stock(inner) => return inner.refusal(),
            MapFault::Lacks => 7,
            MapFault::Full | MapFault::NoPlace => 8,
            MapFault::Twice => 9,
        };
        Refusal {
            number,
            layer: Layer::Map,
            place: 0,
        }
    }
}

// By hand, since its contract names the case.
impl From<StockFault> for MapFault {
    ghost from_gives = { λ e r. r ≡ carried e };

    fn from(fault: StockFault) -> MapFault {
        MapFault::Stock(fault)
    }
}
