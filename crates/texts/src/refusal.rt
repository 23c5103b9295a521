// What a refusal tells: its number, the layer that refused, and the place that is at fault.
ghost use Rattle.std.specs.Prelude.{◌≡◌, Some};
ghost use Rattle.texts.specs.Layers.{layer_word, refusal_words};
ghost use Rattle.texts.specs.declared.refusal.Refusal.{Refusal};
ghost use Rattle.texts.specs.declared.refusal.Unmade.TheVariants.{Memory};

use std::alloc::AllocError;
use std::fmt;

#[derive(Clone, Copy, PartialEq, Eq, Debug)]
pub enum Layer {
    Batch,
    Stock,
    Map,
    Filter,
}

impl Layer {
    // The word that stands for the layer in a session.
    pub fn word(self) -> &'static str
        ensures { result.now ≡ layer_word self }
    {
        match self {
            Layer::Batch => "batch",
            Layer::Stock => "stock",
            Layer::Map => "map",
            Layer::Filter => "filter",
        }
    }
}

impl fmt::Display for Layer {
    ghost output = { λ layer. Some (layer_word layer) };

    fn fmt<W: fmt::Write>(&self, f: &mut fmt::Formatter<W>) -> fmt::Result {
        f.write_str(self.word())
    }
}

// A ground goes by its number outside; inside, faults are enums, each case of which stands for one refusal.
#[derive(Clone, Copy, PartialEq, Eq, Debug)]
pub struct Refusal {
    pub number: u8,
    pub layer: Layer,
    pub place: u64,
}

impl fmt::Display for Refusal {
    ghost output = { λ refusal. Some (refusal_words refusal) };

    fn fmt<W: fmt::Write>(&self, f: &mut fmt::Formatter<W>) -> fmt::Result {
        write!(f, "{} {} {}", self.number, self.layer, self.place)
    }
}

// Why a call was refused: each case of a fault stands for one refusal.
pub trait Fault {
    ghost stands: { Self → Refusal };

    fn refusal(&self) -> Refusal
        ensures { result ≡ stands self.now };

    fn number(&self) -> u8
        ensures { result ≡ (stands self.now).number }
    {
        self.refusal().number
    }

    fn layer(&self) -> Layer
        ensures { result ≡ (stands self.now).layer }
    {
        self.refusal().layer
    }

    fn place(&self) -> u64
        ensures { result ≡ (stands self.now).place }
    {
        self.refusal().place
    }
}

// Why something could not be made: it was refused on a ground, or there was no memory, which has no number. An `Option` of
// the ground would read as no fault where there was no memory.
#[derive(Clone, Copy, Debug)]
pub enum Unmade<F> {
    Refused(F),
    Memory,
}

// By hand, since its contract names the case.
impl<F> From<AllocError> for Unmade<F> {
    ghost from_gives = { λ _ r. r ≡ Memory };

    fn from(_none: AllocError) -> Unmade<F> {
        Unmade::Memory
    }
}
