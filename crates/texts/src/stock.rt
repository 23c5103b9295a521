// A stock of texts as everything above sees it.
ghost use Rattle.std.specs.Prelude.{◌≡◌, ℕ, Bool, List};
ghost use Rattle.std.specs.Str.{bytes_eq};
ghost use Rattle.texts.specs.Outcomes.{answers};
ghost use Rattle.texts.specs.Refusals.{stock_refusal};
ghost use Rattle.texts.specs.Stocks.{Texts, Sound, spelling, same_text, if_known, fault_of_put, Put};

use crate::refusal::{Fault, Layer, Refusal};

// A text is a number that its stock reads. It derives no comparison, since two numbers may read as one text.
#[derive(Clone, Copy, Debug)]
pub struct Text {
    pub number: u64,
}

// The texts that every stock holds from its making, in the order in which it gets them.
#[derive(Clone, Copy, Debug)]
pub enum WellKnown {
    TopLevel,
}

impl WellKnown {
    pub fn bytes(self) -> &'static [u8]
        ensures { result.now ≡ spelling self }
    {
        match self {
            WellKnown::TopLevel => b"_top_level",
        }
    }
}

// The longest text, in bytes.
pub const LONGEST: usize = 65_535;

// The most bytes that a stock uses.
pub const MOST_BYTES: usize = 1_048_576;

#[derive(Clone, Copy, Debug)]
pub enum StockFault {
    // The stock does not know this text.
    Unknown(Text),
    // Fewer bytes or entries are free than are wanted.
    NoSpace,
    // The text is longer than `LONGEST`.
    TooLong,
}

impl StockFault {
    // Why a put of so many bytes is refused, where it is.
    pub fn of_put(len: usize) -> StockFault
        ensures { result ≡ fault_of_put len }
    {
        if len > LONGEST {
            StockFault::TooLong
        } else {
            StockFault::NoSpace
        }
    }
}

impl Fault for StockFault {
    ghost stands = { stock_refusal };

    fn refusal(&self) -> Refusal {
        let (number, place) = match *self {
            StockFault::Unknown(text) => (6, text.number),
            StockFault::NoSpace | StockFault::TooLong => (10, 0),
        };
        Refusal {
            number,
            layer: Layer::Stock,
            place,
        }
    }
}

pub trait Stock {
    // Which texts are known, and how each reads.
    ghost meaning: { Self → Texts };

    // Whether there is room for a put of these bytes.
    ghost room: { Self → List ℕ → Bool };

    fn knows(&self, text: Text) -> bool
        ensures { result ≡ (meaning self.now).known text };

    fn bytes(&self, text: Text) -> &[u8]
        ensures { result.now ≡ (meaning self.now).bytes text };

    // Refuses a text that is not known.
    fn check(&self, text: Text) -> Result<(), StockFault>
        ensures { result ≡ answers (if_known (meaning self.now) text) }
    {
        if self.knows(text) {
            Ok(())
        } else {
            Err(StockFault::Unknown(text))
        }
    }

    // Whether two texts read as the same bytes.
    fn same(&self, a: Text, b: Text) -> bool
        ensures { result ≡ same_text (meaning self.now) a b }
    {
        self.bytes(a) == self.bytes(b)
    }

    // The text that a well-known one became at the making.
    fn held(&self, which: WellKnown) -> Text
        ensures { result ≡ (meaning self.now).held which };

    fn will_take(&self, bytes: &[u8]) -> bool
        ensures { result ≡ room self.now bytes.now };

    fn put(&mut self, bytes: &[u8]) -> Result<Text, StockFault>
        ensures means { Put (meaning self.old) (meaning self.new) (room self.old bytes.now) bytes.now result };

    ghost sound: { (s : Self) → Sound (meaning s) };
}
