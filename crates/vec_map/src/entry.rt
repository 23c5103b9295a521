// Entries, and when two keys are the same.
ghost use Rattle.std.specs.Prelude.{◌≡◌, Bool};
ghost use Rattle.texts.specs.Stocks.{same_text};
ghost use Rattle.vec_map.specs.Keys.{Equivalence};
ghost use Rattle.vec_map.specs.KeysLemmas.{text_equivalence};

use texts::stock::{Stock, Text};

#[derive(Clone, Copy, Debug)]
pub struct Entry<K, V> {
    pub key: K,
    pub value: V,
}

// When two keys are the same. A trait, and no closure, since each sameness brings its law.
pub trait Sameness<K> {
    ghost alike: { Self → K → K → Bool };

    fn same_key(&self, a: &K, b: &K) -> bool
        ensures { result ≡ alike self.now a.now b.now };

    ghost equivalence: { (s : Self) → Equivalence (alike s) };
}

// Texts as keys: two are the same where their stock reads them as the same bytes.
impl<S: Stock> Sameness<Text> for S {
    ghost alike = { λ s. same_text (S.Stock.meaning s) };

    ghost equivalence = { λ s. text_equivalence (S.Stock.meaning s) };

    fn same_key(&self, a: &Text, b: &Text) -> bool {
        self.same(*a, *b)
    }
}
