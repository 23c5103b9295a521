// Reading the maps of one span.
ghost use Rattle.std.specs.Prelude.{◌≡◌};
ghost use Rattle.std.specs.Option.{option_map, option_flatten};
ghost use Rattle.vec_map.specs.Entries.{entry_at};
ghost use Rattle.span.specs.Readings.{readings, maps_at};
ghost use Rattle.span.specs.Sights.{tag_read, number_read, sampled_in, priority_in};
ghost use Rattle.span.specs.Tables.{owner_map};
ghost use Rattle.map_table.specs.Tables.{row_of};

use crate::maps::V04Maps;
use crate::rows::{read_row, row_entry, row_kept};
use map_table::rows::Row;
use span::key::Key;
use span::owner::Owner;
use span::sights;
use span::tag::{Priority, Tag};
use span::value::Value;
use texts::stock::{Stock, Text};
use vec_map::entry::Entry;

impl V04Maps {
    // What a key reads in the map of texts of a span.
    fn read_text<S: Stock>(&self, stock: &S, row: usize, key: &[u8]) -> Option<Value>
        ensures { result ≡ readings (S.Stock.meaning stock.now) (maps_at self.now.spans row) 0 key.now }
    {
        read_row(&self.meta, stock, row, key)
    }

    // What a key reads in the map of floats of a span.
    fn read_float<S: Stock>(&self, stock: &S, row: usize, key: &[u8]) -> Option<Value>
        ensures { result ≡ readings (S.Stock.meaning stock.now) (maps_at self.now.spans row) 1 key.now }
    {
        read_row(&self.metrics, stock, row, key)
    }

    // The tag that a span shows at a key.
    pub(crate) fn tag<S: Stock>(&self, stock: &S, row: usize, key: &[u8]) -> Option<Tag>
        ensures { result ≡ tag_read (readings (S.Stock.meaning stock.now) (maps_at self.now.spans row) 0 key.now) }
    {
        sights::tag_read(self.read_text(stock, row, key))
    }

    // The number that a span reads at a key.
    pub(crate) fn number<S: Stock>(&self, stock: &S, row: usize, key: &[u8]) -> Option<f64>
        ensures { result ≡ number_read (readings (S.Stock.meaning stock.now) (maps_at self.now.spans row) 1 key.now) }
    {
        sights::number_read(self.read_float(stock, row, key))
    }

    // Whether a span is sampled by itself.
    pub(crate) fn sampled<S: Stock>(&self, stock: &S, row: usize) -> bool
        ensures { result ≡ sampled_in (readings (S.Stock.meaning stock.now) (maps_at self.now.spans row) 1) }
    {
        let mechanism = self.number(stock, row, Key::SpanSamplingMechanism.bytes());
        let rate = self.read_float(stock, row, Key::AnalyticsRate.bytes());
        sights::sampled_by(mechanism, rate.is_some())
    }

    // What a span says of its chunk's priority.
    pub(crate) fn priority<S: Stock>(&self, stock: &S, row: usize) -> Option<Priority>
        ensures { result ≡ priority_in (readings (S.Stock.meaning stock.now) (maps_at self.now.spans row) 1) }
    {
        sights::weighed(self.number(stock, row, Key::SamplingPriority.bytes()))
    }

    // What is kept of a map of a span: meta is the first of its maps, and metrics the second.
    fn span_row(&self, row: usize, which: usize) -> Option<Row>
        ensures { result ≡ option_map row_of (entry_at (maps_at self.now.spans row) which) }
    {
        match which {
            0 => row_kept(&self.meta, row),
            1 => row_kept(&self.metrics, row),
            _ => None,
        }
    }

    // What is kept of one of an owner's maps, by the map's number.
    pub(crate) fn map_row(&self, owner: Owner, which: usize) -> Option<Row>
        ensures { result ≡ option_map row_of (owner_map owner which self.now) }
    {
        match owner {
            Owner::Span(row) => self.span_row(row, which),
            // A chunk has no map. That is said of the fields, and a field is named so that it is known of them.
            Owner::Chunk(_) => {
                let _ = &self.chunks;
                None
            }
        }
    }

    // An entry of a map of a span.
    fn span_entry(&self, row: usize, which: usize, i: usize) -> Option<Entry<Text, Value>>
        ensures { result ≡ option_flatten (option_map (λ m. entry_at m.entries i) (entry_at (maps_at self.now.spans row) which)) }
    {
        match which {
            0 => row_entry(&self.meta, row, i),
            1 => row_entry(&self.metrics, row, i),
            _ => None,
        }
    }

    // One entry of one of an owner's maps.
    pub(crate) fn entry(&self, owner: Owner, which: usize, i: usize) -> Option<Entry<Text, Value>>
        ensures { result ≡ option_flatten (option_map (λ m. entry_at m.entries i) (owner_map owner which self.now)) }
    {
        match owner {
            Owner::Span(row) => self.span_entry(row, which, i),
            // A chunk has no map. That is said of the fields, and a field is named so that it is known of them.
            Owner::Chunk(_) => {
                let _ = &self.chunks;
                None
            }
        }
    }
}
