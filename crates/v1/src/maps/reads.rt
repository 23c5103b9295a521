// Reading the maps of a span or chunk.
ghost use Rattle.std.specs.Prelude.{◌≡◌};
ghost use Rattle.span.specs.Readings.{readings, maps_at};
ghost use Rattle.span.specs.Sights.{sampled_in, tag_read};
ghost use Rattle.span.specs.Tables.{owner_map};
ghost use Rattle.map_table.specs.Tables.{row_of};
ghost use Rattle.std.specs.Option.{option_map, option_flatten, option_or};
ghost use Rattle.vec_map.specs.Entries.{entry_at};
ghost use Rattle.vec_map.specs.Views.{view_map};
ghost use Rattle.v1.specs.Shown.{promoted};

use crate::maps::V1Maps;
use crate::own::Own;
use crate::shown::promoted;
use map_table::rows::Row;
use span::key::Key;
use span::owner::Owner;
use span::sights::{number_read, sampled_by, tag_read};
use span::tag::Tag;
use span::value::Value;
use texts::stock::{Stock, Text};
use vec_map::entry::Entry;
use vec_map::view::MapView;

impl V1Maps {
    // What the map of a span reads at a key; where there is no such span, nothing.
    pub(crate) fn read_span<S: Stock>(&self, stock: &S, row: usize, key: &[u8]) -> Option<Value>
        ensures { result ≡ readings (S.Stock.meaning stock.now) (maps_at self.now.spans row) 0 key.now }
    {
        self.spans.read(stock, row, key)
    }

    // The same of a chunk.
    pub(crate) fn read_chunk<S: Stock>(&self, stock: &S, row: usize, key: &[u8]) -> Option<Value>
        ensures { result ≡ readings (S.Stock.meaning stock.now) (maps_at self.now.chunks row) 0 key.now }
    {
        self.chunks.read(stock, row, key)
    }

    // Whether a span is sampled by itself, as its map says.
    pub(crate) fn sampled<S: Stock>(&self, stock: &S, row: usize) -> bool
        ensures { result ≡ sampled_in (readings (S.Stock.meaning stock.now) (maps_at self.now.spans row) 0) }
    {
        let mechanism = self.read_span(stock, row, Key::SpanSamplingMechanism.bytes());
        let rate = self.read_span(stock, row, Key::AnalyticsRate.bytes());
        sampled_by(number_read(mechanism), rate.is_some())
    }

    // The tag that a span shows at a key: a text in its map before any field.
    pub(crate) fn tag<S: Stock>(&self, stock: &S, own: &Own, row: usize, key: &[u8]) -> Option<Tag>
        ensures { result ≡ option_or (tag_read (readings (S.Stock.meaning stock.now) (maps_at self.now.spans row) 0 key.now)) (promoted (S.Stock.meaning stock.now) own.now key.now) }
    {
        tag_read(self.read_span(stock, row, key)).or_else(|| promoted(stock, own, key))
    }

    // One of an owner's maps; each owner has one alone.
    fn map_at(&self, owner: Owner, which: usize) -> Option<MapView<'_, Text, Value>>
        ensures { option_map view_map result ≡ owner_map owner which self.now }
    {
        let V1Maps { spans, chunks } = self;
        match owner {
            _ if which > 0 => None,
            Owner::Span(row) => spans.row(row),
            Owner::Chunk(row) => chunks.row(row),
        }
    }

    // What is kept of one of an owner's maps, by the map's number.
    pub(crate) fn map_row(&self, owner: Owner, which: usize) -> Option<Row>
        ensures { result ≡ option_map row_of (owner_map owner which self.now) }
    {
        self.map_at(owner, which).map(Row::from)
    }

    // One entry of one of an owner's maps.
    pub(crate) fn entry(&self, owner: Owner, which: usize, i: usize) -> Option<Entry<Text, Value>>
        ensures { result ≡ option_flatten (option_map (λ m. entry_at m.entries i) (owner_map owner which self.now)) }
    {
        self.map_at(owner, which)?.entry(i)
    }
}
