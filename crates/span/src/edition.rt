// An edition of spans and chunks: what it holds, what it shows, and how it keeps their maps.
ghost use Rattle.std.specs.Prelude.{◌≡◌};
ghost use Rattle.std.specs.Option.{option_map, option_flatten};
ghost use Rattle.texts.specs.Outcomes.{Came, answers};
ghost use Rattle.texts.specs.Stocks.{Texts};
ghost use Rattle.vec_map.specs.Entries.{entry_at};
ghost use Rattle.map_table.specs.Tables.{row_of};
ghost use Rattle.span.specs.Views.{View, MarkUnseen};
ghost use Rattle.span.specs.Tables.{Table, TablesMade, shape_of, edit_owner, chunk_row_added, span_row_added, if_all_known, owner_map, sight_at, chunk_sight_at};

use crate::fields::Fields;
use crate::owner::Owner;
use crate::shape::Shape;
use crate::tag::{Priority, Tag};
use crate::value::Value;
use map_table::rows::Row;
use map_table::table::{Edit, TableFault};
use std::alloc::Global;
use texts::stock::{Stock, StockFault, Text};
use vec_map::entry::Entry;
use vec_map::fault::MapFault;

// A span by its fields, among the tables that have its maps at a row. A copy of it copies neither.
#[derive_where(Clone, Copy)]
pub struct SpanAt<'a, O, M> {
    pub fields: &'a Fields<O>,
    pub maps: &'a M,
    pub row: usize,
}

// A chunk likewise.
#[derive_where(Clone, Copy)]
pub struct ChunkAt<'a, H, M> {
    pub head: &'a H,
    pub maps: &'a M,
    pub row: usize,
}

pub trait Edition: Sized {
    // What a chunk has of its own, what a span has beside its service, id and parent, and the tables of their maps.
    type Head: Copy;

    type Own: Copy;

    type Maps: Drop;

    // What is shown of a span or chunk.
    ghost shown: { View Self.Head Self.Own };

    // The maps that the tables hold.
    ghost table: { Self.Maps → Table };

    // Tables with no rows yet, and with the memory for so many chunks and spans.
    fn begin(
        heap: Global,
        stride: usize,
        chunks: usize,
        spans: usize,
    ) -> Result<Self::Maps, TableFault>
        ensures { TablesMade table stride chunks spans result };

    fn shape(maps: &Self::Maps) -> Shape
        ensures { result ≡ shape_of (table maps.now) };

    // Appends the blank maps of one chunk more.
    fn add_chunk_row(maps: &mut Self::Maps) -> Result<(), MapFault>
        ensures { Came (chunk_row_added shown (table maps.old)) (table maps.old) (table maps.new) result };

    // Appends the blank maps of one span more.
    fn add_span_row(maps: &mut Self::Maps) -> Result<(), MapFault>
        ensures { Came (span_row_added shown (table maps.old)) (table maps.old) (table maps.new) result };

    // Edits the maps of one owner.
    fn edit<S: Stock>(
        maps: &mut Self::Maps,
        stock: &S,
        owner: Owner,
        edit: Edit<Value>,
    ) -> Result<(), MapFault>
        ensures { Came (edit_owner shown (S.Stock.meaning stock.now) edit owner (table maps.old)) (table maps.old) (table maps.new) result };

    // What is kept of one of an owner's maps. A map's number is its place among the owner's, counted from 0.
    fn map_row(maps: &Self::Maps, owner: Owner, which: usize) -> Option<Row>
        ensures { result ≡ option_map row_of (owner_map owner which (table maps.now)) };

    // One entry of one of an owner's maps, by the map's number and the entry's place.
    fn entry(maps: &Self::Maps, owner: Owner, which: usize, i: usize) -> Option<Entry<Text, Value>>
        ensures { result ≡ option_flatten (option_map (λ m. entry_at m.entries i) (owner_map owner which (table maps.now))) };

    // Refuses the first text among a span's fields that the stock does not know.
    fn check_span<S: Stock>(stock: &S, fields: &Fields<Self::Own>) -> Result<(), StockFault>
        ensures { result ≡ answers (if_all_known (S.Stock.meaning stock.now) (shown.span_texts fields.now)) };

    // The same of a chunk's fields.
    fn check_chunk<S: Stock>(stock: &S, head: &Self::Head) -> Result<(), StockFault>
        ensures { result ≡ answers (if_all_known (S.Stock.meaning stock.now) (shown.chunk_texts head.now)) };

    // Whether the span failed.
    fn failed<S: Stock>(stock: &S, span: &SpanAt<'_, Self::Own, Self::Maps>) -> bool
        ensures { result ≡ (sight_at shown table (S.Stock.meaning stock.now) span.now).failed };

    // Whether the span is sampled by itself, whatever becomes of its chunk.
    fn sampled<S: Stock>(stock: &S, span: &SpanAt<'_, Self::Own, Self::Maps>) -> bool
        ensures { result ≡ (sight_at shown table (S.Stock.meaning stock.now) span.now).sampled };

    // What the span says of its chunk's priority.
    fn priority<S: Stock>(stock: &S, span: &SpanAt<'_, Self::Own, Self::Maps>) -> Option<Priority>
        ensures { result ≡ (sight_at shown table (S.Stock.meaning stock.now) span.now).priority };

    // The resource that the span shows.
    fn resource<'a, S: Stock>(stock: &'a S, span: &SpanAt<'_, Self::Own, Self::Maps>) -> &'a [u8]
        ensures { result.now ≡ (sight_at shown table (S.Stock.meaning stock.now) span.now).resource };

    // The tag that the span shows at a key.
    fn tag<S: Stock>(stock: &S, span: &SpanAt<'_, Self::Own, Self::Maps>, key: &[u8]) -> Option<Tag>
        ensures { result ≡ (sight_at shown table (S.Stock.meaning stock.now) span.now).tag key.now };

    // The number that the span reads at a key.
    fn number<S: Stock>(
        stock: &S,
        span: &SpanAt<'_, Self::Own, Self::Maps>,
        key: &[u8],
    ) -> Option<f64>
        ensures { result ≡ (sight_at shown table (S.Stock.meaning stock.now) span.now).number key.now };

    // What the chunk says of its own priority.
    fn chunk_priority<S: Stock>(
        stock: &S,
        chunk: &ChunkAt<'_, Self::Head, Self::Maps>,
    ) -> Option<Priority>
        ensures { result ≡ (chunk_sight_at shown table (S.Stock.meaning stock.now) chunk.now).priority };

    // The tag that the chunk shows at a key.
    fn chunk_tag<S: Stock>(
        stock: &S,
        chunk: &ChunkAt<'_, Self::Head, Self::Maps>,
        key: &[u8],
    ) -> Option<Tag>
        ensures { result ≡ (chunk_sight_at shown table (S.Stock.meaning stock.now) chunk.now).tag key.now };

    // A mark is seen at its own key alone.
    ghost unseen: { (t : Texts) → MarkUnseen t shown };
}
