// The edition of traces that is called 0.4.
ghost use Rattle.v04.specs.Marks.{mark_unseen};
ghost use Rattle.v04.specs.Shown.{v04_view};

use crate::maps::V04Maps;
use crate::own::Own;
use map_table::rows::Row;
use map_table::table::{Edit, TableFault};
use span::checks::check_all;
use span::edition::{ChunkAt, Edition, SpanAt};
use span::fields::Fields;
use span::owner::Owner;
use span::resource::resource_normalized;
use span::shape::Shape;
use span::tag::{Priority, Tag};
use span::value::Value;
use std::alloc::Global;
use texts::stock::{Stock, StockFault, Text};
use vec_map::entry::Entry;
use vec_map::fault::MapFault;

pub struct V04;

// A chunk has neither fields nor maps of its own, so that nothing is read of it.
impl Edition for V04 {
    type Head = ();

    type Own = Own;

    type Maps = V04Maps;

    ghost shown = { v04_view };

    ghost table = { λ t. t };

    ghost unseen = { mark_unseen };

    fn begin(
        heap: Global,
        stride: usize,
        chunks: usize,
        spans: usize,
    ) -> Result<V04Maps, TableFault> {
        V04Maps::begin(heap, stride, chunks, spans)
    }

    fn shape(maps: &V04Maps) -> Shape {
        maps.shape()
    }

    fn add_chunk_row(maps: &mut V04Maps) -> Result<(), MapFault> {
        maps.add_chunk_row()
    }

    fn add_span_row(maps: &mut V04Maps) -> Result<(), MapFault> {
        maps.add_span_row()
    }

    fn edit<S: Stock>(
        maps: &mut V04Maps,
        stock: &S,
        owner: Owner,
        edit: Edit<Value>,
    ) -> Result<(), MapFault> {
        maps.edit(stock, owner, edit)
    }

    fn map_row(maps: &V04Maps, owner: Owner, which: usize) -> Option<Row> {
        maps.map_row(owner, which)
    }

    fn entry(maps: &V04Maps, owner: Owner, which: usize, i: usize) -> Option<Entry<Text, Value>> {
        maps.entry(owner, which, i)
    }

    fn check_span<S: Stock>(stock: &S, fields: &Fields<Own>) -> Result<(), StockFault> {
        let own = &fields.own;
        let texts = [fields.service, own.name, own.resource, own.span_type];
        check_all(stock, &texts)
    }

    fn check_chunk<S: Stock>(_stock: &S, _head: &()) -> Result<(), StockFault> {
        Ok(())
    }

    fn failed<S: Stock>(_stock: &S, span: &SpanAt<'_, Own, V04Maps>) -> bool {
        span.fields.own.error == 1
    }

    fn sampled<S: Stock>(stock: &S, span: &SpanAt<'_, Own, V04Maps>) -> bool {
        span.maps.sampled(stock, span.row)
    }

    fn priority<S: Stock>(stock: &S, span: &SpanAt<'_, Own, V04Maps>) -> Option<Priority> {
        span.maps.priority(stock, span.row)
    }

    // As in the other edition, whose own fields are another struct: a trait for the two names would be longer.
    fn resource<'a, S: Stock>(stock: &'a S, span: &SpanAt<'_, Own, V04Maps>) -> &'a [u8] {
        let own = &span.fields.own;
        resource_normalized(stock.bytes(own.resource), stock.bytes(own.name))
    }

    fn tag<S: Stock>(stock: &S, span: &SpanAt<'_, Own, V04Maps>, key: &[u8]) -> Option<Tag> {
        span.maps.tag(stock, span.row, key)
    }

    fn number<S: Stock>(stock: &S, span: &SpanAt<'_, Own, V04Maps>, key: &[u8]) -> Option<f64> {
        span.maps.number(stock, span.row, key)
    }

    fn chunk_priority<S: Stock>(_stock: &S, _chunk: &ChunkAt<'_, (), V04Maps>) -> Option<Priority> {
        None
    }

    fn chunk_tag<S: Stock>(
        _stock: &S,
        _chunk: &ChunkAt<'_, (), V04Maps>,
        _key: &[u8],
    ) -> Option<Tag> {
        None
    }
}
