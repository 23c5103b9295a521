// The edition of traces that is called 1.
ghost use Rattle.v1.specs.Shown.{v1_view};
ghost use Rattle.v1.specs.Marks.{mark_unseen};

use crate::chunk::Head;
use crate::maps::V1Maps;
use crate::own::Own;
use crate::shown::priority_of;
use map_table::rows::Row;
use map_table::table::{Edit, TableFault};
use span::checks::check_all;
use span::edition::{ChunkAt, Edition, SpanAt};
use span::fields::Fields;
use span::owner::Owner;
use span::resource::resource_normalized;
use span::shape::Shape;
use span::sights::{number_read, tag_read};
use span::tag::{Priority, Tag};
use span::value::Value;
use std::alloc::Global;
use texts::stock::{Stock, StockFault, Text};
use vec_map::entry::Entry;
use vec_map::fault::MapFault;

pub struct V1;

impl Edition for V1 {
    type Head = Head;

    type Own = Own;

    type Maps = V1Maps;

    ghost shown = { v1_view };

    ghost table = { λ t. t };

    ghost unseen = { mark_unseen };

    fn begin(
        heap: Global,
        stride: usize,
        chunks: usize,
        spans: usize,
    ) -> Result<V1Maps, TableFault> {
        V1Maps::begin(heap, stride, chunks, spans)
    }

    fn shape(maps: &V1Maps) -> Shape {
        maps.shape()
    }

    fn add_chunk_row(maps: &mut V1Maps) -> Result<(), MapFault> {
        maps.add_chunk_row()
    }

    fn add_span_row(maps: &mut V1Maps) -> Result<(), MapFault> {
        maps.add_span_row()
    }

    fn edit<S: Stock>(
        maps: &mut V1Maps,
        stock: &S,
        owner: Owner,
        edit: Edit<Value>,
    ) -> Result<(), MapFault> {
        maps.edit(stock, owner, edit)
    }

    fn map_row(maps: &V1Maps, owner: Owner, which: usize) -> Option<Row> {
        maps.map_row(owner, which)
    }

    fn entry(maps: &V1Maps, owner: Owner, which: usize, i: usize) -> Option<Entry<Text, Value>> {
        maps.entry(owner, which, i)
    }

    fn check_span<S: Stock>(stock: &S, fields: &Fields<Own>) -> Result<(), StockFault> {
        let own = &fields.own;
        check_all(
            stock,
            &[
                fields.service,
                own.name,
                own.resource,
                own.span_type,
                own.env,
                own.version,
                own.component,
            ],
        )
    }

    fn check_chunk<S: Stock>(stock: &S, head: &Head) -> Result<(), StockFault> {
        stock.check(head.origin)
    }

    fn failed<S: Stock>(_stock: &S, span: &SpanAt<'_, Own, V1Maps>) -> bool {
        span.fields.own.error
    }

    fn sampled<S: Stock>(stock: &S, span: &SpanAt<'_, Own, V1Maps>) -> bool {
        span.maps.sampled(stock, span.row)
    }

    // A v1 span says nothing of its chunk's priority.
    fn priority<S: Stock>(_stock: &S, _span: &SpanAt<'_, Own, V1Maps>) -> Option<Priority> {
        None
    }

    // As in the other edition, whose own fields are another struct: a trait for the two names would be longer.
    fn resource<'a, S: Stock>(stock: &'a S, span: &SpanAt<'_, Own, V1Maps>) -> &'a [u8] {
        let own = &span.fields.own;
        resource_normalized(stock.bytes(own.resource), stock.bytes(own.name))
    }

    fn tag<S: Stock>(stock: &S, span: &SpanAt<'_, Own, V1Maps>, key: &[u8]) -> Option<Tag> {
        span.maps.tag(stock, &span.fields.own, span.row, key)
    }

    fn number<S: Stock>(stock: &S, span: &SpanAt<'_, Own, V1Maps>, key: &[u8]) -> Option<f64> {
        number_read(span.maps.read_span(stock, span.row, key))
    }

    fn chunk_priority<S: Stock>(_stock: &S, chunk: &ChunkAt<'_, Head, V1Maps>) -> Option<Priority> {
        priority_of(chunk.head)
    }

    fn chunk_tag<S: Stock>(
        stock: &S,
        chunk: &ChunkAt<'_, Head, V1Maps>,
        key: &[u8],
    ) -> Option<Tag> {
        tag_read(chunk.maps.read_chunk(stock, chunk.row, key))
    }
}
