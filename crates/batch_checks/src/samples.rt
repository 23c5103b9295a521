// A stock, empty batches, and what a call was refused with.
use batch::filling::Filling;
use batch::{BatchFault, Room};
use pool::Pool;
use span::edition::Edition;
use span::fields::{Fields, TraceId};
use span::v1::SpanKind;
use std::alloc::Global;
use std::process::Abort;
use std::test::Fail;
use texts::refusal::{Fault, Layer, Refusal};
use texts::stock::Text;
use v1::chunk::Head;

// A text with no bytes, which every pool knows.
pub(crate) const EMPTY: Text = Text { number: 0 };

// A text that no stock of 1,000 bytes knows, and so is every one with a number next above.
pub(crate) const LOST: Text = Text { number: 65_536_001 };

pub(crate) fn stock(heap: Global) -> Result<Pool, Fail> {
    Pool::new(heap, 1_000).map_err(|_| Fail::new("no stock"))
}

pub(crate) fn batch<E: Edition>(
    heap: Global,
    stride: usize,
    chunks: usize,
    spans: usize,
) -> Result<Filling<E>, Fail> {
    Filling::begin(heap, stride, Room { chunks, spans }).map_err(|_| Fail::new("no batch"))
}

// A batch of one chunk with these spans, whose maps have `stride` places.
pub(crate) fn one_chunk<E: Edition>(
    rt: &impl Abort,
    heap: Global,
    stock: &Pool,
    stride: usize,
    head: E::Head,
    spans: &[Fields<E::Own>],
) -> Result<Filling<E>, Fail> {
    let mut batch = batch::<E>(heap, stride, 1, spans.len())?;
    assert_eq!(rt; told(batch.add_chunk(stock, head)), None);
    for fields in spans {
        assert_eq!(rt; told(batch.add_span(stock, *fields)), None);
    }
    Ok(batch)
}

// What a call was refused with, if it was.
pub(crate) fn told<T: Drop>(answer: Result<T, BatchFault>) -> Option<Refusal> {
    answer.err().map(|fault| fault.refusal())
}

fn refused(number: u8, layer: Layer, place: u64) -> Option<Refusal> {
    Some(Refusal {
        number,
        layer,
        place,
    })
}

pub(crate) fn of_batch(number: u8, place: u64) -> Option<Refusal> {
    refused(number, Layer::Batch, place)
}

pub(crate) fn of_map(number: u8, place: u64) -> Option<Refusal> {
    refused(number, Layer::Map, place)
}

// The stock does not know the text with this number.
pub(crate) fn unknown(place: u64) -> Option<Refusal> {
    refused(6, Layer::Stock, place)
}

// The fields of a v1 span with these texts in their order.
pub(crate) fn v1_span(texts: [Text; 7]) -> Fields<v1::own::Own> {
    Fields {
        service: texts[0],
        span_id: 1,
        parent_id: 0,
        own: v1::own::Own {
            name: texts[1],
            resource: texts[2],
            span_type: texts[3],
            start: 0,
            duration: 0,
            error: false,
            span_kind: SpanKind::Server,
            env: texts[4],
            version: texts[5],
            component: texts[6],
            rest: 0,
        },
    }
}

pub(crate) fn v1_head(origin: Text) -> Head {
    Head {
        trace_id: TraceId { high: 0, low: 1 },
        priority: None,
        origin,
        sampling_mechanism: None,
        dropped_trace: false,
    }
}

// The fields of a v04 span with these texts in their order.
pub(crate) fn v04_span(texts: [Text; 4]) -> Fields<v04::own::Own> {
    Fields {
        service: texts[0],
        span_id: 1,
        parent_id: 0,
        own: v04::own::Own {
            name: texts[1],
            resource: texts[2],
            span_type: texts[3],
            trace_id: TraceId { high: 0, low: 1 },
            start: 0,
            duration: 0,
            error: 0,
            rest: 0,
        },
    }
}
