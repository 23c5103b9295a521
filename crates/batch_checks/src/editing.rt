// Editing the maps of spans and chunks.
use crate::samples::{
    EMPTY, LOST, of_batch, of_map, one_chunk, stock, told, unknown, v1_head, v1_span, v04_span,
};
use batch::filling::Filling;
use batch::working::Working;
use pool::Pool;
use span::owner::Owner;
use span::value::Value;
use std::alloc::Global;
use std::process::Abort;
use std::test::Fail;
use texts::stock::{Stock, Text};
use v1::edition::V1;
use v04::edition::V04;

// A v04 batch of one chunk with two spans, whose maps have `stride` places.
fn v04_pair(
    rt: &impl Abort,
    heap: Global,
    stock: &Pool,
    stride: usize,
) -> Result<Filling<V04>, Fail> {
    one_chunk(rt, heap, stock, stride, (), &[v04_span([EMPTY; 4]); 2])
}

// The same in v1.
fn v1_pair(
    rt: &impl Abort,
    heap: Global,
    stock: &Pool,
    stride: usize,
) -> Result<Filling<V1>, Fail> {
    let spans = [v1_span([EMPTY; 7]); 2];
    one_chunk(rt, heap, stock, stride, v1_head(EMPTY), &spans)
}

// A v04 span takes texts and floats, each in a map of its own, and nothing else; a chunk takes nothing.
#[test]
fn v04_inserts(rt: HostRuntime) -> Result<(), Fail> {
    let stock = stock(rt.alloc())?;
    let mut batch = v04_pair(&rt, rt.alloc(), &stock, 1)?;
    let inserts = [
        (Owner::Span(2), Value::Int(1), of_batch(3, 2)),
        (Owner::Chunk(1), Value::Int(1), of_batch(3, 1)),
        (Owner::Span(1), Value::Text(LOST), unknown(LOST.number)),
        (Owner::Span(1), Value::Text(EMPTY), None),
        (Owner::Span(1), Value::Text(EMPTY), of_map(8, 1)),
        (Owner::Span(1), Value::Float(0), None),
        (Owner::Span(1), Value::Float(0), of_map(8, 1)),
        (Owner::Span(0), Value::Text(EMPTY), None),
        (Owner::Span(1), Value::Int(1), of_map(7, 1)),
        (Owner::Span(1), Value::Bool(true), of_map(7, 1)),
        (Owner::Span(1), Value::Bytes(1), of_map(7, 1)),
        (Owner::Span(1), Value::KeyValue(1), of_map(7, 1)),
        (Owner::Span(1), Value::List(1), of_map(7, 1)),
        (Owner::Chunk(0), Value::Text(EMPTY), of_map(7, 0)),
        (Owner::Chunk(0), Value::Float(0), of_map(7, 0)),
    ];
    for (owner, value, answer) in inserts {
        assert_eq!(rt; told(batch.insert(&stock, owner, EMPTY, value)), answer);
    }
    Ok(())
}

// Inserts a value of each of the seven types.
fn insert_each(rt: &impl Abort, batch: &mut Filling<V1>, stock: &Pool, owner: Owner) {
    let values = [
        Value::Text(EMPTY),
        Value::Float(0),
        Value::Int(1),
        Value::Bool(true),
        Value::Bytes(1),
        Value::KeyValue(1),
        Value::List(1),
    ];
    for value in values {
        assert_eq!(rt; told(batch.insert(stock, owner, EMPTY, value)), None);
    }
}

// A v1 span and a v1 chunk take every value, until their maps are full.
#[test]
fn v1_inserts(rt: HostRuntime) -> Result<(), Fail> {
    let stock = stock(rt.alloc())?;
    let mut batch = v1_pair(&rt, rt.alloc(), &stock, 7)?;
    for (owner, place) in [(Owner::Span(1), 1), (Owner::Chunk(0), 0)] {
        insert_each(&rt, &mut batch, &stock, owner);
        assert_eq!(rt;
            told(batch.insert(&stock, owner, EMPTY, Value::Int(1))),
            of_map(8, place)
        );
        assert_eq!(rt; told(batch.remove(&stock, owner, EMPTY)), None);
        assert_eq!(rt;
            told(batch.insert(&stock, owner, EMPTY, Value::Int(1))),
            None
        );
    }
    Ok(())
}

// The key is named before the value, and the owner before both.
#[test]
fn lost_keys(rt: HostRuntime) -> Result<(), Fail> {
    let stock = stock(rt.alloc())?;
    let mut batch = v04_pair(&rt, rt.alloc(), &stock, 1)?.close();
    let lost = Text { number: 65_536_002 };
    let inserts = [
        (Owner::Span(2), LOST, lost, of_batch(3, 2)),
        (Owner::Span(0), LOST, lost, unknown(LOST.number)),
        (Owner::Span(0), EMPTY, lost, unknown(lost.number)),
        (Owner::Chunk(0), EMPTY, lost, unknown(lost.number)),
    ];
    for (owner, key, value, answer) in inserts {
        assert_eq!(rt;
            told(batch.insert(&stock, owner, key, Value::Text(value))),
            answer
        );
    }
    assert_eq!(rt;
        told(batch.remove(&stock, Owner::Span(0), LOST)),
        unknown(LOST.number)
    );
    assert_eq!(rt; told(batch.remove(&stock, Owner::Span(0), EMPTY)), None);
    Ok(())
}

// How many entries the two maps of a v04 span have, and whether they are deduped.
fn rows(batch: &Working<V04>, span: usize) -> Option<(usize, bool, usize, bool)> {
    let meta = batch.tables().map_row(Owner::Span(span), 0)?;
    let metrics = batch.tables().map_row(Owner::Span(span), 1)?;
    Some((meta.len, meta.deduped, metrics.len, metrics.deduped))
}

// A claim on a key that stands twice in one map flags neither; after a dedup it is taken.
#[test]
fn claims(rt: HostRuntime) -> Result<(), Fail> {
    let mut stock = stock(rt.alloc())?;
    let (a, a_again) = (stock.put(b"a")?, stock.put(b"a")?);
    let mut batch = v04_pair(&rt, rt.alloc(), &stock, 2)?.close();
    for (key, value) in [
        (a, Value::Text(a)),
        (a, Value::Float(1)),
        (a_again, Value::Float(2)),
    ] {
        assert_eq!(rt;
            told(batch.insert(&stock, Owner::Span(1), key, value)),
            None
        );
    }
    assert_eq!(rt; told(batch.claim(&stock, Owner::Span(1))), of_map(9, 1));
    assert_eq!(rt; rows(&batch, 1), Some((1, false, 2, false)));
    assert_eq!(rt; told(batch.dedup(&stock, Owner::Span(1))), None);
    assert_eq!(rt; rows(&batch, 1), Some((1, true, 1, true)));
    assert_eq!(rt;
        told(batch.insert(&stock, Owner::Span(1), a, Value::Text(a))),
        None
    );
    assert_eq!(rt; rows(&batch, 1), Some((2, false, 1, true)));
    assert_eq!(rt; told(batch.remove(&stock, Owner::Span(1), a_again)), None);
    assert_eq!(rt; told(batch.claim(&stock, Owner::Span(1))), None);
    assert_eq!(rt; rows(&batch, 1), Some((0, true, 0, true)));
    assert_eq!(rt; rows(&batch, 0), Some((0, false, 0, false)));
    assert_eq!(rt; rows(&batch, 2), None);
    Ok(())
}

// The key's number and the value of an entry of a v1 chunk, if it is an integer.
fn int_at(batch: &Working<V1>, i: usize) -> Option<(u64, i64)> {
    let entry = batch.tables().entry(Owner::Chunk(0), 0, i)?;
    match entry.value {
        Value::Int(n) => Some((entry.key.number, n)),
        _ => None,
    }
}

// Of a = 1, b = 2, a = 3 a dedup leaves a = 3, b = 2.
#[test]
fn last_wins(rt: HostRuntime) -> Result<(), Fail> {
    let mut stock = stock(rt.alloc())?;
    let (a, b, a_again) = (stock.put(b"a")?, stock.put(b"b")?, stock.put(b"a")?);
    let mut batch = v1_pair(&rt, rt.alloc(), &stock, 3)?.close();
    for (key, n) in [(a, 1), (b, 2), (a_again, 3)] {
        assert_eq!(rt;
            told(batch.insert(&stock, Owner::Chunk(0), key, Value::Int(n))),
            None
        );
    }
    assert_eq!(rt; told(batch.claim(&stock, Owner::Chunk(0))), of_map(9, 0));
    assert_eq!(rt; told(batch.dedup(&stock, Owner::Chunk(0))), None);
    assert_eq!(rt; int_at(&batch, 0), Some((a_again.number, 3)));
    assert_eq!(rt; int_at(&batch, 1), Some((b.number, 2)));
    assert_eq!(rt; int_at(&batch, 2), None);
    assert_eq!(rt; told(batch.claim(&stock, Owner::Chunk(0))), None);
    Ok(())
}
