// Questions on one span.
use crate::samples::{
    EMPTY, LOST, of_batch, one_chunk, stock, told, unknown, v1_head, v1_span, v04_span,
};
use batch::working::Working;
use batch::{BatchFault, Question, Reply};
use pool::Pool;
use span::owner::Owner;
use span::value::Value;
use std::alloc::Global;
use std::process::Abort;
use std::test::Fail;
use texts::stock::{Stock, Text, WellKnown};
use v1::edition::V1;
use v04::edition::V04;

// The bits of 1.0.
const ONE: u64 = 0x3ff0_0000_0000_0000;

// A v1 batch of one span, with this `env`.
fn v1_single(rt: &impl Abort, heap: Global, stock: &Pool, env: Text) -> Result<Working<V1>, Fail> {
    let texts = [EMPTY, EMPTY, EMPTY, EMPTY, env, EMPTY, EMPTY];
    let batch = one_chunk(rt, heap, stock, 8, v1_head(EMPTY), &[v1_span(texts)])?;
    Ok(batch.close())
}

// The same in v04.
fn v04_single(rt: &impl Abort, heap: Global, stock: &Pool) -> Result<Working<V04>, Fail> {
    Ok(one_chunk(rt, heap, stock, 8, (), &[v04_span([EMPTY; 4])])?.close())
}

fn flag(answer: Result<Reply, BatchFault>) -> Option<bool> {
    match answer {
        Ok(Reply::Flag(flag)) => Some(flag),
        _ => None,
    }
}

// A question wants its span, and then its key known.
#[test]
fn refusals(rt: HostRuntime) -> Result<(), Fail> {
    let stock = stock(rt.alloc())?;
    let batch = v1_single(&rt, rt.alloc(), &stock, EMPTY)?;
    let questions = [
        (1, Question::Tag(LOST), of_batch(3, 1)),
        (1, Question::TopLevel, of_batch(3, 1)),
        (0, Question::Tag(LOST), unknown(LOST.number)),
        (0, Question::Number(LOST), unknown(LOST.number)),
        (0, Question::Number(EMPTY), None),
        (0, Question::Measured, None),
    ];
    for (span, question, answer) in questions {
        assert_eq!(rt; told(batch.query(&stock, span, question)), answer);
    }
    Ok(())
}

// Whether the first span reads the number at a key; none where `number` is none.
fn reads(batch: &Working<V1>, stock: &Pool, key: Text, number: Option<f64>) -> bool {
    match (batch.query(stock, 0, Question::Number(key)), number) {
        (Ok(Reply::Number(Some(a))), Some(b)) => a == b,
        (Ok(Reply::Number(None)), None) => true,
        _ => false,
    }
}

// An integer reads as the nearest float, a tie as the even one; a truth value has no number.
#[test]
fn numbers(rt: HostRuntime) -> Result<(), Fail> {
    let mut stock = stock(rt.alloc())?;
    let key = stock.put(b"n")?;
    let mut batch = v1_single(&rt, rt.alloc(), &stock, EMPTY)?;
    assert!(rt; reads(&batch, &stock, key, None));
    let inserts = [
        (Value::Int(9007199254740993), Some(9007199254740992.0)),
        (Value::Int(-3), Some(-3.0)),
        (Value::Float(ONE), Some(1.0)),
        (Value::Bool(true), None),
    ];
    for (value, number) in inserts {
        assert_eq!(rt;
            told(batch.insert(&stock, Owner::Span(0), key, value)),
            None
        );
        assert!(rt; reads(&batch, &stock, key, number));
    }
    Ok(())
}

// 1.0 at their keys says yes, and a text there says nothing.
#[test]
fn marks(rt: HostRuntime) -> Result<(), Fail> {
    let mut stock = stock(rt.alloc())?;
    let marks = [
        (Question::TopLevel, stock.held(WellKnown::TopLevel)),
        (Question::Measured, stock.put(b"_dd.measured")?),
    ];
    let mut batch = v04_single(&rt, rt.alloc(), &stock)?;
    for (question, key) in marks {
        for (value, answer) in [(Value::Text(key), false), (Value::Float(ONE), true)] {
            assert_eq!(rt;
                told(batch.insert(&stock, Owner::Span(0), key, value)),
                None
            );
            assert_eq!(rt; flag(batch.query(&stock, 0, question)), Some(answer));
        }
    }
    Ok(())
}

// A span has not ended where its version is 0 or more: -0.0 is, and a NaN is not.
#[test]
fn snapshots(rt: HostRuntime) -> Result<(), Fail> {
    let mut stock = stock(rt.alloc())?;
    let key = stock.put(b"_dd.partial_version")?;
    let mut batch = v1_single(&rt, rt.alloc(), &stock, EMPTY)?;
    assert_eq!(rt;
        flag(batch.query(&stock, 0, Question::PartialSnapshot)),
        Some(false)
    );
    let inserts = [
        (0x8000_0000_0000_0000, true),
        (0xbff0_0000_0000_0000, false),
        (ONE, true),
        (0x7ff8_0000_0000_0000, false),
    ];
    for (bits, answer) in inserts {
        assert_eq!(rt;
            told(batch.insert(&stock, Owner::Span(0), key, Value::Float(bits))),
            None
        );
        assert_eq!(rt;
            flag(batch.query(&stock, 0, Question::PartialSnapshot)),
            Some(answer)
        );
    }
    Ok(())
}

// Checks the bytes of the tag that the first span shows at a key.
fn shows(
    rt: &impl Abort,
    batch: &Working<V1>,
    stock: &Pool,
    key: Text,
    bytes: &[u8],
) -> Result<(), Fail> {
    match batch.query(stock, 0, Question::Tag(key)) {
        Ok(Reply::Tag(Some(tag))) => {
            assert_eq!(rt; tag.bytes(stock), bytes);
            Ok(())
        },
        _ => Err(Fail::new("no tag")),
    }
}

// A text among the attributes comes before a field, and a field with no bytes shows nothing.
#[test]
fn tags(rt: HostRuntime) -> Result<(), Fail> {
    let mut stock = stock(rt.alloc())?;
    let (env, prod, dev) = (stock.put(b"env")?, stock.put(b"prod")?, stock.put(b"dev")?);
    let (kind, version) = (stock.put(b"span.kind")?, stock.put(b"version")?);
    let mut batch = v1_single(&rt, rt.alloc(), &stock, prod)?;
    shows(&rt, &batch, &stock, kind, b"server")?;
    let inserts = [
        (Value::Int(1), prod),
        (Value::Text(dev), dev),
        (Value::Bool(true), prod),
    ];
    for (value, shown) in inserts {
        assert_eq!(rt;
            told(batch.insert(&stock, Owner::Span(0), env, value)),
            None
        );
        shows(&rt, &batch, &stock, env, stock.bytes(shown))?;
    }
    match batch.query(&stock, 0, Question::Tag(version)) {
        Ok(Reply::Tag(None)) => Ok(()),
        _ => Err(Fail::new("a tag of no bytes")),
    }
}
