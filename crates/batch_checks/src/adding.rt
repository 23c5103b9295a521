// Beginning a batch, and adding chunks and spans to it.
use crate::samples::{
    EMPTY, LOST, batch, of_batch, stock, told, unknown, v1_head, v1_span, v04_span,
};
use batch::filling::Filling;
use batch::{BatchFault, Room};
use pool::Pool;
use span::edition::Edition;
use std::process::Abort;
use std::test::Fail;
use texts::refusal::{Fault, Refusal, Unmade};
use texts::stock::Text;
use v1::edition::V1;
use v04::edition::V04;

// What a making was refused with, if it was. The stocks' tests, in another crate, have the like of their own fault.
fn untold<E: Edition>(made: Result<Filling<E>, Unmade<BatchFault>>) -> Option<Refusal> {
    match made {
        Err(Unmade::Refused(fault)) => Some(fault.refusal()),
        Ok(_) | Err(Unmade::Memory) => None,
    }
}

// A map has between 1 and 64 places.
#[test]
fn strides(rt: HostRuntime) {
    let room = Room {
        chunks: 1,
        spans: 1,
    };
    for (stride, answer) in [
        (0, of_batch(2, 0)),
        (1, None),
        (64, None),
        (65, of_batch(2, 0)),
    ] {
        assert_eq!(rt;
            untold(Filling::<V04>::begin(rt.alloc(), stride, room)),
            answer
        );
    }
}

// Adds chunks until one is refused: how many were taken.
fn chunks_taken(rt: &impl Abort, batch: &mut Filling<V04>, stock: &Pool) -> Result<usize, Fail> {
    let refused = (0..2_000).find_map(|i| Some((i, told(batch.add_chunk(stock, ()))?)));
    let (taken, refusal) = refused.ok_or_else(|| Fail::new("too many chunks"))?;
    assert_eq!(rt; Some(refusal), of_batch(5, 0));
    Ok(taken)
}

// Whatever room is asked for, there is room for 1,024 chunks at most.
#[test]
fn most_chunks(rt: HostRuntime) -> Result<(), Fail> {
    let stock = stock(rt.alloc())?;
    for (room, most) in [
        (0, 0),
        (2, 2),
        (1_024, 1_024),
        (1_025, 1_024),
        (usize::MAX, 1_024),
    ] {
        let mut batch = batch::<V04>(rt.alloc(), 1, room, 1)?;
        assert_eq!(rt; chunks_taken(&rt, &mut batch, &stock)?, most);
        assert_eq!(rt; batch.tables().chunk_count(), most);
    }
    Ok(())
}

// Adds spans until one is refused: how many were taken.
fn spans_taken(rt: &impl Abort, batch: &mut Filling<V04>, stock: &Pool) -> Result<usize, Fail> {
    let span = v04_span([EMPTY; 4]);
    let refused = (0..20_000).find_map(|i| Some((i, told(batch.add_span(stock, span))?)));
    let (taken, refusal) = refused.ok_or_else(|| Fail::new("too many spans"))?;
    assert_eq!(rt; Some(refusal), of_batch(5, 0));
    Ok(taken)
}

fn count_of(batch: &Filling<V04>, chunk: usize) -> Option<u16> {
    batch.tables().chunk(chunk).map(|row| row.count)
}

// A span wants a chunk. Whatever room is asked for, there is room for 16,384 spans at most, and one chunk can have them
// all.
#[test]
fn most_spans(rt: HostRuntime) -> Result<(), Fail> {
    let stock = stock(rt.alloc())?;
    for (room, most) in [(0, 0), (3, 3), (16_384, 16_384), (usize::MAX, 16_384)] {
        let mut batch = batch::<V04>(rt.alloc(), 1, 1, room)?;
        assert_eq!(rt;
            told(batch.add_span(&stock, v04_span([LOST; 4]))),
            of_batch(3, 0)
        );
        assert_eq!(rt; told(batch.add_chunk(&stock, ())), None);
        assert_eq!(rt; spans_taken(&rt, &mut batch, &stock)?, most as usize);
        assert_eq!(rt; batch.tables().span_count(), most as usize);
        assert_eq!(rt; count_of(&batch, 0), Some(most));
        assert_eq!(rt;
            told(batch.add_span(&stock, v04_span([LOST; 4]))),
            of_batch(5, 0)
        );
    }
    Ok(())
}

// Texts that the stock does not know, each with a number of its own.
fn lost_texts<const N: usize>() -> [Text; N] {
    std::array::from_fn(|i| Text {
        number: LOST.number + i as u64,
    })
}

// The first text that is not known is named, in the order of the fields.
#[test]
fn lost_in_v04(rt: HostRuntime) -> Result<(), Fail> {
    let stock = stock(rt.alloc())?;
    let mut batch = batch::<V04>(rt.alloc(), 1, 1, 1)?;
    assert_eq!(rt; told(batch.add_chunk(&stock, ())), None);
    let [a, b, c, d] = lost_texts::<4>();
    let spans = [
        ([a, b, c, d], unknown(a.number)),
        ([EMPTY, b, c, d], unknown(b.number)),
        ([EMPTY, EMPTY, c, d], unknown(c.number)),
        ([EMPTY, EMPTY, EMPTY, d], unknown(d.number)),
        ([EMPTY; 4], None),
    ];
    for (texts, answer) in spans {
        assert_eq!(rt; told(batch.add_span(&stock, v04_span(texts))), answer);
    }
    Ok(())
}

// The same in v1, where a chunk names a text too. (Another table: the two spans have not as many texts, and a closure over
// an array of N texts, which would make the tests one, is not proved.)
#[test]
fn lost_in_v1(rt: HostRuntime) -> Result<(), Fail> {
    let stock = stock(rt.alloc())?;
    let mut batch = batch::<V1>(rt.alloc(), 1, 1, 1)?;
    for (head, answer) in [(LOST, unknown(LOST.number)), (EMPTY, None)] {
        assert_eq!(rt; told(batch.add_chunk(&stock, v1_head(head))), answer);
    }
    let [a, b, c, d, e, f, g] = lost_texts::<7>();
    let o = EMPTY;
    let spans = [
        ([a, b, c, d, e, f, g], unknown(a.number)),
        ([o, b, c, d, e, f, g], unknown(b.number)),
        ([o, o, c, d, e, f, g], unknown(c.number)),
        ([o, o, o, d, e, f, g], unknown(d.number)),
        ([o, o, o, o, e, f, g], unknown(e.number)),
        ([o, o, o, o, o, f, g], unknown(f.number)),
        ([o, o, o, o, o, o, g], unknown(g.number)),
        ([o; 7], None),
    ];
    for (texts, answer) in spans {
        assert_eq!(rt; told(batch.add_span(&stock, v1_span(texts))), answer);
    }
    Ok(())
}
