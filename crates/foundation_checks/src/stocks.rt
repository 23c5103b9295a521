// The pool and the dictionary: numbers, limits and refusals.
use dictionary::Dictionary;
use pool::Pool;
use std::test::Fail;
use texts::refusal::{Fault, Unmade};
use texts::stock::{Stock, StockFault, Text, WellKnown};

// What a put came to: the text's number, or the refusal's.
fn put<S: Stock>(stock: &mut S, bytes: &[u8]) -> Result<u64, u8> {
    stock
        .put(bytes)
        .map(|text| text.number)
        .map_err(|fault| fault.number())
}

// The number of a refused making.
fn refused<T: Drop>(made: Result<T, Unmade<StockFault>>) -> Option<u8> {
    match made {
        Err(Unmade::Refused(fault)) => Some(fault.number()),
        Ok(_) | Err(Unmade::Memory) => None,
    }
}

// A stock wants room for `_top_level`, and no more.
#[test]
fn makings(rt: HostRuntime) {
    let heap = rt.alloc();
    for (bytes, number) in [(0, Some(10)), (9, Some(10)), (10, None)] {
        assert_eq!(rt; refused(Pool::new(heap, bytes)), number);
        assert_eq!(rt; refused(Dictionary::new(heap, bytes, 1)), number);
    }
    assert_eq!(rt; refused(Dictionary::new(heap, 10, 0)), Some(10));
}

// A put appends until the bytes are used up; an empty text wants none.
#[test]
fn full_pool(rt: HostRuntime) -> Result<(), Fail> {
    let Ok(mut pool) = Pool::new(rt.alloc(), 12) else {
        return Err(Fail::new("no pool"));
    };
    assert_eq!(rt; put(&mut pool, b"ab"), Ok(655_362));
    assert_eq!(rt; put(&mut pool, b"c"), Err(10));
    assert_eq!(rt; put(&mut pool, b""), Ok(786_432));
    assert_eq!(rt;
        pool.bytes(pool.held(WellKnown::TopLevel)),
        b"_top_level".as_slice()
    );
    assert_eq!(rt; pool.bytes(Text { number: 655_362 }), b"ab".as_slice());
    assert_eq!(rt; pool.bytes(Text { number: 655_363 }), b"".as_slice());
    Ok(())
}

// Held bytes keep their number; new ones want an entry and bytes.
#[test]
fn full_dictionary(rt: HostRuntime) -> Result<(), Fail> {
    let Ok(mut dictionary) = Dictionary::new(rt.alloc(), 14, 3) else {
        return Err(Fail::new("no dictionary"));
    };
    let puts: [(&[u8], Result<u64, u8>); 7] = [
        (b"_top_level", Ok(0)),
        (b"abcde", Err(10)),
        (b"ab", Ok(1)),
        (b"ab", Ok(1)),
        (b"", Ok(2)),
        (b"c", Err(10)),
        (b"ab", Ok(1)),
    ];
    for (bytes, answer) in puts {
        assert_eq!(rt; dictionary.will_take(bytes), answer.is_ok());
        assert_eq!(rt; put(&mut dictionary, bytes), answer);
    }
    Ok(())
}

// A text has at most 65,535 bytes.
#[test]
fn longest(rt: HostRuntime) -> Result<(), Fail> {
    let heap = rt.alloc();
    let Ok(mut pool) = Pool::new(heap, 1_048_576) else {
        return Err(Fail::new("no pool"));
    };
    let Ok(mut dictionary) = Dictionary::new(heap, 1_048_576, 65_536) else {
        return Err(Fail::new("no dictionary"));
    };
    let mut text = vec![in heap; 120u8; 65_535]?;
    assert_eq!(rt; put(&mut pool, &text), Ok(720_895));
    assert_eq!(rt; put(&mut dictionary, &text), Ok(1));
    text.push(120)?;
    assert_eq!(rt; put(&mut pool, &text), Err(10));
    assert_eq!(rt; put(&mut dictionary, &text), Err(10));
    Ok(())
}

// Texts are the same by their bytes, whatever their numbers are; an unknown one is refused with its number.
#[test]
fn sameness(rt: HostRuntime) -> Result<(), Fail> {
    let Ok(mut pool) = Pool::new(rt.alloc(), 100) else {
        return Err(Fail::new("no pool"));
    };
    assert_eq!(rt; put(&mut pool, b"a"), Ok(655_361));
    assert_eq!(rt; put(&mut pool, b"a"), Ok(720_897));
    let text = Text { number: 655_361 };
    assert!(rt; pool.same(text, Text { number: 720_897 }));
    assert!(rt; !pool.same(text, pool.held(WellKnown::TopLevel)));
    match pool.check(Text { number: 65_536_001 }) {
        Ok(()) => Err(Fail::new("known")),
        Err(fault) => {
            assert_eq!(rt; fault.number(), 6);
            assert_eq!(rt; fault.place(), 65_536_001);
            Ok(())
        }
    }
}
