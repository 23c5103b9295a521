// Examples of each kind of word, written and read back, and of words that are refused.
use crate::*;
use std::test::Fail;

#[test]
fn texts(rt: HostRuntime) -> Result<(), Fail> {
    let table: [(&[u8], &[u8]); 3] = [
        (b"", b"'"),
        (b"a b%", b"'a%20b%25"),
        (
            &[0, 31, 32, 33, 37, 126, 127, 255],
            b"'%00%1f%20!%25~%7f%ff",
        ),
    ];
    for (text, word) in table {
        let mut out = Vec::new(rt.alloc());
        write_text(&mut out, text)?;
        assert_eq!(rt; out.as_slice(), word);
        assert_eq!(rt; read_text(rt.alloc(), word)?.as_slice(), text);
    }
    let refused: [&[u8]; 6] = [b"", b"a", b"'a b", b"'%2", b"'%2G", b"'%FF"];
    for word in refused {
        assert!(rt; read_text(rt.alloc(), word).is_err());
    }
    Ok(())
}

#[test]
fn numbers(rt: HostRuntime) -> Result<(), Fail> {
    let mut out = Vec::new(rt.alloc());
    write_unsigned(&mut out, u64::MAX)?;
    assert_eq!(rt; out.as_slice(), b"18446744073709551615".as_slice());
    out.clear();
    write_signed(&mut out, i64::MIN)?;
    assert_eq!(rt; out.as_slice(), b"-9223372036854775808".as_slice());
    out.clear();
    write_float(&mut out, 0x4020_0000_0000_0000)?;
    assert_eq!(rt; out.as_slice(), b"x4020000000000000".as_slice());
    out.clear();
    write_flag(&mut out, true)?;
    assert_eq!(rt; out.as_slice(), b"1".as_slice());
    let unsigned: [(&[u8], Option<u64>); 5] = [
        (b"18446744073709551615", Some(u64::MAX)),
        (b"18446744073709551616", None),
        (b"007", Some(7)),
        (b"+7", None),
        (b"", None),
    ];
    for (word, number) in unsigned {
        assert_eq!(rt; read_unsigned(word, u64::MAX), number);
    }
    let signed: [(&[u8], Option<i64>); 4] = [
        (b"-9223372036854775808", Some(i64::MIN)),
        (b"-9223372036854775809", None),
        (b"9223372036854775808", None),
        (b"-", None),
    ];
    for (word, number) in signed {
        assert_eq!(rt; read_signed(word), number);
    }
    assert_eq!(rt;
        read_float(b"x4020000000000000"),
        Some(0x4020_0000_0000_0000)
    );
    assert_eq!(rt; read_float(b"x402000000000000A"), None);
    assert_eq!(rt; read_flag(b"1"), Some(true));
    assert_eq!(rt; read_flag(b"2"), None);
    assert_eq!(rt; read_flag(b""), None);
    Ok(())
}

#[test]
fn kinds(rt: HostRuntime) -> Result<(), Fail> {
    let table: [(ValueKind, &[u8]); 7] = [
        (ValueKind::Text, b"t"),
        (ValueKind::Float, b"f"),
        (ValueKind::Int, b"i"),
        (ValueKind::Bool, b"b"),
        (ValueKind::Bytes, b"y"),
        (ValueKind::KeyValue, b"k"),
        (ValueKind::List, b"l"),
    ];
    for (kind, word) in table {
        let mut out = Vec::new(rt.alloc());
        write_kind(&mut out, kind)?;
        assert_eq!(rt; out.as_slice(), word);
        assert_eq!(rt; read_kind(word), Some(kind));
    }
    assert_eq!(rt; read_kind(b"T"), None);
    assert_eq!(rt; read_kind(b"tt"), None);
    assert_eq!(rt; read_kind(b""), None);
    assert_eq!(rt;
        format!(in rt.alloc(); "{}", TextWord(b"a b"))?.as_str(),
        "'a%20b"
    );
    Ok(())
}
