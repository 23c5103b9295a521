// Writes what lines came to, each answer a line.
use crate::keeper::{Answer, Keeper};
use session::{
    ValueKind, write_flag, write_float, write_kind, write_signed, write_text, write_unsigned,
};
use span::value::Value;
use std::alloc::AllocError;
use texts::refusal::Fault;
use texts::stock::Stock;

// A value as two words, its kind first.
fn write_value<S: Stock>(out: &mut Vec<u8>, stock: &S, value: Value) -> Result<(), AllocError> {
    write_kind(out, kind_of(value))?;
    out.extend_from_slice(b" ")?;
    match value {
        Value::Text(text) => write_text(out, stock.bytes(text)),
        Value::Float(bits) => write_float(out, bits),
        Value::Int(number) => write_signed(out, number),
        Value::Bool(flag) => write_flag(out, flag),
        Value::Bytes(number) | Value::KeyValue(number) | Value::List(number) => {
            write_unsigned(out, number)
        }
    }
}

// No `From`, since both types are of other crates.
fn kind_of(value: Value) -> ValueKind {
    match value {
        Value::Text(_) => ValueKind::Text,
        Value::Float(_) => ValueKind::Float,
        Value::Int(_) => ValueKind::Int,
        Value::Bool(_) => ValueKind::Bool,
        Value::Bytes(_) => ValueKind::Bytes,
        Value::KeyValue(_) => ValueKind::KeyValue,
        Value::List(_) => ValueKind::List,
    }
}

// The number, the layer and the place of a refusal.
pub fn write_refusal<F: Fault>(out: &mut Vec<u8>, fault: &F) -> Result<(), AllocError> {
    let line = format!(in *out.allocator(); " refused {}\n", fault.refusal())?;
    out.extend_from_slice(line.as_bytes())
}

// What an action answered; a dump is followed by the map.
pub fn write_answer<S: Stock + Drop>(
    out: &mut Vec<u8>,
    keeper: &Keeper<S>,
    answer: Answer,
) -> Result<(), AllocError> {
    match answer {
        Answer::Taken => out.extend_from_slice(b" taken\n"),
        Answer::Reading(Some(value)) => {
            out.extend_from_slice(b" ")?;
            write_value(out, &keeper.stock, value)?;
            out.extend_from_slice(b"\n")
        }
        Answer::Reading(None) => out.extend_from_slice(b" none\n"),
        Answer::Follows => {
            out.extend_from_slice(b" follows\n")?;
            write_map(out, keeper)
        }
    }
}

// The map: its flag, how many entries it has, and each entry.
pub fn write_map<S: Stock + Drop>(out: &mut Vec<u8>, keeper: &Keeper<S>) -> Result<(), AllocError> {
    let map = keeper.map();
    out.extend_from_slice(b"map attributes ")?;
    write_flag(out, map.deduped)?;
    out.extend_from_slice(b" ")?;
    write_unsigned(out, map.entries.len() as u64)?;
    out.extend_from_slice(b"\n")?;
    for entry in map.entries {
        out.extend_from_slice(b"e ")?;
        write_text(out, keeper.stock.bytes(entry.key))?;
        out.extend_from_slice(b" ")?;
        write_value(out, &keeper.stock, entry.value)?;
        out.extend_from_slice(b"\n")?;
    }
    Ok(())
}
