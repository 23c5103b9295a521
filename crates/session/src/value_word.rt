// Values as two words: a letter for the kind, and the value.
ghost use Rattle.session.specs.Faults.{Reads};
ghost use Rattle.session.specs.Values.{meaning, is_text, value_of};

use crate::fault::WordFault;
use crate::kind_word::{ValueKind, read_kind};
use crate::number_word::{read_flag, read_float, read_signed, read_unsigned};
use crate::text_word::read_text;
use std::alloc::Global;

#[derive(Drop)]
pub enum ValueWord {
    Text(Vec<u8>),
    // The 64 bits.
    Float(u64),
    Int(i64),
    Bool(bool),
    // The last three are kept by the host, under a number.
    Bytes(u64),
    KeyValue(u64),
    List(u64),
}

// Reads a value, from the letter of its kind and its word.
pub fn read_value(heap: Global, kind: &[u8], word: &[u8]) -> Result<ValueWord, WordFault>
    ensures { Reads meaning is_text (value_of kind.now word.now) result }
{
    let value = match read_kind(kind).ok_or(WordFault::Malformed)? {
        ValueKind::Text => return read_text(heap, word).map(ValueWord::Text),
        ValueKind::Float => read_float(word).map(ValueWord::Float),
        ValueKind::Int => read_signed(word).map(ValueWord::Int),
        ValueKind::Bool => read_flag(word).map(ValueWord::Bool),
        ValueKind::Bytes => read_unsigned(word, u64::MAX).map(ValueWord::Bytes),
        ValueKind::KeyValue => read_unsigned(word, u64::MAX).map(ValueWord::KeyValue),
        ValueKind::List => read_unsigned(word, u64::MAX).map(ValueWord::List),
    };
    value.ok_or(WordFault::Malformed)
}
