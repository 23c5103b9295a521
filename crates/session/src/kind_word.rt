// Kinds of values as words, each a letter.
ghost use Rattle.std.specs.Prelude.{◌≡◌, true, ◌++◌, is_ok, if◌then◌else◌, Some};
ghost use Rattle.session.specs.Kinds.{letter_of, kind_word, kind_of};
ghost use Rattle.session.specs.Lines.{unspaced};

use std::alloc::AllocError;

#[derive(Clone, Copy, Debug, PartialEq, Eq)]
pub enum ValueKind {
    Text,
    Float,
    Int,
    Bool,
    Bytes,
    KeyValue,
    List,
}

// The letter that stands for a kind. (Here and below a match, letter by letter: a table to search is longer.)
fn letter(kind: ValueKind) -> u8
    ensures { result ≡ letter_of kind }
{
    match kind {
        ValueKind::Text => b't',
        ValueKind::Float => b'f',
        ValueKind::Int => b'i',
        ValueKind::Bool => b'b',
        ValueKind::Bytes => b'y',
        ValueKind::KeyValue => b'k',
        ValueKind::List => b'l',
    }
}

// Reads a kind, from its letter.
pub fn read_kind(word: &[u8]) -> Option<ValueKind>
    ensures { result ≡ kind_of word.now }
{
    match word {
        b"t" => Some(ValueKind::Text),
        b"f" => Some(ValueKind::Float),
        b"i" => Some(ValueKind::Int),
        b"b" => Some(ValueKind::Bool),
        b"y" => Some(ValueKind::Bytes),
        b"k" => Some(ValueKind::KeyValue),
        b"l" => Some(ValueKind::List),
        _ => None,
    }
}

// Appends a kind's letter. It reads back as the kind.
pub fn write_kind(out: &mut Vec<u8>, kind: ValueKind) -> Result<(), AllocError>
    ensures items { out.new.items ≡ (if is_ok result then out.old.items ++ kind_word kind else out.old.items) }
    ensures reads_back { kind_of (kind_word kind) ≡ Some kind }
    ensures whole { unspaced (kind_word kind) ≡ true }
{
    out.push(letter(kind))?;
    Ok(())
}
