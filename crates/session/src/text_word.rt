// Texts as words: a quote, and then the text's bytes, in hexadecimal where they are not visible or are a percent sign.
ghost use Rattle.std.specs.Prelude.{◌≡◌, ◌<◌, true, ◌++◌, length, is_ok, if◌then◌else◌, Some, None, vec_items, MatchOption};
ghost use Rattle.std.specs.List.{flat_map};
ghost use Rattle.std.specs.Option.{option_map};
ghost use Rattle.session.specs.Buffers.{Grown};
ghost use Rattle.session.specs.Faults.{Reads};
ghost use Rattle.session.specs.Lines.{unspaced};
ghost use Rattle.session.specs.Texts.{plain, spelt_byte, spelt, unspelt, text_of, SpellsFirst};

use crate::fault::WordFault;
use crate::number_word::{push_hexes, read_digits};
use std::alloc::{AllocError, Global};
use std::fmt;

// Whether a byte is written as itself.
fn is_plain(byte: u8) -> bool
    ensures { result ≡ plain byte }
{
    byte.is_ascii_graphic() && byte != b'%'
}

// The byte that a spelling begins with, and the rest of the spelling. Its readers loop, since an iterator of bytes does not
// tell where a spelling ends from where it is malformed.
fn first_byte(spelling: &[u8]) -> Option<(u8, &[u8])>
    requires { 0 < length spelling.now }
    ensures { MatchOption result (unspelt spelling.now ≡ None) (λ f. SpellsFirst spelling.now f.0 f.1.now) }
{
    match spelling {
        [b'%', high, low, rest @ ..] => Some((read_digits(&[*high, *low], 16, 255)? as u8, rest)),
        [byte, rest @ ..] if is_plain(*byte) => Some((*byte, rest)),
        _ => None,
    }
}

// How long the text is that bytes spell.
fn text_len(spelling: &[u8]) -> Option<usize>
    ensures { result ≡ option_map length (unspelt spelling.now) }
{
    let mut len = 0;
    let mut rest = spelling;
    while !rest.is_empty() {
        (_, rest) = first_byte(rest)?;
        len += 1;
    }
    Some(len)
}

// Reads what bytes spell. They are measured first, so that malformed ones ask for no memory and any others for just what they need.
#[tactic(auto, using(crate::proofs::Texts::text_more))]
fn read_spelling(heap: Global, spelling: &[u8]) -> Result<Vec<u8>, WordFault>
    ensures { Reads vec_items (λ _. true) (unspelt spelling.now) result }
{
    let len = text_len(spelling).ok_or(WordFault::Malformed)?;
    let mut text = Vec::with_capacity(heap, len)?;
    let mut rest = spelling;
    while !rest.is_empty() {
        let (byte, after) = first_byte(rest).ok_or(WordFault::Malformed)?;
        text.push(byte)?;
        rest = after;
    }
    Ok(text)
}

// Reads a text.
pub fn read_text(heap: Global, word: &[u8]) -> Result<Vec<u8>, WordFault>
    ensures { Reads vec_items (λ _. true) (text_of word.now) result }
{
    match word.strip_prefix(b"'") {
        Some(spelling) => read_spelling(heap, spelling),
        None => Err(WordFault::Malformed),
    }
}

// A byte of a text, to be printed as it stands in a word.
#[derive(Drop)]
struct SpeltByte(u8);

impl fmt::Display for SpeltByte {
    ghost output = { λ byte. Some (spelt_byte byte.0) };

    #[tactic(auto, using(crate::proofs::Hexes::hexes_byte))]
    fn fmt<W: fmt::Write>(&self, f: &mut fmt::Formatter<W>) -> fmt::Result {
        if is_plain(self.0) {
            f.write_char(self.0 as char)
        } else {
            write!(f, "%{:02x}", self.0)
        }
    }
}

// A text to be printed as a word: a quote, and each byte as it is written.
#[derive(Clone, Copy, Debug)]
pub struct TextWord<'a>(pub &'a [u8]);

impl fmt::Display for TextWord<'_> {
    ghost output = { λ text. Some (spelt text.0.now) };

    fn fmt<W: fmt::Write>(&self, f: &mut fmt::Formatter<W>) -> fmt::Result {
        write!(f, "'")?;
        for byte in self.0 {
            write!(f, "{}", SpeltByte(*byte))?;
        }
        Ok(())
    }
}

// Appends what one byte of a text is written as, or a part of it.
fn push_byte(out: &mut Vec<u8>, byte: u8) -> Result<(), AllocError>
    ensures { Grown result out.old.items (spelt_byte byte) out.new.items }
{
    if is_plain(byte) {
        out.push(byte)?;
        return Ok(());
    }
    out.push(b'%')?;
    push_hexes(out, 2, u64::from(byte))
}

// Appends what the bytes of a text are written as, or a part of it.
fn push_bytes(out: &mut Vec<u8>, text: &[u8]) -> Result<(), AllocError>
    ensures { Grown result out.old.items (flat_map spelt_byte text.now) out.new.items }
{
    for byte in text {
        push_byte(out, *byte)?;
    }
    Ok(())
}

// Appends a text's word, or a part of it. Into the buffer itself: printed first, as a `TextWord`, it would ask for memory
// where there is room, and take several times as long.
fn push_text(out: &mut Vec<u8>, text: &[u8]) -> Result<(), AllocError>
    ensures grown { Grown result out.old.items (spelt text.now) out.new.items }
    ensures reads_back { text_of (spelt text.now) ≡ Some text.now }
    ensures whole { unspaced (spelt text.now) ≡ true }
{
    out.push(b'\'')?;
    push_bytes(out, text)
}

// Appends a text. Its word reads back as the text.
pub fn write_text(out: &mut Vec<u8>, text: &[u8]) -> Result<(), AllocError>
    ensures items { out.new.items ≡ (if is_ok result then out.old.items ++ spelt text.now else out.old.items) }
    ensures reads_back { text_of (spelt text.now) ≡ Some text.now }
    ensures whole { unspaced (spelt text.now) ≡ true }
{
    let start = out.len();
    let written = push_text(out, text);
    if written.is_err() {
        out.truncate(start);
    }
    written
}
