// Takes a line apart, word by word, and says what was expected where a word is not of the wanted kind.
use crate::fault::LineFault;
use crate::lines::Line;
use session::{
    ValueKind, ValueWord, WordFault, cut_word, read_kind, read_text, read_unsigned, read_value,
};
use std::alloc::Global;

// The words of a line that are not read yet.
#[derive(Clone, Copy)]
pub struct Words<'a> {
    heap: Global,
    line: Line<'a>,
    rest: Option<&'a [u8]>,
}

impl<'a> Words<'a> {
    pub fn of(heap: Global, line: Line<'a>) -> Self {
        Words {
            heap,
            line,
            rest: Some(line.text),
        }
    }

    // The next word, which is empty where there is none.
    pub fn next_word(&mut self) -> &'a [u8] {
        let (word, more) = cut_word(self.rest.unwrap_or(&[]));
        self.rest = more;
        word
    }

    pub fn text(&mut self) -> Result<Vec<u8>, LineFault<'a>> {
        let word = self.next_word();
        self.wanted("a text", word, read_text(self.heap, word))
    }

    pub fn value(&mut self) -> Result<ValueWord, LineFault<'a>> {
        let kind = self.next_word();
        let word = self.next_word();
        let (what, found) = match read_kind(kind) {
            Some(ValueKind::Text) => ("a text", word),
            Some(ValueKind::Float) => ("a float", word),
            Some(ValueKind::Int) => ("a signed number", word),
            Some(ValueKind::Bool) => ("0 or 1", word),
            Some(ValueKind::Bytes | ValueKind::KeyValue | ValueKind::List) => ("a number", word),
            None => ("t, f, i, b, y, k or l", kind),
        };
        self.wanted(what, found, read_value(self.heap, kind, word))
    }

    pub fn number(&mut self) -> Result<usize, LineFault<'a>> {
        let word = self.next_word();
        let number = read_unsigned(word, u64::MAX).ok_or(WordFault::Malformed);
        Ok(self.wanted("a number", word, number)? as usize)
    }

    // What was read, or that it was to be something else than what was found.
    fn wanted<T>(
        &self,
        what: &'static str,
        found: &'a [u8],
        read: Result<T, WordFault>,
    ) -> Result<T, LineFault<'a>> {
        match read {
            Ok(value) => Ok(value),
            Err(WordFault::Malformed) => Err(self.line.expected(what, found)),
            Err(WordFault::Memory) => Err(LineFault::Memory),
        }
    }

    pub fn end(&self) -> Result<(), LineFault<'a>> {
        match self.rest {
            Some(more) => Err(self.line.expected("the end of the line", more)),
            None => Ok(()),
        }
    }
}
