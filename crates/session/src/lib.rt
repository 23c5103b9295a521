// The words of a session file: bytes in, values out, and back.
//
// A line is words with exactly one space between two of them. A word is one of these:
// - a text: a quote and the text's bytes, of which a byte up to the space, a percent sign and a byte above the tilde
//   are written as a percent sign and two lowercase hexadecimal digits;
// - a float: an `x` and the sixteen lowercase hexadecimal digits of its 64 bits;
// - a flag: `0` or `1`;
// - an unsigned number: decimal digits, with leading zeros or none;
// - a signed number: the same, after a minus sign or none.
// A value is two words, a letter for its kind and one of the above.
// A writer appends to a buffer, which is as it was where memory is wanting.
#![tactic(auto)]

mod fault;
mod kind_word;
mod line;
mod number_word;
mod text_word;
mod value_word;
mod word;

pub use fault::WordFault;
pub use kind_word::{ValueKind, read_kind, write_kind};
pub use line::{cut_line, cut_word};
pub use number_word::{
    read_flag, read_float, read_signed, read_unsigned, write_flag, write_float, write_signed,
    write_unsigned,
};
pub use text_word::{TextWord, read_text, write_text};
pub use value_word::{ValueWord, read_value};

#[cfg(test)]
mod tests;
