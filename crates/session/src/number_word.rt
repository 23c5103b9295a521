// Numbers as words: unsigned and signed numbers in decimal digits, a float's 64 bits in hexadecimal ones, and flags. Each
// writer says of its own word what it appends.
ghost use Rattle.std.specs.Prelude.{◌≡◌, ◌+◌, ◌-◌, ◌*◌, ◌^◌, ◌<◌, true, ◌++◌, is_ok, if◌then◌else◌, Some, None, decimal, nat_le};
ghost use Rattle.std.specs.Char.{digit_char};
ghost use Rattle.std.specs.Fmt.{signed_decimal};
ghost use Rattle.session.specs.Buffers.{Grown};
ghost use Rattle.session.specs.Lines.{unspaced};
ghost use Rattle.session.specs.Numerals.{digit_of, number_of, unsigned_of, signed_of, hexes, float_word, float_of, flag_word, flag_of};

use crate::word::append;
use std::alloc::AllocError;

// What a byte counts as a digit of the base.
fn digit(byte: u8, base: u64) -> Option<u64>
    requires { 0 < base }
    ensures { result ≡ digit_of base byte }
{
    let worth = match byte {
        b'0'..=b'9' => byte - b'0',
        b'a'..=b'f' => byte - b'a' + 10,
        _ => return None,
    };
    Some(u64::from(worth)).filter(|worth| *worth < base)
}

// The number with one more digit, unless it is above `most`.
fn with_digit(number: u64, digit: u64, base: u64, most: u64) -> Option<u64>
    ensures { result ≡ (if nat_le (number * base + digit) most then Some (number * base + digit) else None) }
{
    number
        .checked_mul(base)?
        .checked_add(digit)
        .filter(|more| *more <= most)
}

// The number that digits of the base write, unless it is above `most`. A loop, since the proof of a `try_fold` stays open.
#[tactic(auto, using(crate::proofs::Reading::digits_read))]
pub(crate) fn read_digits(digits: &[u8], base: u64, most: u64) -> Option<u64>
    requires { 0 < base }
    ensures { result ≡ number_of base most digits.now }
{
    let mut number = 0;
    for byte in digits {
        number = with_digit(number, digit(*byte, base)?, base, most)?;
    }
    Some(number)
}

// Reads an unsigned number, of at most `most`.
pub fn read_unsigned(word: &[u8], most: u64) -> Option<u64>
    ensures { result ≡ unsigned_of most word.now }
{
    match word {
        [] => None,
        digits => read_digits(digits, 10, most),
    }
}

// Reads a signed number, with no sign or a minus sign.
pub fn read_signed(word: &[u8]) -> Option<i64>
    ensures { result ≡ signed_of word.now }
{
    match word.strip_prefix(b"-") {
        Some(digits) => 0i64.checked_sub_unsigned(read_unsigned(digits, 1 << 63)?),
        None => Some(read_unsigned(word, (1 << 63) - 1)? as i64),
    }
}

// Reads a float's bits, from an `x` and sixteen hexadecimal digits.
pub fn read_float(word: &[u8]) -> Option<u64>
    ensures { result ≡ float_of word.now }
{
    let digits = word.strip_prefix(b"x")?;
    if digits.len() == 16 {
        read_digits(digits, 16, u64::MAX)
    } else {
        None
    }
}

// Reads a flag, from a `0` or a `1`.
pub fn read_flag(word: &[u8]) -> Option<bool>
    ensures { result ≡ flag_of word.now }
{
    match word {
        [b'0'] => Some(false),
        [b'1'] => Some(true),
        _ => None,
    }
}

// Appends an unsigned number. Its word reads back as the number.
#[tactic(auto, using(crate::proofs::Writing::written))]
pub fn write_unsigned(out: &mut Vec<u8>, number: u64) -> Result<(), AllocError>
    ensures items { out.new.items ≡ (if is_ok result then out.old.items ++ decimal number else out.old.items) }
    ensures reads_back { unsigned_of (2 ^ 64 - 1) (decimal number) ≡ Some number }
    ensures whole { unspaced (decimal number) ≡ true }
{
    append::<u64>(out, number)
}

// Appends a signed number. Its word reads back as the number.
#[tactic(auto, using(crate::proofs::Writing::written))]
pub fn write_signed(out: &mut Vec<u8>, number: i64) -> Result<(), AllocError>
    ensures items { out.new.items ≡ (if is_ok result then out.old.items ++ signed_decimal number else out.old.items) }
    ensures reads_back { signed_of (signed_decimal number) ≡ Some number }
    ensures whole { unspaced (signed_decimal number) ≡ true }
{
    append::<i64>(out, number)
}

// The byte that writes a hexadecimal digit.
fn hex_digit(worth: u8) -> u8
    requires { worth < 16 }
    ensures { result ≡ digit_char worth }
{
    if worth < 10 {
        b'0' + worth
    } else {
        b'a' + (worth - 10)
    }
}

// Appends the last places of a number in hexadecimal digits, or a part of them.
pub(crate) fn push_hexes(out: &mut Vec<u8>, places: u8, number: u64) -> Result<(), AllocError>
    ensures { Grown result out.old.items (hexes places number) out.new.items }
{
    if places == 0 {
        return Ok(());
    }
    push_hexes(out, places - 1, number / 16)?;
    out.push(hex_digit((number % 16) as u8))?;
    Ok(())
}

// Appends a float's word, or a part of it. Into the buffer itself, which asks for no memory where there is room.
fn push_float(out: &mut Vec<u8>, bits: u64) -> Result<(), AllocError>
    ensures grown { Grown result out.old.items (float_word bits) out.new.items }
    ensures reads_back { float_of (float_word bits) ≡ Some bits }
    ensures whole { unspaced (float_word bits) ≡ true }
{
    out.push(b'x')?;
    push_hexes(out, 16, bits)
}

// Appends a float's bits. Their word reads back as the bits.
pub fn write_float(out: &mut Vec<u8>, bits: u64) -> Result<(), AllocError>
    ensures items { out.new.items ≡ (if is_ok result then out.old.items ++ float_word bits else out.old.items) }
    ensures reads_back { float_of (float_word bits) ≡ Some bits }
    ensures whole { unspaced (float_word bits) ≡ true }
{
    let start = out.len();
    let written = push_float(out, bits);
    if written.is_err() {
        out.truncate(start);
    }
    written
}

// Appends a flag. Its word reads back as the flag.
pub fn write_flag(out: &mut Vec<u8>, flag: bool) -> Result<(), AllocError>
    ensures items { out.new.items ≡ (if is_ok result then out.old.items ++ flag_word flag else out.old.items) }
    ensures reads_back { flag_of (flag_word flag) ≡ Some flag }
    ensures whole { unspaced (flag_word flag) ≡ true }
{
    out.push(if flag { b'1' } else { b'0' })?;
    Ok(())
}
