// The stored lines: a word, a space and what follows it.
ghost use Rattle.std.specs.Prelude.{◌≤◌, length};

use little_endian::part;
use std::fmt::{InlineText, Write};

#[derive(Clone, Copy)]
pub enum Stored<'a> {
    Instrument(&'a [u8]),
    Line(&'a [u8]),
    Answer(&'a [u8]),
    Sums(&'a [u8]),
    Other,
}

pub fn stored_in(line: &[u8]) -> Stored<'_> {
    let name = text::word_at(line, 0);
    let rest = line.get(name.len().saturating_add(1)..).unwrap_or(b"");
    match name {
        b"instrument" => Stored::Instrument(rest),
        b"line" => Stored::Line(rest),
        b"answer" => Stored::Answer(rest),
        b"sums" => Stored::Sums(rest),
        _ => Stored::Other,
    }
}

// The byte of two hexadecimal digits; 0 where they are none.
fn byte_of(digits: &[u8]) -> u8 {
    let number = text::hexadecimal_of(digits).unwrap_or(0);
    u8::try_from(number).unwrap_or(0)
}

// The bytes that the digits are, as many as fit; how many.
pub fn read_bytes(digits: &[u8], bytes: &mut [u8]) -> usize
    ensures { result ≤ length bytes.new }
{
    for (byte, pair) in bytes.iter_mut().zip(digits.chunks_exact(2)) {
        *byte = byte_of(pair);
    }
    bytes.len().min(digits.len() / 2)
}

// Whether the sixteen digits at p are those of the sum.
fn is_sum(digits: &[u8], p: usize, sum: u64) -> bool {
    let mut text = InlineText::<16>::new();
    let _ = write!(text, "{sum:016x}");
    part(digits, p, 16) == text.as_str().as_bytes()
}

// `SUM SUM`, and nothing behind it.
pub fn are_sums(stored: &[u8], a: u64, b: u64) -> bool {
    stored.len() == 33 && is_sum(stored, 0, a) && is_sum(stored, 17, b)
}

// Whether a line of answer is the stored one; a refusal and a bad line are stored without the words behind their colon.
pub fn is_answer(text: &[u8], stored: &[u8]) -> bool {
    match text.strip_prefix(stored) {
        None => false,
        Some(words) => words.is_empty() || words.starts_with(b": "),
    }
}
