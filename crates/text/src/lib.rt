// Text in bytes, for programs: the lines of a file, their words and numbers, and the bits of floats as text. Every function takes any bytes.
#![tactic(auto)]

pub mod lines;
mod number;
mod word;

pub use number::{Bits, NumberError, hexadecimal_of, number_of, real_of};
use std::fmt::InlineText;
pub use word::{Words, word_at, words_of};

// Stores a number's digits at a place of the line, as many as there is room for, and gives the place behind them.
pub fn put_number(line: &mut [u8], at: usize, n: u64) -> usize {
    let digits = InlineText::<20>::of(n);
    let digits = digits.as_str().as_bytes();
    let Some(room) = line.get_mut(at..) else {
        return at;
    };
    let count = room.len().min(digits.len());
    room[..count].copy_from_slice(&digits[..count]);
    at.saturating_add(count)
}
