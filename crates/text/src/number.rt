// Numbers as words have them, and the bits of floats as text has them.
use little_endian::{bits_of, float_of};
use std::num::{IntErrorKind, nearest_u64_to_f64};
use std::{fmt, str};

// Why a word is no number of up to 64 bits: it is none at all, or its digits are too many.
#[derive(Clone, Copy, Debug, PartialEq, Eq)]
pub enum NumberError {
    NotANumber,
    TooLarge,
}

// A decimal number: digits alone.
pub fn number_of(word: &[u8]) -> Result<u64, NumberError> {
    if !word.iter().all(|b| b.is_ascii_digit()) {
        return Err(NumberError::NotANumber);
    }
    let digits = str::from_utf8(word).map_err(|_| NumberError::NotANumber)?;
    digits.parse::<u64>().map_err(|e| match e.kind() {
        IntErrorKind::PosOverflow => NumberError::TooLarge,
        _ => NumberError::NotANumber,
    })
}

// Up to sixteen hexadecimal digits; none are 0.
pub fn hexadecimal_of(word: &[u8]) -> Result<u64, NumberError> {
    if 16 < word.len() {
        return Err(NumberError::TooLarge);
    }
    let mut n = 0u64;
    for b in word {
        let digit = char::from(*b).to_digit(16).ok_or(NumberError::NotANumber)?;
        n = (n << 4) | u64::from(digit);
    }
    Ok(n)
}

// A float's bits: sixteen digits.
fn float_in(digits: &[u8]) -> Option<f64> {
    if digits.len() != 16 {
        return None;
    }
    hexadecimal_of(digits).ok().map(|bits| float_of(bits))
}

// Ten to the power of n: exact up to 22.
fn ten_to(n: usize) -> f64 {
    (0..n).fold(1.0, |x, _| x * 10.0)
}

// The number with decimal digits behind its own.
fn with_digits(number: u64, digits: &str) -> Option<u64> {
    digits.chars().try_fold(number, |n, c| {
        n.checked_mul(10)?.checked_add(u64::from(c.to_digit(10)?))
    })
}

// Digits with at most one point among them. Fifteen digits and a power of ten up to the fifteenth are floats exactly, so the one division rounds once.
fn decimal_of(number: &str) -> Option<f64> {
    let (whole, fraction) = number.split_once('.').unwrap_or((number, ""));
    let count = whole.len().saturating_add(fraction.len());
    if count == 0 || 15 < count {
        return None;
    }
    let n = with_digits(with_digits(0, whole)?, fraction)?;
    Some(nearest_u64_to_f64(n) / ten_to(fraction.len()))
}

// A decimal with an optional sign and fraction, of at most fifteen digits, or 0x and the bits.
pub fn real_of(word: &[u8]) -> Option<f64> {
    if let Some(digits) = word.strip_prefix(b"0x") {
        return float_in(digits);
    }
    let number = str::from_utf8(word).ok()?;
    if let Some(size) = number.strip_prefix('-') {
        return decimal_of(size).map(|x| -x);
    }
    decimal_of(number.strip_prefix('+').unwrap_or(number))
}

// A float's bits as text: sixteen hexadecimal digits, or `nan`.
#[derive(Clone, Copy)]
pub struct Bits(pub f64);

impl fmt::Display for Bits {
    fn fmt<W: fmt::Write>(&self, f: &mut fmt::Formatter<W>) -> fmt::Result {
        let x = self.0;
        if x.is_nan() {
            return write!(f, "nan");
        }
        let bits = bits_of(x);
        write!(f, "{bits:016x}")
    }
}
