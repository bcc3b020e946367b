// Answers of the Rust as a file keeps them: a line is a kind's name, then words of sixteen hexadecimal digits, a space
// before each. Whatever else stands there is unreadable. Both zeros and all NaNs count alike.
#![tactic(auto)]

ghost use Rattle.std.specs.Prelude.{◌≡◌, ◌≤◌, length, IfOk};

use little_endian::{bits_of, float_of};
use std::io;
use std::io::Read;
use text::hexadecimal_of;

// Whether a stored answer is given again.
#[derive(Clone, Copy, Debug, PartialEq, Eq)]
pub enum Verdict {
    Same,
    Differs,
}

impl From<bool> for Verdict {
    fn from(is_same: bool) -> Verdict {
        if is_same {
            Verdict::Same
        } else {
            Verdict::Differs
        }
    }
}

// Reads until the buffer is full or the source ends; how many bytes it read. Of a full buffer nobody knows whether the source goes on.
pub fn read_full<R: Read>(source: &mut R, buffer: &mut [u8]) -> io::Result<usize>
    ensures { IfOk result (λ n. n ≤ length buffer.new) }
{
    // the library's own loop over reads says little of the count; that of the programs, read_all, promises nothing of it
    let mut n: usize = 0;
    while n < buffer.len() {
        let got = source.read(&mut buffer[n..])?;
        if got == 0 {
            break;
        }
        n += got;
    }
    Ok(n)
}

// Room for a file.
pub fn blank<const N: usize>() -> [u8; N] {
    [0; N]
}

// A space and sixteen digits.
fn read_word(line: &[u8]) -> Option<u64> {
    let digits = line.strip_prefix(b" ".as_slice())?;
    if digits.len() != 16 {
        return None;
    }
    hexadecimal_of(digits).ok()
}

// All words of what follows a name, in the first places; None where it holds anything else, or more than there are places.
pub fn read_words<'a>(text: &[u8], words: &'a mut [u64]) -> Option<&'a [u64]> {
    let count = text.len() / 17;
    if text.len() % 17 != 0 || words.len() < count {
        return None;
    }
    for (word, line) in words.iter_mut().zip(text.chunks_exact(17)) {
        *word = read_word(line)?;
    }
    Some(&words[..count])
}

// A line of `split_inclusive`, without its line feed.
pub fn without_feed(line: &[u8]) -> &[u8] {
    line.strip_suffix(b"\n".as_slice()).unwrap_or(line)
}

// What follows a name and the space behind it, from that space on; None where the line begins otherwise.
pub fn after_name<'a>(line: &'a [u8], name: &[u8]) -> Option<&'a [u8]> {
    let rest = line.strip_prefix(name)?;
    if rest.starts_with(b" ".as_slice()) {
        Some(rest)
    } else {
        None
    }
}

pub fn alike(r: f64, word: u64) -> bool {
    let x = float_of(word);
    if r.is_nan() { x.is_nan() } else { r == x }
}

// The same by their bits, zeros too; NaNs alike.
pub fn same_bits(r: f64, word: u64) -> bool {
    if r.is_nan() {
        alike(r, word)
    } else {
        f64::to_bits(r) == word
    }
}

// The stored cells, as far as both reach.
pub fn load(words: &[u64], cells: &mut [f64])
    ensures { length cells.new ≡ length cells.old }
{
    for (cell, word) in cells.iter_mut().zip(words) {
        *cell = float_of(*word);
    }
}

pub fn all_alike(cells: &[f64], words: &[u64]) -> bool {
    cells.len() == words.len()
        && cells
            .iter()
            .zip(words)
            .all(|(cell, word)| alike(*cell, *word))
}

// A float's bits, with one pattern for both zeros and one for all NaNs.
fn bits(x: f64) -> u64 {
    if x == 0.0 { 0 } else { bits_of(x) }
}

// One word for many cells: each turn can be undone, so two lists that differ in one cell have different words.
pub fn digest(cells: &[f64]) -> u64 {
    cells
        .iter()
        .fold(0u64, |h, x| h.rotate_left(7).wrapping_add(bits(*x)))
}
