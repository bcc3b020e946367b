// What a row changes in the words of a right record: `@P` goes to word P; a number is stored there, and the next number
// after it; `<P` and then `*N` copy N words from word P on. A number is decimal, or hexadecimal after an x.
use crate::record::WORDS;
use little_endian::{byte_at, part};
use text::{NumberError, words_of};

// Where the next word is stored and where the next is copied from.
#[derive(Clone, Copy)]
struct Cursor {
    to: usize,
    from: usize,
}

// A place past the words is unreadable.
fn store(words: &mut [u64; WORDS], cursor: &mut Cursor, value: u64) -> Option<()> {
    *words.get_mut(cursor.to)? = value;
    cursor.to = cursor.to.wrapping_add(1);
    Some(())
}

// One word after the other, so that a copy can go on with what it stored.
fn copy(words: &mut [u64; WORDS], cursor: &mut Cursor, n: u64) -> Option<()> {
    for _ in 0..n {
        let value = words.get(cursor.from).copied().unwrap_or(0);
        store(words, cursor, value)?;
        cursor.from = cursor.from.wrapping_add(1);
    }
    Some(())
}

fn number_in(word: &[u8]) -> Result<u64, NumberError> {
    let rest = part(word, 1, word.len());
    match byte_at(word, 0) {
        b'x' => text::hexadecimal_of(rest),
        b'@' | b'<' | b'*' => text::number_of(rest),
        _ => text::number_of(word),
    }
}

fn change_by(words: &mut [u64; WORDS], cursor: &mut Cursor, word: &[u8]) -> Option<()> {
    let n = number_in(word).ok()?;
    match byte_at(word, 0) {
        b'@' => cursor.to = n as usize,
        b'<' => cursor.from = n as usize,
        b'*' => copy(words, cursor, n)?,
        _ => store(words, cursor, n)?,
    }
    Some(())
}

// Whether the row could be read; it has fewer than 64 words.
pub fn change(words: &mut [u64; WORDS], row: &[u8]) -> Option<()> {
    let mut cursor = Cursor {
        to: WORDS,
        from: WORDS,
    };
    if 64 <= words_of(row).count() {
        return None;
    }
    for word in words_of(row) {
        change_by(words, &mut cursor, word)?;
    }
    Some(())
}
