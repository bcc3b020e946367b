// Floats in files, eight bytes each, in chunks that a small buffer holds.
use crate::input::read_at;
use crate::output::{Unfinished, write};
use std::io;
use std::io::{Read, Seek, Write};

// How many floats go into one read or write: as many as the bytes hold.
const CHUNK: usize = 2048;

// Floats, eight bytes each.
pub fn write_floats<W: Write>(
    to: &mut W,
    floats: &[f64],
    bytes: &mut [u8; 16384],
) -> Result<(), Unfinished> {
    let mut done = 0usize;
    for chunk in floats.chunks(CHUNK) {
        let n = wav::put_samples(chunk, bytes);
        write(to, &bytes[..n]).map_err(|e| e.behind(done))?;
        done = done.saturating_add(n);
    }
    Ok(())
}

// Fills the floats from the file's byte `start` on.
pub fn read_floats<S: Read + Seek>(
    source: &mut S,
    start: u64,
    floats: &mut [f64],
    bytes: &mut [u8; 16384],
) -> io::Result<()> {
    let mut place = start;
    for chunk in floats.chunks_mut(CHUNK) {
        let size = 8 * chunk.len();
        read_at(source, &mut bytes[..size], place)?;
        wav::get_samples(bytes, chunk);
        place = place.wrapping_add(16384);
    }
    Ok(())
}
