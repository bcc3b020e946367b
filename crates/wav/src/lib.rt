// Mono WAV files of 64-bit floats: format 3, with the chunk `fact` that the format asks for.
#![tactic(auto)]

ghost use Rattle.std.specs.Prelude.{◌≤◌, length};

use little_endian::{f64_at, float_of, part, put_f64, put_u16, put_u32, u16_at, u32_at};

pub const HEADER: usize = 58;

// The names in a header, at their places.
const TEXTS: [u8; 58] =
    *b"RIFF\0\0\0\0WAVEfmt \0\0\0\0\0\0\0\0\0\0\0\0\0\0\0\0\0\0\0\0\0\0fact\0\0\0\0\0\0\0\0data\0\0\0\0";

// The most samples whose file's size a header of 32 bits can say.
pub const MOST_SAMPLES: u64 = 0x1fff_fff9;

// A file's length, of no more samples than that.
pub fn file_size(count: u64) -> i64 {
    (58 + count.min(MOST_SAMPLES) * 8) as i64
}

// A file's first bytes: `count` samples at `rate` a second. Sizes of over 32 bits stop at the largest.
pub fn header(rate: u64, count: u64) -> [u8; 58] {
    let samples = count.min(MOST_SAMPLES);
    let size = samples * 8;
    let pace = rate.min(0x1fff_ffff) * 8;
    let mut h = TEXTS;
    put_u32(&mut h, 4, (50 + size) as u32);
    put_u32(&mut h, 16, 18);
    put_u16(&mut h, 20, 3);
    put_u16(&mut h, 22, 1);
    put_u32(&mut h, 24, (rate % 0x1_0000_0000) as u32);
    put_u32(&mut h, 28, pace as u32);
    put_u16(&mut h, 32, 8);
    put_u16(&mut h, 34, 64);
    put_u32(&mut h, 42, 4);
    put_u32(&mut h, 46, samples as u32);
    put_u32(&mut h, 54, size as u32);
    h
}

// As many of the samples as the bytes hold, eight bytes each; how many bytes that is.
pub fn put_samples(samples: &[f64], bytes: &mut [u8]) -> usize
    ensures { result ≤ length bytes.new }
{
    let count = samples.len().min(bytes.len() / 8);
    for (place, sample) in bytes.chunks_exact_mut(8).zip(samples) {
        put_f64(place, 0, *sample);
    }
    count * 8
}

// ---- reading

// Whether a file that begins with these 12 bytes is a WAV file.
pub fn is_wave(b: &[u8]) -> bool {
    b.starts_with(b"RIFF") && part(b, 8, 4).starts_with(b"WAVE")
}

#[derive(Clone, Copy)]
pub enum Chunk {
    Format,
    Data,
    Other,
}

// A chunk's first 8 bytes are its name and its size.
pub fn chunk_of(b: &[u8]) -> Chunk {
    if b.starts_with(b"fmt ") {
        Chunk::Format
    } else if b.starts_with(b"data") {
        Chunk::Data
    } else {
        Chunk::Other
    }
}

pub fn chunk_size(b: &[u8]) -> u32 {
    u32_at(b, 4)
}

// What the chunk `fmt ` says: of its bytes the first 16.
#[derive(Clone, Copy)]
pub struct Format {
    pub tag: u16,
    pub channels: u16,
    pub rate: u32,
    pub bits: u16,
}

pub fn format_of(b: &[u8]) -> Format {
    Format {
        tag: u16_at(b, 0),
        channels: u16_at(b, 2),
        rate: u32_at(b, 4),
        bits: u16_at(b, 14),
    }
}

// Whether the samples are 64-bit floats of one channel.
pub fn is_mono_64(format: Format) -> bool {
    format.tag == 3 && format.channels == 1 && format.bits == 64
}

// The floats of places of eight bytes, as far as both go.
fn get_whole(places: &[[u8; 8]], samples: &mut [f64]) {
    for (place, sample) in places.iter().zip(samples) {
        *sample = float_of(u64::from_le_bytes(*place));
    }
}

// As many floats as `samples` has places, eight bytes each; bytes that are missing count as 0. The whole ones go first, so that each is one load.
pub fn get_samples(bytes: &[u8], samples: &mut [f64]) {
    let (places, rest) = bytes.as_chunks();
    let count = places.len().min(samples.len());
    get_whole(places, &mut samples[..count]);
    let mut cut = rest.chunks(8);
    for sample in &mut samples[count..] {
        *sample = f64_at(cut.next().unwrap_or(&[]), 0);
    }
}
