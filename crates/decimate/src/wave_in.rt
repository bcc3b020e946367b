// The input files: where a WAV file's samples lie, and the taps.
use file_status::FileStatus;
use program::arguments::Failure;
use program::input;
use program::input::{Input, Source, read_at};
use program::message::TransferError;
use program::system::{Program, System};
use std::fmt;
use wav::Chunk;

// Where the samples start in the file and how many there are.
#[derive(Clone, Copy)]
pub struct Signal {
    pub rate: u64,
    pub start: u64,
    pub count: usize,
}

// What is wrong with a file.
#[derive(Clone, Copy)]
pub enum WaveFlaw {
    NotWave,
    OtherFormat,
    NoFormat,
    Uneven,
    TooLong,
    CutShort,
    NoData,
}

impl fmt::Display for WaveFlaw {
    fn fmt<W: fmt::Write>(&self, f: &mut fmt::Formatter<W>) -> fmt::Result {
        f.write_str(match *self {
            WaveFlaw::NotWave => "not a RIFF/WAVE file",
            WaveFlaw::OtherFormat => "not of format 3 (floats), one channel and 64 bits",
            WaveFlaw::NoFormat => "its data come before its format",
            WaveFlaw::Uneven => "its data are no whole number of samples",
            WaveFlaw::TooLong => "refused 17: the input exceeds 1,048,576 samples",
            WaveFlaw::CutShort => "its data are cut short",
            WaveFlaw::NoData => "it has no data chunk",
        })
    }
}

// The data's chunk: where its `size` bytes start, and the rate that the format before it says.
#[derive(Clone, Copy)]
struct Data {
    rate: u64,
    start: u64,
    size: u64,
}

// The rate that the chunk `fmt ` says, whose bytes start at `at`.
fn read_rate(source: &mut Source, at: u64) -> Result<u64, WaveFlaw> {
    let mut bytes = [0u8; 16];
    read_at(source, &mut bytes, at).map_err(|_| WaveFlaw::NoData)?;
    let format = wav::format_of(&bytes);
    if wav::is_mono_64(format) {
        Ok(u64::from(format.rate))
    } else {
        Err(WaveFlaw::OtherFormat)
    }
}

// How many chunks are looked at; no file of 32-bit sizes has more.
const CHUNKS: u32 = 0x1fff_ffff;

// Other chunks are passed over, each with the byte that fills an odd one up.
fn find_data(source: &mut Source) -> Result<Data, WaveFlaw> {
    let mut rate = None;
    let mut at = 12u64;
    for _ in 0..CHUNKS {
        let mut head = [0u8; 8];
        read_at(source, &mut head, at).map_err(|_| WaveFlaw::NoData)?;
        let size = u64::from(wav::chunk_size(&head));
        let start = at.saturating_add(8);
        match wav::chunk_of(&head) {
            Chunk::Format => rate = Some(read_rate(source, start)?),
            Chunk::Data => {
                let rate = rate.ok_or(WaveFlaw::NoFormat)?;
                return Ok(Data { rate, start, size });
            }
            Chunk::Other => {}
        }
        at = start.saturating_add(size + size % 2);
    }
    Err(WaveFlaw::NoData)
}

// Whether the file has all of the data: whether the last byte can be read.
fn is_there(source: &mut Source, data: Data) -> bool {
    let mut last = [0u8; 1];
    data.size == 0 || read_at(source, &mut last, data.start.saturating_add(data.size - 1)).is_ok()
}

// Where a file's samples are, or what is wrong with it.
pub fn find_samples(source: &mut Source) -> Result<Signal, WaveFlaw> {
    let mut head = [0u8; 12];
    read_at(source, &mut head, 0).map_err(|_| WaveFlaw::NotWave)?;
    if !wav::is_wave(&head) {
        return Err(WaveFlaw::NotWave);
    }
    let data = find_data(source)?;
    if data.size % 8 != 0 {
        return Err(WaveFlaw::Uneven);
    }
    if 0x80_0000 < data.size {
        return Err(WaveFlaw::TooLong);
    }
    if !is_there(source, data) {
        return Err(WaveFlaw::CutShort);
    }
    Ok(Signal {
        rate: data.rate,
        start: data.start,
        count: (data.size / 8) as usize,
    })
}

// The 127 taps from a file by its name, which is closed again, and what the system knows of it. The frame with the file's bytes is gone when the work begins.
#[inline(never)]
pub fn read_taps(
    program: &Program<'_, impl System>,
    path: &str,
    taps: &mut [f64; 127],
) -> Result<Option<FileStatus>, Failure> {
    let Input { source, file } = input::open(program, path)?;
    let mut source = source;
    let mut bytes = [0u8; 4096];
    match input::read_all(&mut source, &mut bytes) {
        Ok(1016) => {
            wav::get_samples(&bytes, taps);
            Ok(file)
        }
        Ok(_) => Err(program.complain(path, "refused 18: there aren't 127 taps (1,016 bytes)")),
        Err(e) => Err(program.complain(path, TransferError(e))),
    }
}
