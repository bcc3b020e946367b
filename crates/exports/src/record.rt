// The reader, refusal 7's test and the writer. The instrument's record crosses as it is: its structs are repr(C).
ghost use Rattle.std.specs.Prelude.{◌≡◌, ◌*◌};
ghost use Rattle.instrument.specs.Work.{counted_part};
ghost use Rattle.instrument_file.specs.File.{instrument_in, read_of};
ghost use Rattle.refusal.specs.Refusal.{number_in};
ghost use Rattle.exports.specs.Record.{WriteCrosses};

use instrument::Instrument;
use refusal::Refusal;

// The refusal's number, 0 for none; the record, of zeros where the file is refused; W and 5W.
#[repr(C)]
#[derive(Clone, Copy)]
pub struct Reading {
    pub refusal: u32,
    pub instrument: Instrument,
    pub part_cells: usize,
    pub work_cells: usize,
}

// The refusal's number, 0 for none; how many bytes the file has, 0 where it is refused.
#[repr(C)]
#[derive(Clone, Copy)]
pub struct WriteAnswer {
    pub refusal: u32,
    pub length: usize,
}

fn number_in<T: Copy>(answer: Result<T, Refusal>) -> u32
    ensures { result ≡ number_in answer }
{
    match answer {
        Ok(_) => 0,
        Err(refusal) => u32::from(refusal),
    }
}

#[unsafe(no_mangle)]
pub extern "C" fn instrument_read(file: &[u8]) -> Reading
    ensures number { result.refusal ≡ number_in (read_of file.now) }
    ensures given { result.instrument ≡ instrument_in (read_of file.now) }
    ensures cells { (result.part_cells ≡ counted_part result.instrument) × (result.work_cells ≡ 5 * counted_part result.instrument) }
{
    let answer = instrument_file::read(file);
    let instrument = instrument_file::instrument_in(answer);
    Reading {
        refusal: number_in(answer),
        instrument,
        part_cells: instrument::part_cells(instrument),
        work_cells: instrument::work_cells(instrument),
    }
}

// Whether some accepted file gives the record.
#[unsafe(no_mangle)]
pub extern "C" fn instrument_test(instrument: Instrument) -> bool {
    instrument_encoding::is_given(instrument)
}

// The record's file, into the first of the bytes.
#[unsafe(no_mangle)]
pub extern "C" fn instrument_write(instrument: Instrument, bytes: &mut [u8]) -> WriteAnswer
    ensures { WriteCrosses instrument bytes.old result.refusal result.length bytes.new }
{
    let answer = instrument_writer::write(instrument, bytes);
    WriteAnswer {
        refusal: number_in(answer),
        length: instrument_writer::length_in(answer),
    }
}
