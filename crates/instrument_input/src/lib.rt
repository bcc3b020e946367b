// An instrument from a file that a person names, for programs. What cannot be opened or read is named on standard error; a refused file answers its number.
#![tactic(auto)]

use file_status::{FilePath, FileStatus};
use instrument::Instrument;
use little_endian::{part, u32_at};
use program::arguments::Failure;
use program::input;
use program::input::Input;
use program::message::TransferError;
use program::output::{InUse, check_streams};
use program::system::{Program, System};
use refusal::Refusal;
use std::fmt::InlineText;
use std::io::Read;

#[derive(Clone, Copy)]
pub struct Loaded {
    pub instrument: Instrument,
    pub file: Option<FileStatus>,
}

// The refusal's line of answer. The status is that of a refusal also where standard output does not take it.
pub fn answer_refusal<P: FilePath>(
    program: &Program<'_, impl System>,
    path: P,
    refusal: Refusal,
) -> Failure {
    let line = InlineText::<128>::of(refusal);
    let _ = program.answer_of(path.text(), line.as_str());
    Failure::Refused
}

// The file's instrument, or its refusal as the one line of answer.
pub fn accept<P: FilePath>(
    program: &Program<'_, impl System>,
    path: P,
    bytes: &[u8],
) -> Result<Instrument, Failure> {
    match instrument_file::read(bytes) {
        Ok(instrument) => Ok(instrument),
        Err(refusal) => Err(answer_refusal(program, path, refusal)),
    }
}

// ---- files that are longer than any instrument's

// Where pair i of the table ends, if it begins at `end`, where the one before it ends.
fn linked(table: &[u8], i: u32, end: u64) -> Option<u64> {
    let place = 4 + 8 * i as usize;
    let offset = u64::from(u32_at(table, place));
    let length = u64::from(u32_at(table, place + 4));
    (end == offset).then_some(offset.saturating_add(length))
}

// Where the last of the table's pairs ends, if there are at most 17 and they chain from the table's end on.
fn chain_end(table: &[u8]) -> Option<u64> {
    let sections = u32_at(table, 0);
    if 17 < sections {
        return None;
    }
    (0..sections).try_fold(4 + 8 * u64::from(sections), |end, i| linked(table, i, end))
}

// A device has no size.
fn size_of(file: Option<FileStatus>) -> Option<u64> {
    match file {
        Some(file) if file.is_regular() => Some(file.size),
        _ => None,
    }
}

// A file whose sections have the lengths of refusal 3 has less than 8,192 bytes: one that fills them is refused as 1, 2 or 3, by its table and its size alone.
fn refusal_of_long(bytes: &[u8], file: Option<FileStatus>) -> Refusal {
    if let Err(Refusal::SectionCount) = instrument_file::read(bytes) {
        return Refusal::SectionCount;
    }
    match (chain_end(bytes), size_of(file)) {
        (Some(end), Some(size)) if end == size => Refusal::SectionLength,
        _ => Refusal::Chain,
    }
}

// ---- reading

fn read<S: Read>(
    program: &Program<'_, impl System>,
    path: &str,
    source: &mut S,
    file: Option<FileStatus>,
) -> Result<Instrument, Failure> {
    let mut bytes = [0u8; 8192];
    match input::read_all(source, &mut bytes) {
        Ok(n) if n < 8192 => accept(program, path, part(&bytes, 0, n)),
        Ok(_) => Err(answer_refusal(program, path, refusal_of_long(&bytes, file))),
        Err(e) => Err(program.complain(path, TransferError(e))),
    }
}

// Answers and messages may not go into the file, which is asked before it can be refused: the refusal would go there too.
pub fn load<P: FilePath>(program: &Program<'_, impl System>, path: P) -> Result<Loaded, Failure> {
    let path = path.text();
    let Input { source, file } = input::open(program, path)?;
    let used = InUse {
        file,
        name: "the instrument",
    };
    check_streams(program, &[used])?;
    let mut source = source;
    let instrument = read(program, path, &mut source, file)?;
    Ok(Loaded { instrument, file })
}
