// Reads each file that its arguments name as document 01's instrument file, and writes a line for it: what was read, with S and W, or the refusal's number and words. An accepted file is written
// again from its record, and every byte compared; then into one byte fewer than it has, and from a record with a spoiled place: each is refused, and no byte may change.
#![tactic(auto)]

use instrument::{Instrument, is_valid, part_cells, work_cells};
use refusal::Refusal;
use std::env::FillError;
use std::fs::File;
use std::io;
use std::rt::{Env, Files};
use test_answers::read_full;

// Document 01's words, shortened, for the refusals of a file.
fn say_refusal(rt: &impl Print, refusal: Refusal) -> io::Result<()> {
    match refusal {
        Refusal::SectionCount => println!(rt; "refused 1: too short, or D out of range"),
        Refusal::Chain => println!(rt; "refused 2: the pairs do not chain"),
        Refusal::SectionLength => println!(rt; "refused 3: a section's length or string count"),
        Refusal::Field => println!(rt; "refused 4: a field out of range, or the zero byte"),
        Refusal::ManyStrings => println!(rt; "refused 5: more than 32 strings"),
        Refusal::KeyTwice => println!(rt; "refused 6: a key number comes twice"),
        _ => println!(rt; "refused"),
    }
}

// The record's counts; every accepted file's record passes the test of refusal 7.
fn say_instrument(rt: &impl Print, i: Instrument) -> io::Result<()> {
    let keys = i.key_count;
    let strings = i.string_count;
    let cells = part_cells(i);
    let work = work_cells(i);
    print!(rt; "keys {keys}, strings S = {strings}, cells W = {cells}, work memory {work}")?;
    if !is_valid(i) {
        print!(rt; ", refused 7")?;
    }
    Ok(())
}

// ---- the file again

// One byte more than any file has, and what each holds before the writer is lent the first of them.
const ROOM: usize = 2201;

const BEFORE: u8 = 0xa5;

// The first byte that is not the file's or, past the file, not as before.
fn first_wrong(bytes: &[u8], file: &[u8]) -> Option<usize> {
    bytes.iter().enumerate().position(|(k, byte)| *byte != file.get(k).copied().unwrap_or(BEFORE))
}

// Writes a record into the first n bytes; says what the writer answers, then `right` where all bytes are as they should be.
fn say_writing(
    rt: &impl Print,
    i: Instrument,
    bytes: &mut [u8],
    n: usize,
    file: &[u8],
    right: &str,
) -> io::Result<()> {
    let Some(lent) = bytes.get_mut(..n) else {
        return Ok(());
    };
    match instrument_writer::write(i, lent) {
        Ok(length) => print!(rt; "written {length}")?,
        Err(refusal) => print!(rt; "refused {}", refusal.number())?,
    }
    match first_wrong(bytes, file) {
        Some(wrong) => println!(rt; ", wrong from byte {wrong} on"),
        None => println!(rt; ", {right}"),
    }
}

fn say_refused(
    rt: &impl Print,
    path: &str,
    words: &str,
    i: Instrument,
    n: usize,
) -> io::Result<()> {
    let mut bytes = [BEFORE; ROOM];
    print!(rt; "{path}, {words}: ")?;
    say_writing(rt, i, &mut bytes, n, b"", "untouched")
}

// No place of a record may hold this weight, used or unused.
fn spoiled(instrument: Instrument) -> Instrument {
    let mut i = instrument;
    i.keys[15].weight = -1.0;
    i
}

fn say_again(rt: &impl Print, path: &str, i: Instrument, file: &[u8]) -> io::Result<()> {
    let mut bytes = [BEFORE; ROOM];
    say_writing(rt, i, &mut bytes, ROOM, file, "same")?;
    let n = file.len();
    if n < 1 {
        return Ok(());
    }
    let wrong = spoiled(i);
    say_refused(rt, path, "one byte short", i, n - 1)?;
    say_refused(rt, path, "a place spoiled", wrong, ROOM)?;
    say_refused(rt, path, "both", wrong, n - 1)
}

// What a file's bytes are read as.
fn say_file(rt: &impl Print, path: &str, file: &[u8]) -> io::Result<()> {
    match instrument_file::read(file) {
        Ok(i) => {
            say_instrument(rt, i)?;
            print!(rt; ", ")?;
            say_again(rt, path, i, file)
        }
        Err(refusal) => say_refusal(rt, refusal),
    }
}

// An accepted file has at most 2,200 bytes, so that a file that fills the buffer is none. A file that cannot be opened is not there.
fn read_one(rt: &(impl Files + Print), path: &str) -> io::Result<()> {
    print!(rt; "{path}: ")?;
    match File::open(rt, path) {
        Ok(opened) => {
            let mut source = opened;
            let mut bytes = test_answers::blank::<65536>();
            let n = read_full(&mut source, &mut bytes)?;
            say_file(rt, path, &bytes[..n])
        }
        Err(_) => println!(rt; "not there"),
    }
}

// The files of std have names in UTF-8 alone.
fn read_named(rt: &(impl Files + Print), path: &[u8]) -> io::Result<()> {
    match str::from_utf8(path) {
        Ok(text) => read_one(rt, text),
        Err(_) => Err(io::Error::from(io::ErrorKind::InvalidInput)),
    }
}

// Whether there is an argument i. One that is too long for a path names no file.
fn read_argument(rt: &(impl Env + Files + Print), i: usize) -> io::Result<bool> {
    let mut path = [0u8; 4096];
    match rt.arg(i, &mut path) {
        Ok(n) => read_named(rt, &path[..n])?,
        Err(FillError::TooLong) => read_one(rt, "")?,
        Err(FillError::NotPresent) => return Ok(false),
    }
    Ok(true)
}

fn main(rt: HostRuntime) -> io::Result<()> {
    // the system has the arguments one by one, in no slice: they are counted
    for i in 1usize..usize::MAX {
        if !read_argument(&rt, i)? {
            break;
        }
    }
    Ok(())
}
