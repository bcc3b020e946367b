// Files that are read.
use crate::arguments::Failure;
use crate::kind;
use crate::message::CallError;
use crate::system::{Program, System};
use file_status::{FilePath, FileStatus, Stream, status_at, status_of, status_of_stream};
use std::fs::File;
use std::io;
use std::io::{Read, Seek, SeekFrom, Stdin};

// What is read: a file, or standard input.
#[derive(Drop)]
pub enum Source {
    Opened(File),
    Standard(Stdin),
}

// It reads as its file does, or as standard input.
impl Read for Source {
    fn read(&mut self, buf: &mut [u8]) -> io::Result<usize> {
        match self {
            Source::Opened(file) => file.read(buf),
            Source::Standard(stream) => stream.read(buf),
        }
    }
}

// A file has positions, standard input is read as it comes.
impl Seek for Source {
    fn seek(&mut self, to: SeekFrom) -> io::Result<u64> {
        match self {
            Source::Opened(file) => file.seek(to),
            Source::Standard(_) => Err(io::Error::from(io::ErrorKind::NotSeekable)),
        }
    }
}

// What is open for reading.
#[derive(Drop)]
pub struct Input {
    pub source: Source,
    pub file: Option<FileStatus>,
}

// What has been opened. A read of no bytes tells of one that cannot be read, and takes nothing.
fn of(
    program: &Program<'_, impl System>,
    path: &str,
    source: Source,
    file: Option<FileStatus>,
) -> Result<Input, Failure> {
    let mut source = source;
    match source.read(&mut []) {
        Ok(_) => Ok(Input { source, file }),
        Err(e) => Err(program.complain(path, CallError(e))),
    }
}

// Standard input.
pub fn standard(program: &Program<'_, impl System>) -> Result<Input, Failure> {
    let file = status_of_stream(program.rt, Stream::Input);
    let source = Source::Standard(program.rt.input());
    of(program, "standard input", source, file)
}

pub fn open<P: FilePath>(program: &Program<'_, impl System>, path: P) -> Result<Input, Failure> {
    let path = path.text();
    kind::check(program, path, status_at(program.rt, path))?;
    match File::open(program.rt, path) {
        Ok(opened) => {
            let file = status_of(&opened);
            of(program, path, Source::Opened(opened), file)
        }
        Err(e) => Err(program.complain(path, CallError(e))),
    }
}

// Reads until the file ends or the bytes are full; how many of them are read. (std's `read_exact` fails where the file ends before, and its `read_to_end` wants a heap.)
pub fn read_all<S: Read>(source: &mut S, bytes: &mut [u8]) -> io::Result<usize> {
    let mut done = 0usize;
    for _ in 0..u64::MAX {
        if bytes.len() <= done {
            break;
        }
        match source.read(&mut bytes[done..])? {
            0 => break,
            n => done += n,
        }
    }
    Ok(done)
}

// A place that no file reaches.
const BEYOND: u64 = 0x1000_0000_0000_0000;

// Fills the bytes from the file's byte `at` on. What has no positions is read on from where it stands.
pub fn read_at<S: Read + Seek>(source: &mut S, bytes: &mut [u8], at: u64) -> io::Result<()> {
    let _ = source.seek(SeekFrom::Start(at.min(BEYOND)));
    source.read_exact(bytes)
}
