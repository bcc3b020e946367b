// Files that are written. One that is there keeps its bytes until all inputs and outputs are known to be good; one that was made goes again where they are not.
use crate::arguments::Failure;
use crate::kind;
use crate::message::CallError;
use crate::system::{Program, System};
use file_status::{FilePath, FileStatus, Stream, status_at, status_of, status_of_stream};
use std::fs::{File, OpenOptions};
use std::io::Write;
use std::{fmt, fs, io};

// ---- what an output may not be

// A file that is read, and what it is, as "the taps".
#[derive(Clone, Copy)]
pub struct InUse {
    pub file: Option<FileStatus>,
    pub name: &'static str,
}

fn find_in(inputs: &[InUse], file: Option<FileStatus>) -> Option<InUse> {
    inputs
        .iter()
        .copied()
        .find(|used| kind::is_same(used.file, file))
}

// Neither answers nor messages may go into an input: a script would then be fed with its own answers. It is said on the other of the two.
pub fn check_streams(program: &Program<'_, impl System>, inputs: &[InUse]) -> Result<(), Failure> {
    let rt = program.rt;
    if find_in(inputs, status_of_stream(rt, Stream::Messages)).is_some() {
        let name = program.name;
        let _ = write!(
            rt.answers(),
            "{name}: standard error: it is an input, and an output may not be an input\n"
        );
        return Err(Failure::Wrong);
    }
    if find_in(inputs, status_of_stream(rt, Stream::Answers)).is_some() {
        return Err(program.complain(
            "standard output",
            "it is an input, and an output may not be an input",
        ));
    }
    Ok(())
}

// What an output may not be: an input, where answers go, which is said as "the report goes", or where messages go.
#[derive(Clone, Copy)]
enum Clash {
    Input(&'static str),
    Answers(&'static str),
    Messages,
}

impl fmt::Display for Clash {
    fn fmt<W: fmt::Write>(&self, f: &mut fmt::Formatter<W>) -> fmt::Result {
        match *self {
            Clash::Input(name) => write!(f, "it is {name}, and an output may not be an input"),
            Clash::Answers(words) => write!(
                f,
                "it is where {words}, and two outputs may not be one file"
            ),
            Clash::Messages => f.write_str(
                "it is where messages go, and two outputs may not be one file",
            ),
        }
    }
}

fn clash_of(
    rt: &impl System,
    file: Option<FileStatus>,
    inputs: &[InUse],
    answers: &'static str,
) -> Option<Clash> {
    if let Some(used) = find_in(inputs, file) {
        return Some(Clash::Input(used.name));
    }
    if kind::is_same(status_of_stream(rt, Stream::Answers), file) {
        return Some(Clash::Answers(answers));
    }
    if kind::is_same(status_of_stream(rt, Stream::Messages), file) {
        return Some(Clash::Messages);
    }
    None
}

// What the path names may be written where it is none of those. Nothing is opened.
pub fn check_apart<P: FilePath>(
    program: &Program<'_, impl System>,
    path: P,
    inputs: &[InUse],
    answers: &'static str,
) -> Result<(), Failure> {
    let path = path.text();
    let file = status_at(program.rt, path);
    kind::check(program, path, file)?;
    match clash_of(program.rt, file, inputs, answers) {
        Some(clash) => Err(program.complain(path, clash)),
        None => Ok(()),
    }
}

// ---- files that are open

// A file that is open for writing.
#[derive(Drop)]
pub struct Output {
    pub handle: File,
    pub is_made: bool,
    pub file: Option<FileStatus>,
}

// It takes bytes as its file does.
impl Write for Output {
    fn write(&mut self, buf: &[u8]) -> io::Result<usize> {
        self.handle.write(buf)
    }

    fn flush(&mut self) -> io::Result<()> {
        Ok(())
    }
}

impl Output {
    fn of(handle: File, is_made: bool) -> Output {
        let file = status_of(&handle);
        Output {
            handle,
            is_made,
            file,
        }
    }
}

// A file that is there, for reading and writing.
pub fn open_update<P: FilePath>(rt: &impl System, path: P) -> io::Result<File> {
    OpenOptions::new()
        .read(true)
        .write(true)
        .open(rt, path.text())
}

// A file that is not there yet.
pub fn create<P: FilePath>(rt: &impl System, path: P) -> io::Result<File> {
    OpenOptions::new()
        .write(true)
        .create_new(true)
        .open(rt, path.text())
}

// Makes the file. A name that is taken, though the system knows no file there, is a link.
fn make(program: &Program<'_, impl System>, path: &str) -> Result<Output, Failure> {
    match create(program.rt, path) {
        Ok(file) => Ok(Output::of(file, true)),
        Err(e) if e.kind() == io::ErrorKind::AlreadyExists => {
            Err(program.complain(path, "it is a link to a file that is not there"))
        }
        Err(e) => Err(program.complain(path, CallError(e))),
    }
}

// Opens the file as it is, or makes it where there is none.
pub fn open<P: FilePath>(program: &Program<'_, impl System>, path: P) -> Result<Output, Failure> {
    let path = path.text();
    if status_at(program.rt, path).is_none() {
        return make(program, path);
    }
    match open_update(program.rt, path) {
        Ok(file) => Ok(Output::of(file, false)),
        Err(e) => Err(program.complain(path, CallError(e))),
    }
}

// Closes the file, and takes away what was made.
pub fn withdraw<P: FilePath>(rt: &impl System, path: P, out: Output) {
    if out.is_made {
        let _ = fs::remove_file(rt, path.text());
    }
}

// A regular file is cut to its first bytes; others have no length.
pub fn cut(out: &Output, size: u64) -> io::Result<()> {
    match out.file {
        Some(file) if file.is_regular() => out.handle.set_len(size),
        _ => Ok(()),
    }
}

// A write that did not take all of its bytes: how many went out, and why no more did.
#[derive(Clone, Copy)]
pub struct Unfinished {
    pub count: usize,
    pub error: io::Error,
}

impl Unfinished {
    // Of a write that came after others.
    pub(crate) fn behind(self, done: usize) -> Unfinished {
        Unfinished {
            count: done.saturating_add(self.count),
            error: self.error,
        }
    }
}

// A write that takes nothing and tells of no error counts as a failure of the device. (std's `write_all` does not say how many bytes went out.)
pub fn write<W: Write>(to: &mut W, bytes: &[u8]) -> Result<(), Unfinished> {
    let mut done = 0usize;
    for _ in 0..u64::MAX {
        if bytes.len() <= done {
            return Ok(());
        }
        match to.write(&bytes[done..]) {
            Ok(0) => break,
            Ok(n) => done += n,
            Err(error) => return Err(Unfinished { count: done, error }),
        }
    }
    let error = io::Error::from(io::ErrorKind::WriteZero);
    Err(Unfinished { count: done, error })
}
