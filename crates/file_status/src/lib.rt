// What the system knows of a file, and a clock that no one sets. No public function has a `requires`.
#![tactic(auto)]

ghost use Rattle.std.specs.Prelude.{◌≡◌, ◌↔◌, IsTrue};
ghost use Rattle.file_status.specs.declared.kind.FileKind.TheVariants.{Regular};

mod clock;
mod kind;

pub use clock::monotonic_seconds;
pub use kind::FileKind;
use std::fs;
use std::fs::{File, Metadata};
use std::os::unix::fs::MetadataExt;
use std::rt::Files;

// What the system knows of a file. Two names stand for one file where device and inode are the same. The functions below give None where the system could not be asked, or knows no such file.
#[derive(Clone, Copy)]
pub struct FileStatus {
    pub kind: FileKind,
    pub device: u64,
    pub inode: u64,
    // what its owner, its group and the others may do with it: nine bits
    pub permissions: u32,
    pub owner: u32,
    pub group: u32,
    pub size: u64,
}

impl FileStatus {
    pub fn is_regular(self) -> bool
        ensures { IsTrue result ↔ (self.kind ≡ Regular) }
    {
        self.kind == FileKind::Regular
    }
}

impl From<Metadata> for FileStatus {
    fn from(found: Metadata) -> FileStatus {
        FileStatus {
            kind: FileKind::from(found.file_type()),
            device: found.dev(),
            inode: found.ino(),
            permissions: found.mode() % 0o1000,
            owner: found.uid(),
            group: found.gid(),
            size: found.len(),
        }
    }
}

// The standard streams: what is read, where answers go, and where messages go.
#[derive(Clone, Copy)]
pub enum Stream {
    Input,
    Answers,
    Messages,
}

impl Stream {
    fn path(self) -> &'static str {
        match self {
            Stream::Input => "/proc/self/fd/0",
            Stream::Answers => "/proc/self/fd/1",
            Stream::Messages => "/proc/self/fd/2",
        }
    }
}

// The status of the file that is open.
pub fn status_of(file: &File) -> Option<FileStatus> {
    file.metadata().ok().map(FileStatus::from)
}

// The status of what a standard stream is open on. Linux has it under the stream's number, whatever became of the file's own name; where the stream is closed there is none.
pub fn status_of_stream(files: &impl Files, stream: Stream) -> Option<FileStatus> {
    status_at(files, stream.path())
}

// What names a file: text, or any bytes.
pub trait FilePath: Copy {
    fn text(&self) -> &str;
}

impl FilePath for &str {
    fn text(&self) -> &str {
        self
    }
}

impl FilePath for &[u8] {
    fn text(&self) -> &str {
        text_of(self)
    }
}

// Bytes as a path. Those that are no UTF-8 text are the empty path, which names no file.
pub fn text_of(path: &[u8]) -> &str {
    match str::from_utf8(path) {
        Ok(text) => text,
        Err(_) => "",
    }
}

// The status of the file at path. It follows links and opens nothing, so it does not wait at a FIFO. A path of 4,096 bytes or more, with a 0 byte in it, or that is no UTF-8 text, names no
// file.
pub fn status_at<P: FilePath>(files: &impl Files, path: P) -> Option<FileStatus> {
    fs::metadata(files, path.text()).ok().map(FileStatus::from)
}

// Whether the path names a symbolic link.
pub fn is_link<P: FilePath>(files: &impl Files, path: P) -> bool {
    fs::symlink_metadata(files, path.text()).is_ok_and(|found| found.is_symlink())
}
