// What kind of file the system has at a name.
use std::fs::FileType;
use std::os::unix::fs::FileTypeExt;

#[derive(Clone, Copy, PartialEq, Eq)]
pub enum FileKind {
    Regular,
    Directory,
    Fifo,
    Socket,
    BlockDevice,
    OtherDevice,
}

impl FileKind {
    // What is wrong with it where a regular file is wanted.
    pub fn words(self) -> &'static str {
        match self {
            FileKind::Regular => "it is a file",
            FileKind::Directory => "it is a directory",
            FileKind::Fifo => "it is a FIFO or a pipe, and a file is wanted",
            FileKind::Socket => "it is a socket, and a file is wanted",
            FileKind::BlockDevice => "it is a block device, and a file is wanted",
            FileKind::OtherDevice => "it is a device, and a file is wanted",
        }
    }
}

impl From<FileType> for FileKind {
    fn from(kind: FileType) -> FileKind {
        if kind.is_file() {
            FileKind::Regular
        } else if kind.is_dir() {
            FileKind::Directory
        } else if kind.is_fifo() {
            FileKind::Fifo
        } else if kind.is_socket() {
            FileKind::Socket
        } else if kind.is_block_device() {
            FileKind::BlockDevice
        } else {
            FileKind::OtherDevice
        }
    }
}
