// Which kinds of files programs read and write: regular files and character devices (as /dev/null) alone. The opening of a FIFO waits for its other end, and a block device holds somebody's
// disk.
use crate::arguments::Failure;
use crate::system::{Program, System};
use file_status::{FileKind, FileStatus};

// Whether two names or descriptors have the same regular file: what is written to one is then seen in the other.
pub fn is_same(a: Option<FileStatus>, b: Option<FileStatus>) -> bool {
    match (a, b) {
        (Some(a), Some(b)) => {
            a.is_regular() && b.is_regular() && a.device == b.device && a.inode == b.inode
        }
        _ => false,
    }
}

fn is_barred(kind: FileKind) -> bool {
    matches!(
        kind,
        FileKind::Directory | FileKind::Fifo | FileKind::Socket | FileKind::BlockDevice
    )
}

// A file that the system knows, and that is of no kind that programs read and write, is said to be so.
pub fn check(
    program: &Program<'_, impl System>,
    path: &str,
    file: Option<FileStatus>,
) -> Result<(), Failure> {
    match file {
        Some(file) if is_barred(file.kind) => Err(program.complain(path, file.kind.words())),
        _ => Ok(()),
    }
}
