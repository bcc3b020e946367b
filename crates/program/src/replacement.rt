// A file that is put in its place whole. The bytes go into a file beside it, under a name that nobody has, which then takes the place by a rename: whatever ends the program, the
// path has the file that was there or all of the new bytes.
use crate::arguments::Failure;
use crate::message::{CallError, TransferError};
use crate::output::{InUse, check_apart, create, open_update};
use crate::system::{Program, System};
use file_status::{FilePath, FileStatus, is_link, status_at, status_of};
use std::fmt::InlineText;
use std::fs::{File, Permissions};
use std::io::Write;
use std::os::unix::fs::{PermissionsExt, fchown};
use std::{fmt, fs, io};

// ---- whether a file may be replaced

// The path must name a regular file that may be written, or nothing, and none of those in use. Nothing is made. A rename needs no right to the file that goes; every other output needs it, and
// so does this one.
pub fn check<P: FilePath>(
    program: &Program<'_, impl System>,
    path: P,
    inputs: &[InUse],
    answers: &'static str,
) -> Result<(), Failure> {
    let path = path.text();
    check_apart(program, path, inputs, answers)?;
    if is_link(program.rt, path) {
        return Err(program.complain(
            path,
            "it is a symbolic link, and a file is wanted: name the one that it leads to",
        ));
    }
    let Some(file) = status_at(program.rt, path) else {
        return Ok(());
    };
    if !file.is_regular() {
        return Err(program.complain(path, file.kind.words()));
    }
    match open_update(program.rt, path) {
        Ok(_) => Ok(()),
        Err(e) => Err(program.complain(path, CallError(e))),
    }
}

// ---- why a file was not replaced

#[derive(Clone, Copy)]
enum ReplaceError {
    NoneFree,
    NotAdopted,
    Write(io::Error),
    Call(io::Error),
}

impl fmt::Display for ReplaceError {
    fn fmt<W: fmt::Write>(&self, f: &mut fmt::Formatter<W>) -> fmt::Result {
        match *self {
            ReplaceError::NoneFree => f.write_str("no name is free for a temporary file beside it"),
            ReplaceError::NotAdopted => f.write_str(
                "its owner, group and permissions cannot be kept",
            ),
            ReplaceError::Write(e) => write!(f, "{}", TransferError(e)),
            ReplaceError::Call(e) => write!(f, "{}", CallError(e)),
        }
    }
}

// ---- the file beside it

// How many names are tried; they are numbered from as many on.
const NAMES: u64 = 1000;

// The longest path: the system's 4,096 bytes count the 0 behind it.
const LONGEST_PATH: usize = 4095;

type PathText = InlineText<4095>;

// The path up to its last name.
fn folder_of(path: &str) -> &str {
    match path.rfind('/') {
        Some(slash) => &path[..slash + 1],
        None => "",
    }
}

// Puts the name `.PROGRAM-NUMBER` behind the folder's path. Every system takes a name of its length, and where a path has no room for all of it, its last bytes are the name: it fits where
// any other does.
fn put_name(text: &mut PathText, folder: &str, program: &str, number: u64) {
    let name = InlineText::<64>::of(format_args!(".{program}-{number}"));
    let name = name.as_str();
    let room = LONGEST_PATH.saturating_sub(folder.len());
    let skipped = name.len().saturating_sub(room);
    let name = name.get(skipped..).unwrap_or("");
    *text = PathText::new();
    let _ = fmt::Write::write_str(text, folder);
    let _ = fmt::Write::write_str(text, name);
}

// Makes a file in the path's folder, and puts its name into the lent text. A name that is taken, or is the path's own, is passed over.
fn make_beside(
    program: &Program<'_, impl System>,
    path: &str,
    text: &mut PathText,
) -> Result<File, ReplaceError> {
    let folder = folder_of(path);
    if LONGEST_PATH < folder.len() {
        return Err(ReplaceError::NoneFree);
    }
    for number in NAMES..2 * NAMES {
        put_name(text, folder, program.name, number);
        if text.as_str() != path {
            match create(program.rt, text.as_str()) {
                Ok(file) => return Ok(file),
                Err(e) if e.kind() == io::ErrorKind::AlreadyExists => {}
                Err(e) => return Err(ReplaceError::Call(e)),
            }
        }
    }
    Err(ReplaceError::NoneFree)
}

// ---- what goes into it

// Gives the new file the owner, the group and the permissions of the one that it is to replace. What it has already is not asked for, since some disks know one owner alone.
fn adopt(to: &File, file: FileStatus) -> io::Result<()> {
    let own = status_of(to);
    if !own.is_some_and(|own| own.owner == file.owner && own.group == file.group) {
        fchown(to, Some(file.owner), Some(file.group))?;
    }
    if own.is_some_and(|own| own.permissions == file.permissions) {
        return Ok(());
    }
    to.set_permissions(Permissions::from_mode(file.permissions))
}

// The permissions come before the bytes: what few may read does not lie there for all.
fn fill(to: &mut File, replaced: Option<FileStatus>, bytes: &[u8]) -> Result<(), ReplaceError> {
    if let Some(file) = replaced {
        adopt(to, file).map_err(|_| ReplaceError::NotAdopted)?;
    }
    to.write_all(bytes).map_err(ReplaceError::Write)?;
    to.sync_all().map_err(ReplaceError::Call)
}

// ---- the whole

// The new file filled, closed and then renamed.
fn put_in_place(
    rt: &impl System,
    name: &str,
    path: &str,
    to: File,
    bytes: &[u8],
) -> Result<(), ReplaceError> {
    let mut to = to;
    fill(&mut to, status_at(rt, path), bytes)?;
    drop(to);
    fs::rename(rt, name, path).map_err(ReplaceError::Call)
}

// The bytes as the file at the path; where it fails it has been said, what was there stays, and nothing is left beside it.
pub fn replace<P: FilePath>(
    program: &Program<'_, impl System>,
    path: P,
    bytes: &[u8],
) -> Result<(), Failure> {
    let path = path.text();
    let mut text = PathText::new();
    let to = make_beside(program, path, &mut text).map_err(|e| program.complain(path, e))?;
    let name = text.as_str();
    put_in_place(program.rt, name, path, to, bytes).map_err(|e| {
        // it is said before the file beside it goes
        let failure = program.complain(path, e);
        let _ = fs::remove_file(program.rt, name);
        failure
    })
}
