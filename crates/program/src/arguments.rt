// A program's arguments, and its status. A Rattle program itself always ends with 0: the shell commands start it with the first argument --status, and it writes its status, a digit, to
// the descriptor that they wait at.
ghost use Rattle.std.specs.Prelude.{◌≤◌, IfOk, length};

use crate::system::{Program, System};
use std::env::FillError;
use std::str;

// Why the work was not done: a file or the command line is wrong, which has been said, or an instrument is refused, which has been answered.
#[derive(Clone, Copy, PartialEq, Eq)]
pub enum Failure {
    Wrong,
    Refused,
}

// The status of a program that did its work is 0.
impl From<Failure> for u64 {
    fn from(failure: Failure) -> u64 {
        match failure {
            Failure::Wrong => 1,
            Failure::Refused => 2,
        }
    }
}

// The descriptor that the shell commands wait at.
const STATUS: i32 = 3;

// The arguments are `count`, from argument `first` on. Where somebody waits for the status, `awaited` is the descriptor that it goes to.
#[derive(Clone, Copy)]
pub struct Arguments {
    pub first: usize,
    pub count: usize,
    awaited: Option<i32>,
}

// Whether the command line has argument i.
fn is_given(rt: &impl System, i: usize) -> bool {
    let mut start = [0u8; 1];
    !matches!(rt.arg(i, &mut start), Err(FillError::NotPresent))
}

// The arguments behind the first ones.
fn behind(rt: &impl System, first: usize, awaited: Option<i32>) -> Arguments {
    let given = (first..usize::MAX).position(|i| !is_given(rt, i));
    Arguments {
        first,
        count: given.unwrap_or(usize::MAX),
        awaited,
    }
}

// Argument i, at the start of the bytes.
fn argument<'b>(rt: &impl System, i: usize, bytes: &'b mut [u8]) -> Result<&'b [u8], FillError>
    ensures { IfOk result (λ word. length word.now ≤ length bytes.old) }
{
    match rt.arg(i, bytes) {
        Ok(n) => Ok(&bytes[..n]),
        Err(e) => Err(e),
    }
}

pub fn given(rt: &impl System) -> Arguments {
    let mut bytes = [0u8; 16];
    match argument(rt, 1, &mut bytes) {
        Ok(b"--status") => behind(rt, 2, Some(STATUS)),
        _ => behind(rt, 1, None),
    }
}

// Where the status is awaited, it is written.
pub fn end(arguments: Arguments, outcome: Result<(), Failure>) {
    if let Some(descriptor) = arguments.awaited {
        io::print_decimal(descriptor, outcome.map_or_else(u64::from, |()| 0));
    }
}

impl Arguments {
    // The i-th of the arguments, counted from 0, at the start of the bytes. One that is missing, or longer than the bytes, is an empty word.
    pub fn word<'b>(self, rt: &impl System, i: usize, bytes: &'b mut [u8]) -> &'b [u8]
        ensures { length result.now ≤ length bytes.old }
    {
        match argument(rt, self.first.saturating_add(i), bytes) {
            Ok(word) => word,
            Err(_) => b"",
        }
    }

    // The same as a name of a file. One that is empty, too long for a path, or no UTF-8 text, as which alone a file can be named, is said by what it stands for.
    pub fn path<'b>(
        self,
        program: &Program<'_, impl System>,
        i: usize,
        what: &str,
        bytes: &'b mut [u8],
    ) -> Result<&'b str, Failure>
        ensures { IfOk result (λ name. length name.now ≤ length bytes.old) }
    {
        match argument(program.rt, self.first.saturating_add(i), bytes) {
            Ok(b"") | Err(FillError::NotPresent) => Err(program.complain(
                what,
                "the name is empty",
            )),
            Ok(name) => str::from_utf8(name).map_err(|_| program.complain(
                what,
                "the name is no UTF-8 text",
            )),
            Err(FillError::TooLong) => Err(program.complain(
                what,
                "the name is longer than 4,096 bytes",
            )),
        }
    }
}
