// The standard streams. A file that is opened where one of them is closed takes its number, and would get what is written there: so a program opens nothing before it has asked.
use crate::arguments::Failure;
use crate::message::{TransferError, is_not_open};
use crate::system::{Program, System};
use std::fmt::{Display, InlineText};
use std::io;
use std::io::Write;
use std::os::fd::AsFd;

// A write of no bytes tells of a stream that is closed, or open for reading alone.
fn is_closed<W: Write>(stream: &mut W) -> bool {
    stream.write(b"").is_err_and(is_not_open)
}

// Answers and messages must be able to go out; else it is said on the one of the two that is open.
pub fn check_open(program: &Program<'_, impl System>) -> Result<(), Failure> {
    let rt = program.rt;
    let is_answering = !is_closed(&mut rt.answers());
    if is_closed(&mut rt.messages()) {
        if is_answering {
            let name = program.name;
            let _ = write!(rt.answers(), "{name}: standard error: it is closed\n");
        }
        return Err(Failure::Wrong);
    }
    if !is_answering {
        return Err(program.complain("standard output", "it is closed"));
    }
    Ok(())
}

impl<'a, R: System> Program<'a, R> {
    // A line of answer, in one write.
    pub fn answer<D: Display + Drop>(&self, line: D) -> io::Result<()> {
        let text = InlineText::<256>::of(format_args!("{line}\n"));
        self.rt.answers().write_all(text.as_str().as_bytes())
    }

    // The same; where standard output does not take it, it is told on standard error with what it is about.
    pub fn answer_of(&self, what: &str, line: &str) -> Result<(), Failure> {
        match self.answer(line) {
            Ok(()) => Ok(()),
            Err(e) => {
                self.complain("standard output", TransferError(e));
                Err(self.complain(what, line))
            }
        }
    }
}

// A second number for it can be had of any stream that is open.
fn is_there<F: AsFd>(stream: &F) -> bool {
    !stream.as_fd().try_clone_to_owned().is_err_and(is_not_open)
}

// Standard input must be open; else it is said.
pub fn check_input_open(program: &Program<'_, impl System>) -> Result<(), Failure> {
    if is_there(&program.rt.input()) {
        Ok(())
    } else {
        Err(program.complain("standard input", "it is closed"))
    }
}
