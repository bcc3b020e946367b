// Lines on standard error: which program, which file or word, and what is wrong with it.
ghost use Rattle.std.specs.Prelude.{◌≡◌};
ghost use Rattle.program.specs.declared.arguments.Failure.TheVariants.{Wrong};

use crate::arguments::Failure;
use crate::system::{Program, System};
use std::fmt::{Display, InlineText};
use std::io::Write;
use std::{fmt, io};

// A piece of a line. Where standard error does not take it, there is nobody to tell, and the pieces behind it are tried all the same.
fn tell(rt: &impl System, bytes: &[u8]) {
    let _ = rt.messages().write_all(bytes);
}

// What a value shows, on its way out. Text is held as long as 512 bytes hold it: a value that shows no more than that is one piece.
#[derive(Drop)]
struct Shown<'a, R: System> {
    rt: &'a R,
    held: InlineText<512>,
}

impl<'a, R: System> Shown<'a, R> {
    fn let_go(&mut self) {
        tell(self.rt, self.held.as_str().as_bytes());
        self.held = InlineText::new();
    }
}

impl<'a, R: System> fmt::Write for Shown<'a, R> {
    fn write_str(&mut self, s: &str) -> fmt::Result {
        if 512 - self.held.as_str().len() < s.len() {
            self.let_go();
        }
        if 512 < s.len() {
            tell(self.rt, s.as_bytes());
            return Ok(());
        }
        fmt::Write::write_str(&mut self.held, s)
    }
}

// What a value shows, as a part of a line. The frame, with the text that is held, is there for no longer than that takes.
#[inline(never)]
fn tell_shown<D: Display + Drop>(rt: &impl System, value: D) {
    let mut shown = Shown {
        rt,
        held: InlineText::new(),
    };
    let _ = fmt::Write::write_fmt(&mut shown, format_args!("{value}"));
    shown.let_go();
}

impl<'a, R: System> Program<'a, R> {
    fn tell(&self, bytes: &[u8]) {
        tell(self.rt, bytes)
    }

    // A line's beginning: who speaks, and of what.
    fn tell_name(&self, what: &[u8]) {
        self.tell(self.name.as_bytes());
        self.tell(b": ");
        self.tell(what);
    }

    fn tell_line(&self, what: &[u8], words: &str) {
        self.tell_name(what);
        self.tell(b": ");
        self.tell(words.as_bytes());
        self.tell(b"\n");
    }

    // A line's end: what is wrong.
    fn tell_words<D: Display + Drop>(&self, words: D) -> Failure
        ensures { result ≡ Wrong }
    {
        self.tell(b": ");
        tell_shown(self.rt, words);
        self.tell(b"\n");
        Failure::Wrong
    }

    // What is wrong with a file or a word.
    pub fn complain<D: Display + Drop>(&self, what: &str, words: D) -> Failure
        ensures { result ≡ Wrong }
    {
        self.tell_name(what.as_bytes());
        self.tell_words(words)
    }

    // What is wrong with a line of a file.
    pub fn complain_at<D: Display + Drop>(&self, what: &str, line: u64, words: D) -> Failure
        ensures { result ≡ Wrong }
    {
        self.tell_name(what.as_bytes());
        self.tell(b": line ");
        tell_shown(self.rt, line);
        self.tell_words(words)
    }

    // Of a word of the command line, by itself, or by what it stands for where there is none to show: it is empty, or longer than any that is meant. Its bytes are shown as they are, which
    // may be no text.
    pub fn complain_of_word(&self, word: &[u8], what: &str, words: &str) -> Failure
        ensures { result ≡ Wrong }
    {
        if word.is_empty() {
            self.tell_line(what.as_bytes(), words);
        } else {
            self.tell_line(word, words);
        }
        Failure::Wrong
    }

    // The words that the command line was to have. The line is one piece where 256 bytes hold it.
    pub fn explain(&self, words: &str) -> Failure
        ensures { result ≡ Wrong }
    {
        let name = self.name;
        let mut line = InlineText::<256>::new();
        match fmt::Write::write_fmt(&mut line, format_args!("usage: {name} {words}\n")) {
            Ok(()) => self.tell(line.as_str().as_bytes()),
            Err(_) => {
                self.tell(b"usage: ");
                self.tell(name.as_bytes());
                self.tell(b" ");
                self.tell(words.as_bytes());
                self.tell(b"\n");
            }
        }
        Failure::Wrong
    }
}

// ---- the system's words

// An error of a call on a file by its name. It is shown in the system's own words, without its number.
#[derive(Clone, Copy)]
pub struct CallError(pub io::Error);

impl Display for CallError {
    fn fmt<W: fmt::Write>(&self, f: &mut fmt::Formatter<W>) -> fmt::Result {
        let said = InlineText::<256>::of(self.0);
        let said = said.as_str();
        match said.split_once(" (os error ") {
            Some((words, _)) => f.write_str(words),
            None => f.write_str(said),
        }
    }
}

// ---- words for an error of a read or a write

// The system's number for a descriptor that is closed, or not open for what was asked.
const NOT_OPEN: i32 = 9;

// The system's number for a device that failed.
const DEVICE_FAILED: i32 = 5;

// Whether the descriptor is closed, or not open for what was asked.
pub(crate) fn is_not_open(error: io::Error) -> bool {
    error.raw_os_error() == Some(NOT_OPEN)
}

// An error of a read or a write, which may lie behind other calls. One that the system has no number for counts as a failure of the device.
#[derive(Clone, Copy)]
pub struct TransferError(pub io::Error);

impl TransferError {
    // Linux's own numbers, since the library has no kind for some of them.
    fn words(self) -> &'static str {
        match self.0.raw_os_error() {
            None | Some(0) | Some(DEVICE_FAILED) => "the device failed",
            Some(NOT_OPEN) => "it is closed, or not open for this",
            Some(11) => "it is non-blocking, and was not ready",
            Some(21) => "it is a directory",
            Some(27) => "it would pass the largest file that is allowed",
            Some(28) => "no space is left on the device",
            Some(29) => "it has no positions, as a pipe or a terminal",
            Some(32) => "nobody reads it any more",
            Some(122) => "the disk quota is used up",
            Some(_) => "the system could not read or write it",
        }
    }
}

impl Display for TransferError {
    fn fmt<W: fmt::Write>(&self, f: &mut fmt::Formatter<W>) -> fmt::Result {
        f.write_str(self.words())
    }
}
