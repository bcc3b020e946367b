// The list that is replayed, and the verdicts on all so far.
use crate::stored::{Stored, are_sums, is_answer, read_bytes, stored_in};
use crate::sums::sum_of;
use console::script::command_of;
use console::{Console, Failure, Line, Memory, Reply, Turn};
use instrument::Instrument;
use instrument_fields::{no_common, no_key, no_string};
use refusal::Refusal;
use session::Answer;

#[derive(Clone, Copy, Default)]
pub struct Tally {
    pub lists: u64,
    pub answers: u64,
    pub samples: u64,
    pub forces: u64,
    pub differ: u64,
    pub unreadable: u64,
}

// `line` numbers the script's next line; the last answer has a text, and so many samples and forces.
#[derive(Drop)]
pub struct Replay<'a> {
    memory: Memory<'a>,
    console: Console,
    line: u64,
    text: Line,
    samples: usize,
    forces: usize,
    tally: Tally,
}

// What stands where a file is refused: each call on it is refused too.
fn no_instrument() -> Instrument {
    Instrument {
        common: no_common(),
        key_count: 0,
        string_count: 0,
        keys: [no_key(); 16],
        strings: [no_string(); 32],
    }
}

fn call(console: &mut Console, line: &[u8], memory: &mut Memory<'_>) -> Result<Turn, Failure> {
    console.answer(command_of(line)?, memory)
}

impl<'a> Replay<'a> {
    // No file is read yet, as if an empty one were refused.
    pub fn new(memory: Memory<'a>) -> Replay<'a> {
        let console = Console::over(no_instrument(), memory.work);
        Replay {
            memory,
            console,
            line: 1,
            text: Line::of(Refusal::SectionCount),
            samples: 0,
            forces: 0,
            tally: Tally::default(),
        }
    }

    pub fn tally(&self) -> Tally {
        self.tally
    }

    // A new list: its instrument's file, read and opened.
    fn open(&mut self, digits: &[u8]) {
        let mut file = [0u8; 4096];
        let n = read_bytes(digits, &mut file);
        let read = instrument_file::read(&file[..n]);
        self.console = Console::over(read.unwrap_or(no_instrument()), self.memory.work);
        self.text = match read {
            Ok(_) => self.console.line_of(0, Ok(Reply::Called(Answer::Opened))),
            Err(refusal) => Line::of(refusal),
        };
        self.line = 1;
        self.samples = 0;
        self.forces = 0;
        self.tally.lists = self.tally.lists.wrapping_add(1);
    }

    fn call(&mut self, line: &[u8]) {
        let turn = call(&mut self.console, line, &mut self.memory);
        self.text = self.console.line_of(self.line, turn.map(|turn| turn.reply));
        self.line = self.line.wrapping_add(1);
        self.samples = turn.map_or(0, |turn| turn.samples);
        self.forces = turn.map_or(0, |turn| turn.forces);
    }

    fn judge(&mut self, is_same: bool) {
        if !is_same {
            self.tally.differ = self.tally.differ.wrapping_add(1);
        }
    }

    fn judge_answer(&mut self, stored: &[u8]) {
        let text = self.text.as_str();
        let is_same = is_answer(text.as_bytes(), stored);
        self.judge(is_same);
        self.tally.answers = self.tally.answers.wrapping_add(1);
    }

    // The sums of the last answer's samples and forces.
    fn judge_sums(&mut self, stored: &[u8]) {
        let samples = self.samples.min(self.memory.out.len());
        let forces = self.forces.min(self.memory.trace.len());
        let is_same = are_sums(
            stored,
            sum_of(&self.memory.out[..samples]),
            sum_of(&self.memory.trace[..forces]),
        );
        self.judge(is_same);
        self.tally.samples = self.tally.samples.wrapping_add(samples as u64);
        self.tally.forces = self.tally.forces.wrapping_add(forces as u64);
    }

    // The next stored line.
    pub fn take(&mut self, line: &[u8]) {
        match stored_in(line) {
            Stored::Instrument(digits) => self.open(digits),
            Stored::Line(line) => self.call(line),
            Stored::Answer(stored) => self.judge_answer(stored),
            Stored::Sums(stored) => self.judge_sums(stored),
            Stored::Other => self.skip(),
        }
    }

    // A stored line that cannot be read.
    fn skip(&mut self) {
        self.tally.unreadable = self.tally.unreadable.wrapping_add(1);
    }
}
