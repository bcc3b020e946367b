// How far the rehearsal is: the script's lines, the answers on their way out, and signs of life.
use crate::answers::Answers;
use program::system::{Program, System};
use std::io;
use std::io::Write;

// What a rehearsal failed at before the script's end: a read of the script's line `line`, or a write.
#[derive(Clone, Copy)]
pub enum Failed {
    Script { line: u64, error: io::Error },
    Answers(io::Error),
    Wave(io::Error),
    Forces(io::Error),
}

// `line` is the number of the script's line that comes next, `due` the second at which the next sign of life is.
#[derive(Drop)]
pub struct Progress<'a, R: System> {
    rt: &'a R,
    answers: Answers<'a, R>,
    pub is_shown: bool,
    pub line: u64,
    due: u64,
}

// In seconds of the clock on the wall.
const PATIENCE: u64 = 2;

fn wall_time(rt: &impl System) -> u64 {
    file_status::monotonic_seconds(rt).unwrap_or(0)
}

impl<'a, R: System> Progress<'a, R> {
    // No line is read yet. Where the script is shown, its lines stand before their answers.
    pub fn begun(rt: &'a R, is_shown: bool) -> Progress<'a, R> {
        Progress {
            rt,
            answers: Answers::new(rt),
            is_shown,
            line: 0,
            due: wall_time(rt).saturating_add(PATIENCE),
        }
    }

    // ---- answers

    // All answers so far go out, as before everything that can fail or wait.
    pub fn flush(&mut self) -> Result<(), Failed> {
        self.answers.flush().map_err(|e| Failed::Answers(e))
    }

    fn put_line(&mut self, mark: &[u8], line: &[u8]) -> io::Result<()> {
        if line.is_empty() {
            return Ok(());
        }
        self.answers.write_all(mark)?;
        self.answers.write_all(line)?;
        self.answers.write_all(b"\n")
    }

    // A line of answer, behind which the script's next line comes.
    pub fn say(&mut self, line: &str) -> Result<(), Failed> {
        self.line = self.line.wrapping_add(1);
        self.put_line(b"", line.as_bytes())
            .map_err(|e| Failed::Answers(e))
    }

    // A script that is shown stands in the answers: a remark as it is, a call behind a mark.
    pub fn show(&mut self, text: &[u8]) -> Result<(), Failed> {
        if !self.is_shown {
            return Ok(());
        }
        let mark: &[u8] = if text.starts_with(b"#") { b"" } else { b"> " };
        self.put_line(mark, text).map_err(|e| Failed::Answers(e))
    }

    // ---- signs of life

    // The next sign of life comes when work has gone on for a while from here.
    pub fn rest(&mut self) {
        self.due = wall_time(self.rt).saturating_add(PATIENCE);
    }

    // Where it is due: the answers so far, and a line on standard error.
    pub fn live(&mut self, position: u64) -> Result<(), Failed> {
        let time = wall_time(self.rt);
        if time < self.due {
            return Ok(());
        }
        let flushed = self.flush();
        let line = self.line;
        let _ = write!(
            self.rt.messages(),
            "rehearse: line {line}, position {position}\n"
        );
        self.due = time.saturating_add(PATIENCE);
        flushed
    }
}
