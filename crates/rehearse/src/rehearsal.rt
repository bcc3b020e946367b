// A script's lines, one after the other: each is read, called, answered, and what it played is written.
use crate::places::Places;
use crate::progress::{Failed, Progress};
use console::parts::Task;
use console::script::{Command, Fault, command_of};
use console::{Console, Failure, Line, Memory, Reply, Turn};
use instrument::Instrument;
use program::output::Output;
use program::system::System;
use program::wave::Wave;
use program::{floats, output, wave};
use session::Answer;
use std::io::Read;
use text::lines::{LineError, Reader};

// A play or a go of more samples goes in parts of as many.
const PART: u64 = 8192;

// `bytes` holds what is written of samples and forces.
#[derive(Drop)]
struct Rehearsal<'a, 'p, R: System, S: Read + Drop> {
    console: Console,
    progress: &'p mut Progress<'a, R>,
    reader: &'p mut Reader<65536>,
    source: S,
    wave: Wave,
    forces: Option<Output>,
    bytes: [u8; 16384],
}

impl<'a, 'p, R: System, S: Read + Drop> Rehearsal<'a, 'p, R, S> {
    // ---- what was played

    // The samples and forces of a play go into their files.
    fn store(&mut self, turn: Turn, memory: &Memory<'_>) -> Result<(), Failed> {
        if turn.samples == 0 {
            return Ok(());
        }
        let n = turn.samples.min(memory.out.len());
        let stored = self
            .wave
            .append(&memory.out[..n], &mut self.bytes)
            .map_err(|e| Failed::Wave(e));
        let n = turn.forces.min(memory.trace.len());
        stored.and(self.store_forces(&memory.trace[..n]))
    }

    fn store_forces(&mut self, forces: &[f64]) -> Result<(), Failed> {
        match &mut self.forces {
            Some(file) => floats::write_floats(file, forces, &mut self.bytes).map_err(
                |unfinished| Failed::Forces(unfinished.error),
            ),
            None => Ok(()),
        }
    }

    // ---- one line

    fn say(&mut self, reply: Result<Reply, Failure>) -> Result<(), Failed> {
        let line = self.console.line_of(self.progress.line, reply);
        self.progress.say(line.as_str())
    }

    // A line's call, in parts. Its answer comes behind the last part, also where a write has failed on the way: nothing is stored then, and the first failure stays.
    fn call(&mut self, command: Command, memory: &mut Memory<'_>) -> Result<(), Failed> {
        let mut outcome = Ok(());
        let mut task = Task::new(command);
        for _ in 0..u64::MAX {
            let part = task.next_part(&self.console, PART);
            let called = self.console.answer(part, memory);
            let turn = match called {
                Ok(turn) => turn,
                Err(failure) => return outcome.and(self.say(Err(failure))),
            };
            if outcome.is_ok() {
                outcome = self.store(turn, memory);
            }
            let Some(rest) = task.after(part, turn) else {
                return outcome.and(self.say(Ok(task.totalled(turn.reply))));
            };
            outcome = outcome.and(self.progress.live(self.console.position()));
            task = rest;
        }
        outcome
    }

    // The script's next line, or None at its end.
    fn ask(&mut self) -> Result<Option<Result<Command, Fault>>, Failed> {
        match self.reader.next_line(&mut self.source) {
            Ok(Some(text)) => {
                self.progress.show(text)?;
                Ok(Some(command_of(text)))
            }
            Ok(None) => Ok(None),
            Err(LineError::TooLong) => Ok(Some(Err(Fault::LineTooLong))),
            Err(LineError::Failed(error)) => Err(Failed::Script {
                line: self.progress.line,
                error,
            }),
        }
    }

    // The same. A read may wait or fail, so all answers are out before it; time that goes by in waiting is no work. Where they cannot be written the line is read all the same,
    // and thrown away. A script that is shown is the program's own, and no read of it waits.
    fn next_line(&mut self) -> Result<Option<Result<Command, Fault>>, Failed> {
        let lived = self.progress.live(self.console.position());
        if self.progress.is_shown || !self.reader.is_waiting() {
            lived?;
            return self.ask();
        }
        let flushed = lived.and(self.progress.flush());
        let line = self.ask();
        self.progress.rest();
        flushed?;
        line
    }

    // A play that the WAV's header cannot count is a bad line; one of more samples than any is a bad line of its own.
    fn check_room(&self, samples: u64) -> Result<(), Fault> {
        let is_long = console::LONGEST < samples;
        if !is_long && wav::MOST_SAMPLES < self.wave.samples.wrapping_add(samples) {
            return Err(Fault::WaveFull);
        }
        Ok(())
    }

    // Answers are out before a play's samples are written, which can fail.
    fn play(&mut self, samples: u64, memory: &mut Memory<'_>) -> Result<(), Failed> {
        match self.check_room(samples) {
            Ok(()) => {
                self.progress.flush()?;
                self.call(Command::Play(samples), memory)
            }
            Err(fault) => self.say(Err(Failure::Bad(fault))),
        }
    }

    fn rehearse(&mut self, memory: &mut Memory<'_>) -> Result<(), Failed> {
        for _ in 0..u64::MAX {
            match self.next_line()? {
                None => break,
                Some(Ok(Command::Play(samples))) => self.play(samples, memory)?,
                Some(Ok(command)) => self.call(command, memory)?,
                Some(Err(fault)) => self.say(Err(Failure::Bad(fault)))?,
            }
        }
        Ok(())
    }
}

// ---- the whole script

// The samples' file is emptied, and its header written; forces are emptied too where that failed.
fn begin_files(places: Places, rate: u64) -> Result<(Wave, Option<Output>), Failed> {
    let Places { wave, forces } = places;
    let begun = wave::begin(wave, rate).map_err(|e| Failed::Wave(e));
    let emptied = match &forces {
        Some(file) => output::cut(file, 0).map_err(|e| Failed::Forces(e)),
        None => Ok(()),
    };
    let wave = begun?;
    emptied?;
    Ok((wave, forces))
}

pub fn rate_of(instrument: Instrument) -> u64 {
    float::round_away(instrument.common.fs)
}

// The program's memory: document 01's largest instrument has five parts of 132,384 cells. The opening's line comes first, then the script's; all answers are out at the end.
#[inline(never)]
pub fn play_script<'a, R: System, S: Read + Drop>(
    rt: &'a R,
    instrument: Instrument,
    reader: &'a mut Reader<65536>,
    source: S,
    is_shown: bool,
    places: Places,
) -> Result<(), Failed> {
    let mut work = [0.0; 662000];
    let mut out = [0.0; 8192];
    let mut trace = [0.0; 8192];
    let mut memory = Memory::of(&mut work, &mut out, &mut trace);
    let mut progress = Progress::begun(rt, is_shown);
    let opened = Console::open(instrument, memory.work);
    let line = match &opened {
        Ok(console) => console.line_of(0, Ok(Reply::Called(Answer::Opened))),
        Err(refusal) => Line::of(*refusal),
    };
    progress.say(line.as_str())?;
    progress.flush()?;
    let Ok(console) = opened else {
        return Ok(());
    };
    let (wave, forces) = begin_files(places, rate_of(instrument))?;
    let mut rehearsal = Rehearsal {
        console,
        progress: &mut progress,
        reader,
        source,
        wave,
        forces,
        bytes: [0; 16384],
    };
    let rehearsed = rehearsal.rehearse(&mut memory);
    // Where the last answers cannot be written, nobody is told.
    let _ = rehearsal.progress.flush();
    rehearsed
}
