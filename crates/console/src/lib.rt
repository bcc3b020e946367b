// The program `rehearse` without its files: one line of a script is one call, answered by one line of text. A console holds the instrument, the session and how much of its memory
// it lends.
#![tactic(auto)]

mod calls;
pub mod parts;
mod replies;
pub mod script;

use energies::Energies;
use instrument::Instrument;
use refusal::Refusal;
pub use replies::Line;
use script::{Buffer, Command, Fault};
use session::{Answer, Outcome};
use session_record::Session;

// The longest play, and the trace that a script can have lent.
pub const LONGEST: u64 = 65536;

// The most scratch that a script can have lent.
const MOST_SCRATCH: u64 = 256;

// How many cells of each buffer a call gets. A trace of more cells than the program has is lent as all that it has: no part of a play is longer.
#[derive(Clone, Copy)]
pub struct Lent {
    pub scratch: usize,
    pub trace: usize,
    pub work: usize,
}

#[derive(Clone, Copy)]
pub struct Console {
    instrument: Instrument,
    pub session: Session,
    pub lent: Lent,
}

// All that the program has of work memory, and of room for samples and forces.
#[derive(Drop)]
pub struct Memory<'a> {
    pub work: &'a mut [f64],
    pub out: &'a mut [f64],
    pub trace: &'a mut [f64],
}

impl<'a> Memory<'a> {
    pub fn of<const W: usize, const N: usize>(
        work: &'a mut [f64; W],
        out: &'a mut [f64; N],
        trace: &'a mut [f64; N],
    ) -> Memory<'a> {
        Memory {
            work: &mut work[..],
            out: &mut out[..],
            trace: &mut trace[..],
        }
    }
}

// What a line is answered: nothing, that it is done, a call's answer, or what it asked to see.
#[derive(Clone, Copy)]
pub enum Reply {
    Skipped,
    Done,
    Called(Answer),
    Energies(Energies),
    State,
}

// Why a line is not answered so.
#[derive(Clone, Copy)]
pub enum Failure {
    Bad(Fault),
    Refused(Refusal),
}

impl From<Fault> for Failure {
    fn from(fault: Fault) -> Failure {
        Failure::Bad(fault)
    }
}

impl From<Refusal> for Failure {
    fn from(refusal: Refusal) -> Failure {
        Failure::Refused(refusal)
    }
}

// A line's reply, and how many samples and forces its call put into the memory.
#[derive(Clone, Copy)]
pub struct Turn {
    pub reply: Reply,
    pub samples: usize,
    pub forces: usize,
}

impl From<Reply> for Turn {
    fn from(reply: Reply) -> Turn {
        Turn {
            reply,
            samples: 0,
            forces: 0,
        }
    }
}

impl Console {
    // What an open leaves, and its answer. At the start are lent: the scratch cells that play and go ask for, all of the trace, all of
    // the work memory.
    fn begin(instrument: Instrument, work: &mut [f64]) -> (Console, Result<Answer, Refusal>) {
        let lent = Lent {
            scratch: session_record::scratch_cells(instrument),
            trace: LONGEST as usize,
            work: work.len(),
        };
        let Outcome { answer, session } = session::open(instrument, work);
        let console = Console {
            instrument,
            session,
            lent,
        };
        (console, answer)
    }

    pub fn open(instrument: Instrument, work: &mut [f64]) -> Result<Console, Refusal> {
        let (console, answer) = Console::begin(instrument, work);
        answer?;
        Ok(console)
    }

    // The same where the open may be refused: then each call that tests the record is.
    pub fn over(instrument: Instrument, work: &mut [f64]) -> Console {
        let (console, _) = Console::begin(instrument, work);
        console
    }

    pub fn position(&self) -> u64 {
        self.session.t
    }

    // What a call leaves of the session, and its answer.
    fn keep(&mut self, outcome: Outcome) -> Result<Answer, Refusal> {
        self.session = outcome.session;
        outcome.answer
    }

    // From here on so many cells of a buffer are lent, of which the program has `most`.
    fn lend(&mut self, buffer: Buffer, cells: u64, most: u64) -> Result<Reply, Fault> {
        if most < cells {
            return Err(Fault::TooLarge);
        }
        let cells = cells as usize;
        match buffer {
            Buffer::Scratch => self.lent.scratch = cells,
            Buffer::Trace => self.lent.trace = cells,
            Buffer::Work => self.lent.work = cells,
        }
        Ok(Reply::Done)
    }

    fn energies(&self, work: &[f64]) -> Result<Energies, Refusal> {
        let cells = self.lent.work.min(work.len());
        energies::key_energies(self.instrument, self.session, &work[..cells])
    }

    // One line's command. Where it fails nothing was played.
    pub fn answer(&mut self, command: Command, memory: &mut Memory<'_>) -> Result<Turn, Failure> {
        let reply = match command {
            Command::Blank => Reply::Skipped,
            Command::State => Reply::State,
            Command::Energies => Reply::Energies(self.energies(memory.work)?),
            Command::Lend { buffer, cells } => {
                let most = match buffer {
                    Buffer::Scratch => MOST_SCRATCH,
                    Buffer::Trace => LONGEST,
                    Buffer::Work => memory.work.len() as u64,
                };
                self.lend(buffer, cells, most)?
            }
            Command::Play(samples) => return self.play(samples, memory),
            Command::Cue => Reply::Called(self.cue(memory.work)?),
            Command::Go(position) => Reply::Called(self.go(position, memory.work)?),
            Command::Insert(timed) => Reply::Called(self.insert(timed, memory.work)?),
            Command::Remove(index) => Reply::Called(self.remove(index, memory.work)?),
        };
        Ok(Turn::from(reply))
    }
}
