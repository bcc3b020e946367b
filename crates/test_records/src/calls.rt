// Every call on a record: the number that it gives, and whether it changed a cell though it was refused.
use instrument::Instrument;
use refusal::Refusal;
use score::{Event, TimedEvent};
use session_record::Session;
use std::io;
use test_answers::digest;

#[derive(Clone, Copy)]
enum Call {
    Energies,
    Play,
    Cue,
    Go,
    Insert,
    Remove,
}

const CALLS: [Call; 6] = [
    Call::Energies,
    Call::Play,
    Call::Cue,
    Call::Go,
    Call::Insert,
    Call::Remove,
];

impl Call {
    fn name(self) -> &'static str {
        match self {
            Call::Energies => "energies",
            Call::Play => "play",
            Call::Cue => "cue",
            Call::Go => "go",
            Call::Insert => "insert",
            Call::Remove => "remove",
        }
    }
}

// The refusal's number, 0 for none.
fn number_of<T: Drop>(answer: Result<T, Refusal>) -> u32 {
    match answer {
        Ok(_) => 0,
        Err(refusal) => refusal.number(),
    }
}

fn say_changed(rt: &impl Print, before: u64, after: u64, what: &str) -> io::Result<()> {
    if before != after {
        print!(rt; "{what}")?;
    }
    Ok(())
}

// A refused call leaves every cell of output and trace too.
fn say_played(rt: &impl Print, number: u32, out: &[f64; 4], trace: &[f64; 4]) -> io::Result<()> {
    if number == 0 {
        return Ok(());
    }
    let untouched = digest(&[0.5; 4]);
    say_changed(rt, untouched, digest(out), "(output changed) ")?;
    say_changed(rt, untouched, digest(trace), "(trace changed) ")
}

fn play(
    rt: &impl Print,
    instrument: Instrument,
    session: Session,
    work: &mut [f64],
    scratch: &mut [f64],
) -> io::Result<u32> {
    let mut out = [0.5; 4];
    let mut trace = [0.5; 4];
    let outcome = session::play(instrument, session, work, scratch, &mut out, &mut trace);
    let number = number_of(outcome.answer);
    say_played(rt, number, &out, &trace)?;
    Ok(number)
}

// What it gives on the record, with the memory that is lent.
fn number_given(
    rt: &impl Print,
    call: Call,
    instrument: Instrument,
    session: Session,
    work: &mut [f64],
    scratch: &mut [f64],
) -> io::Result<u32> {
    let pedal = TimedEvent {
        position: 2,
        event: Event::Pedal(true),
    };
    Ok(match call {
        Call::Energies => number_of(energies::key_energies(instrument, session, work)),
        Call::Play => play(rt, instrument, session, work, scratch)?,
        Call::Cue => number_of(session::cue(instrument, session, work).answer),
        Call::Go => number_of(session::go(instrument, session, work, scratch, 3).answer),
        Call::Insert => number_of(session::insert(instrument, session, work, pedal).answer),
        Call::Remove => number_of(session::remove(instrument, session, work, 0).answer),
    })
}

// The memory that a call is lent, by its digests.
#[derive(Clone, Copy)]
struct Memory {
    work: u64,
    scratch: u64,
}

fn memory_of(work: &[f64], scratch: &[f64]) -> Memory {
    Memory {
        work: digest(work),
        scratch: digest(scratch),
    }
}

// A refused call leaves every cell.
fn say_number(rt: &impl Print, number: u32, before: Memory, after: Memory) -> io::Result<()> {
    print!(rt; "{number}")?;
    if number == 0 {
        return Ok(());
    }
    say_changed(rt, before.work, after.work, " (changed)")?;
    say_changed(rt, before.scratch, after.scratch, " (scratch changed)")
}

// Every call gets the same session, and the memory that the others left.
fn try_in(
    rt: &impl Print,
    instrument: Instrument,
    session: Session,
    work: &mut [f64],
    scratch: &mut [f64],
) -> io::Result<()> {
    for each in CALLS {
        print!(rt; " {} ", each.name())?;
        let before = memory_of(work, scratch);
        let number = number_given(rt, each, instrument, session, work, scratch)?;
        say_number(rt, number, before, memory_of(work, scratch))?;
    }
    Ok(())
}

pub fn try_calls(
    rt: &impl Print,
    instrument: Instrument,
    session: Session,
    lent: u64,
) -> io::Result<()> {
    let mut work = [0.25; 25310];
    let mut scratch = [0.25; 22];
    let s = lent.min(22) as usize;
    try_in(rt, instrument, session, &mut work, &mut scratch[..s])
}
