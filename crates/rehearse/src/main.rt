// `rehearse [INSTRUMENT SCRIPT OUT.wav [FORCES]]`: plays a script's calls on an instrument, answers each by a line, and writes what was played. All that matters is in the
// library; this holds the memory that it lends, and the files.
#![tactic(auto)]

mod answers;
mod places;
mod progress;
mod rehearsal;

use program::arguments::{Arguments, Failure};
use program::input::Input;
use program::message::TransferError;
use program::output::InUse;
use program::system::{Program, System};
use program::{arguments, input, output, streams};
use progress::Failed;
use text::lines::Reader;

// What the script and the outputs are called.
#[derive(Clone, Copy)]
struct Names<'a> {
    script: &'a str,
    wave: &'a str,
    forces: Option<&'a str>,
}

impl<'a> Names<'a> {
    fn of(script: &'a str, wave: &'a str, forces: Option<&'a str>) -> Names<'a> {
        Names {
            script,
            wave,
            forces,
        }
    }
}

// What failed, by its name.
fn tell(program: &Program<'_, impl System>, names: Names<'_>, failed: Failed) -> Failure {
    match failed {
        Failed::Script { line, error } => {
            program.complain_at(names.script, line, TransferError(error))
        }
        Failed::Answers(error) => program.complain("standard output", TransferError(error)),
        Failed::Wave(error) => program.complain(names.wave, TransferError(error)),
        Failed::Forces(error) => {
            program.complain(names.forces.unwrap_or(""), TransferError(error))
        }
    }
}

// ---- what the program has inside

// Nobody named this file.
const WAVE: &str = "rehearsal.wav";

// Whether a file that is there may go: it is empty, or begins as this program's WAVs do (all that stands before their number of samples).
fn is_own(program: &Program<'_, impl System>, rate: u64) -> bool {
    let Ok(mut opened) = input::open(program, WAVE) else {
        return false;
    };
    let mut bytes = [0u8; 46];
    let header = wav::header(rate, 0);
    match input::read_all(&mut opened.source, &mut bytes) {
        Ok(0) => true,
        Ok(_) => bytes[..4] == header[..4] && bytes[8..] == header[8..46],
        Err(_) => false,
    }
}

fn check_own(program: &Program<'_, impl System>, rate: u64) -> Result<(), Failure> {
    match file_status::status_at(program.rt, WAVE) {
        Some(file) if file.is_regular() && !is_own(program, rate) => Err(program.complain(
            WAVE,
            "it is there, and not by this program; it is left as it is",
        )),
        _ => Ok(()),
    }
}

// No file is read, so only answers and messages are in use. Its frame, with its reader, stays apart from that of a rehearsal of files.
#[inline(never)]
fn rehearse_embedded(program: &Program<'_, impl System>) -> Result<(), Failure> {
    let instrument = instrument_input::accept(program, "the instrument", embedded::instrument())?;
    check_own(program, rehearsal::rate_of(instrument))?;
    let names = Names {
        script: "the script",
        wave: WAVE,
        forces: None,
    };
    let places = places::open_places(program, names.wave, names.forces, &[])?;
    let mut reader = Reader::new();
    let played = rehearsal::play_script(
        program.rt,
        instrument,
        &mut reader,
        embedded::script(),
        true,
        places,
    );
    played.map_err(|failed| tell(program, names, failed))
}

// ---- the files that are named

// The inputs are opened first, then what is written.
fn rehearse_on(
    program: &Program<'_, impl System>,
    instrument: &str,
    names: Names<'_>,
) -> Result<(), Failure> {
    let loaded = instrument_input::load(program, instrument)?;
    let Input { source, file } = places::open_script(program, names.script)?;
    let inputs = [
        InUse {
            file: loaded.file,
            name: "the instrument",
        },
        InUse {
            file,
            name: "the script",
        },
    ];
    output::check_streams(program, &inputs)?;
    let places = places::open_places(program, names.wave, names.forces, &inputs)?;
    let mut reader = Reader::new();
    let played = rehearsal::play_script(
        program.rt,
        loaded.instrument,
        &mut reader,
        source,
        false,
        places,
    );
    let mut names = names;
    if places::is_standard_input(names.script) {
        names.script = "standard input";
    }
    played.map_err(|failed| tell(program, names, failed))
}

// FORCES, where it is given.
fn forces_of<'b>(
    program: &Program<'_, impl System>,
    given: Arguments,
    bytes: &'b mut [u8],
) -> Result<Option<&'b str>, Failure> {
    if given.count < 4 {
        return Ok(None);
    }
    let path = given.path(program, 3, "FORCES", bytes)?;
    Ok(Some(path))
}

// The frame with the four names stays apart from that of the phrase.
#[inline(never)]
fn rehearse_files(program: &Program<'_, impl System>, given: Arguments) -> Result<(), Failure> {
    let mut instrument = [0u8; 4096];
    let instrument = given.path(program, 0, "INSTRUMENT", &mut instrument)?;
    let mut script = [0u8; 4096];
    let script = given.path(program, 1, "SCRIPT", &mut script)?;
    let mut wave = [0u8; 4096];
    let wave = given.path(program, 2, "OUT.wav", &mut wave)?;
    let mut forces = [0u8; 4096];
    let forces = forces_of(program, given, &mut forces)?;
    rehearse_on(program, instrument, Names::of(script, wave, forces))
}

// ---- the command line

fn run(program: &Program<'_, impl System>, given: Arguments) -> Result<(), Failure> {
    streams::check_open(program)?;
    match given.count {
        0 => rehearse_embedded(program),
        3 | 4 => rehearse_files(program, given),
        _ => Err(program.explain("[INSTRUMENT SCRIPT OUT.wav [FORCES]]")),
    }
}

fn main(rt: HostRuntime) {
    let program = Program {
        rt: &rt,
        name: "rehearse",
    };
    let given = arguments::given(&rt);
    arguments::end(given, run(&program, given));
}
