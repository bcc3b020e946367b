// `adjust INSTRUMENT OUT [KEY WEIGHT]..`: sets the weights of those keys, and writes the instrument with the proved writer. OUT appears whole or not at all, so that it may be INSTRUMENT
// itself. It answers one line, `ok LENGTH` or `refused N: ..`, or tells on standard error what is wrong with which word or file.
#![tactic(auto)]

mod pairs;

use instrument::Instrument;
use instrument_writer::LONGEST_FILE;
use little_endian::part;
use program::arguments::{Arguments, Failure};
use program::system::{Program, System};
use program::{arguments, replacement, streams};
use refusal::Refusal;
use std::fmt::InlineText;

// Where the file is in its place, that is answered, and else why not. OUT may be the instrument: no input is in use. Its frame, with
// the new file's name, is not there yet while the record is written.
#[inline(never)]
fn replace_out(program: &Program<'_, impl System>, out: &str, file: &[u8]) -> Result<(), Failure> {
    replacement::check(program, out, &[], "the answer goes")?;
    replacement::replace(program, out, file)?;
    let length = file.len();
    let line = InlineText::<64>::of(format_args!("ok {length}"));
    program.answer_of(out, line.as_str())
}

// The file of the instrument with the weights, at the start of the bytes. Its frame, with copies of the record, is gone before a file is made.
#[inline(never)]
fn encode(
    rt: &impl System,
    given: Arguments,
    instrument: Instrument,
    bytes: &mut [u8; LONGEST_FILE],
) -> Result<usize, Refusal> {
    instrument_writer::write(pairs::with_pairs(rt, given, instrument), bytes)
}

// A record that the writer refuses is a refused instrument, as a file is that the reader refuses. The bytes hold the longest file, so it refuses none by 20. Its frame stays apart from those
// that read.
#[inline(never)]
fn write_adjusted(
    program: &Program<'_, impl System>,
    given: Arguments,
    instrument: Instrument,
    path: &str,
    out: &str,
) -> Result<(), Failure> {
    let mut bytes = [0u8; LONGEST_FILE];
    match encode(program.rt, given, instrument, &mut bytes) {
        Ok(length) => replace_out(program, out, part(&bytes, 0, length)),
        Err(refusal) => Err(pairs::refuse(program, given, instrument, path, refusal)),
    }
}

fn run(program: &Program<'_, impl System>, given: Arguments) -> Result<(), Failure> {
    streams::check_open(program)?;
    if given.count < 2 || given.count % 2 != 0 {
        return Err(program.explain("INSTRUMENT OUT [KEY WEIGHT].."));
    }
    let mut path_bytes = [0u8; 4096];
    let path = given.path(program, 0, "INSTRUMENT", &mut path_bytes)?;
    let mut out_bytes = [0u8; 4096];
    let out = given.path(program, 1, "OUT", &mut out_bytes)?;
    pairs::check_words(program, given)?;
    let loaded = instrument_input::load(program, path)?;
    pairs::check_keys(program, given, loaded.instrument)?;
    write_adjusted(program, given, loaded.instrument, path, out)
}

fn main(rt: HostRuntime) {
    let program = Program {
        rt: &rt,
        name: "adjust",
    };
    let given = arguments::given(&rt);
    arguments::end(given, run(&program, given));
}
