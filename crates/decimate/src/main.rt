// `decimate IN.wav TAPS FACTOR OUT.wav`: every FACTOR-th sample of a mono WAV file of 64-bit floats, behind the 127 little-endian floats of TAPS. It writes one line on what it did, or to
// standard error what is wrong with which file.
#![tactic(auto)]

mod blocks;
mod wave_in;

use blocks::{BlockError, Plan, WINDOW};
use program::arguments::{Arguments, Failure};
use program::input::{Input, Source};
use program::message::TransferError;
use program::output::{InUse, Output};
use program::system::{Program, System};
use program::{arguments, input, output, streams, wave};
use text::NumberError;

// ---- the factor

#[derive(Clone, Copy)]
enum FactorError {
    TooHigh,
    NoNumber,
}

impl FactorError {
    fn words(self) -> &'static str {
        match self {
            FactorError::TooHigh => "refused 17: the factor exceeds 64",
            FactorError::NoNumber => "the factor is no whole number",
        }
    }
}

// Digits alone, of any number of them.
fn factor_of(word: &[u8]) -> Result<usize, FactorError> {
    match text::number_of(word) {
        Ok(k) if k <= 64 => Ok(k as usize),
        Ok(_) | Err(NumberError::TooLarge) => Err(FactorError::TooHigh),
        Err(NumberError::NotANumber) => Err(FactorError::NoNumber),
    }
}

// FACTOR, or what is wrong with it. The frame with the word's bytes is gone when the work begins.
#[inline(never)]
fn factor_given(program: &Program<'_, impl System>, given: Arguments) -> Result<usize, Failure> {
    let mut bytes = [0u8; 4096];
    let word = given.word(program.rt, 2, &mut bytes);
    match factor_of(word) {
        Ok(factor) => Ok(factor),
        Err(e) => Err(program.complain_of_word(word, "FACTOR", e.words())),
    }
}

// ---- the work

// The whole of OUT, which is then closed.
fn write_out(
    source: &mut Source,
    plan: Plan,
    taps: &[f64; 127],
    out: Output,
    samples: &mut [f64; WINDOW],
    outputs: &mut [f64; 256],
    bytes: &mut [u8; 16384],
) -> Result<(), BlockError> {
    let mut wave = wave::begin(out, plan.thinned_rate()).map_err(BlockError::Write)?;
    blocks::append_all(&mut wave, source, plan, taps, samples, outputs, bytes)
}

// Makes OUT and says what was written. The memory for the blocks is there before OUT is: where the stack has no room for it, no empty OUT is left.
#[inline(never)]
fn write_wave(
    program: &Program<'_, impl System>,
    source: &mut Source,
    plan: Plan,
    taps: &[f64; 127],
    input: &str,
    output: &str,
) -> Result<(), Failure> {
    let mut samples = [0.0; WINDOW];
    let mut outputs = [0.0; 256];
    let mut bytes = [0u8; 16384];
    let out = output::open(program, output)?;
    match write_out(
        source,
        plan,
        taps,
        out,
        &mut samples,
        &mut outputs,
        &mut bytes,
    ) {
        Ok(()) => report(program, plan),
        Err(BlockError::Read) => { Err(program.complain(input, "it could not be read to its end")) }
        Err(BlockError::Write(e)) => Err(program.complain(output, TransferError(e))),
    }
}

// Writes OUT once all that it is made of is known to be there, and says what was written, or what is wrong.
fn decimate(
    program: &Program<'_, impl System>,
    input: &str,
    tap_path: &str,
    factor: usize,
    output: &str,
) -> Result<(), Failure> {
    let Input { source, file } = input::open(program, input)?;
    let mut source = source;
    let signal = match wave_in::find_samples(&mut source) {
        Ok(signal) => signal,
        Err(flaw) => return Err(program.complain(input, flaw)),
    };
    let mut taps = [0.0; 127];
    let tap_file = wave_in::read_taps(program, tap_path, &mut taps)?;
    let inputs = [
        InUse {
            file,
            name: "the input",
        },
        InUse {
            file: tap_file,
            name: "the taps",
        },
    ];
    output::check_streams(program, &inputs)?;
    output::check_apart(program, output, &inputs, "the report goes")?;
    let plan = Plan { signal, factor };
    write_wave(program, &mut source, plan, &taps, input, output)
}

// Says what was done. The frame with the line's text comes when the work is done.
#[inline(never)]
fn report(program: &Program<'_, impl System>, plan: Plan) -> Result<(), Failure> {
    match program.answer(plan) {
        Ok(()) => Ok(()),
        Err(e) => Err(program.complain("standard output", TransferError(e))),
    }
}

// ---- the command line

fn run(program: &Program<'_, impl System>, given: Arguments) -> Result<(), Failure> {
    streams::check_open(program)?;
    if given.count != 4 {
        return Err(program.explain("IN.wav TAPS FACTOR OUT.wav"));
    }
    let mut input_bytes = [0u8; 4096];
    let input = given.path(program, 0, "IN.wav", &mut input_bytes)?;
    let mut tap_bytes = [0u8; 4096];
    let tap_path = given.path(program, 1, "TAPS", &mut tap_bytes)?;
    let factor = factor_given(program, given)?;
    let mut output_bytes = [0u8; 4096];
    let output = given.path(program, 3, "OUT.wav", &mut output_bytes)?;
    decimate(program, input, tap_path, factor, output)
}

fn main(rt: HostRuntime) {
    let program = Program {
        rt: &rt,
        name: "decimate",
    };
    let given = arguments::given(&rt);
    arguments::end(given, run(&program, given));
}
