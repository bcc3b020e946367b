// The signal in blocks of 63 outputs, so that no memory is asked for the whole. A block's window holds the samples that its outputs start from, the last block's before them, whose own
// outputs are dropped, and 64 samples after them, or what there is of these: every tap meets what it meets in the whole signal (`window_same` in `decimator`'s proofs).
ghost use Rattle.std.specs.Prelude.{◌≤◌};

use crate::wave_in::Signal;
use program::floats::read_floats;
use program::input::Source;
use program::wave::Wave;
use std::{fmt, io};

// Every factor-th sample of a signal.
#[derive(Clone, Copy)]
pub struct Plan {
    pub signal: Signal,
    pub factor: usize,
}

impl Plan {
    // How many samples lie from one output to the next.
    fn stride(self) -> usize
        ensures { result ≤ 64 }
    {
        self.factor.clamp(1, 64)
    }

    fn outputs(self) -> usize {
        decimator::output_length(self.signal.count, self.factor)
    }

    // The rate of the outputs, rounded to the nearest whole number.
    pub fn thinned_rate(self) -> u64 {
        let rate = self.signal.rate;
        let factor = self.factor as u64;
        if factor <= 1 {
            return rate;
        }
        rate.saturating_add(factor / 2) / factor
    }
}

// What was done, in a line.
impl fmt::Display for Plan {
    fn fmt<W: fmt::Write>(&self, f: &mut fmt::Formatter<W>) -> fmt::Result {
        let plan = *self;
        let count = plan.signal.count;
        let rate = plan.signal.rate;
        let factor = plan.factor;
        let outputs = plan.outputs();
        let thinned = plan.thinned_rate();
        write!(
            f,
            "{count} samples at {rate} Hz, factor {factor}: {outputs} samples at {thinned} Hz"
        )
    }
}

// Why not all blocks went out: the input could not be read to its end, or a write failed.
#[derive(Clone, Copy)]
pub enum BlockError {
    Read,
    Write(io::Error),
}

// The window's first sample, how many it has, and how many of its outputs are dropped.
#[derive(Clone, Copy)]
struct Window {
    first: usize,
    samples: usize,
    dropped: usize,
}

// Outputs a block; even where they start from neighbouring samples, a block's are as many as the taps reach back.
const BLOCK: usize = 63;

// The largest window: 126 outputs' worth of 64 samples, and 64 samples.
pub const WINDOW: usize = 8128;

// The window of the block whose first output starts from sample `at`.
fn window_of(plan: Plan, at: usize) -> Window
    ensures { result.samples ≤ 8128 }
{
    let reach = BLOCK * plan.stride();
    let back = at.min(reach);
    let first = at - back;
    Window {
        first,
        samples: plan
            .signal
            .count
            .saturating_sub(first)
            .min(back + reach + 64),
        dropped: if at == 0 { 0 } else { BLOCK },
    }
}

// The outputs of some samples, at the start of the lent ones, if these are enough.
fn thin<'o>(
    factor: usize,
    taps: &[f64; 127],
    samples: &[f64],
    outputs: &'o mut [f64],
) -> Option<&'o [f64]> {
    let room = decimator::output_length(samples.len(), factor);
    let made = outputs.get_mut(..room)?;
    decimator::decimate(samples, taps, factor, made).ok()?;
    Some(made)
}

// The block of the outputs from `done` on. (A struct of the three buffers could not lend two of them at once.)
fn append_block(
    wave: &mut Wave,
    source: &mut Source,
    plan: Plan,
    taps: &[f64; 127],
    done: usize,
    samples: &mut [f64; WINDOW],
    outputs: &mut [f64; 256],
    bytes: &mut [u8; 16384],
) -> Result<(), BlockError> {
    let window = window_of(plan, done.saturating_mul(plan.stride()));
    let samples = &mut samples[..window.samples];
    let offset = (window.first as u64)
        .saturating_mul(8)
        .saturating_add(plan.signal.start);
    read_floats(source, offset, samples, bytes).map_err(|_| BlockError::Read)?;
    let made = thin(plan.factor, taps, samples, outputs).ok_or(BlockError::Read)?;
    let kept = plan.outputs().saturating_sub(done).min(BLOCK);
    let last = window.dropped.saturating_add(kept);
    let block = made.get(window.dropped..last).ok_or(BlockError::Read)?;
    wave.append(block, bytes).map_err(BlockError::Write)
}

// All outputs, block after block, until a read or a write fails.
pub fn append_all(
    wave: &mut Wave,
    source: &mut Source,
    plan: Plan,
    taps: &[f64; 127],
    samples: &mut [f64; WINDOW],
    outputs: &mut [f64; 256],
    bytes: &mut [u8; 16384],
) -> Result<(), BlockError> {
    for done in (0..plan.outputs()).step_by(BLOCK) {
        append_block(wave, source, plan, taps, done, samples, outputs, bytes)?;
    }
    Ok(())
}
