// Thinning a signal to every factor-th sample, behind 127 lent taps.
#![tactic(auto)]

ghost use Rattle.std.specs.Prelude.{◌≡◌, ◌*◌, ◌<◌, length};
ghost use Rattle.counting.specs.Below.{tabulate};
ghost use Rattle.decimator.specs.Decimate.{refusal_of, weighed, filtered_at, output_length, DecimateMeets};
ghost use Rattle.decimator.specs.Steps.{Thins};
ghost use Rattle.refusal.specs.Refusal.{number_in};

use refusal::Refusal;

// The longest signal.
const MOST: usize = 0x10_0000;

// The taps reach 63 samples to either side of the one in the middle.
const TAPS: usize = 127;

// How many samples come out of n.
pub fn output_length(n: usize, factor: usize) -> usize
    ensures { result ≡ output_length n factor }
{
    if factor <= 1 {
        n
    } else if n % factor == 0 {
        n / factor
    } else {
        n / factor + 1
    }
}

// The first refusal that the sizes meet.
#[tactic(auto, using(crate::proofs::Cases::refusals))]
fn test(n: usize, taps: usize, factor: usize, room: usize) -> Result<(), Refusal>
    ensures { number_in result ≡ refusal_of n taps factor room }
{
    if factor > 64 {
        return Err(Refusal::SignalLength);
    }
    if n > MOST {
        return Err(Refusal::SignalLength);
    }
    if taps != TAPS {
        return Err(Refusal::Taps);
    }
    if room != output_length(n, factor) {
        return Err(Refusal::OutputLength);
    }
    Ok(())
}

// Tap k on the sample it meets where tap 63 meets sample `at`; none past either end.
#[tactic(auto, using(crate::proofs::Cases::ways))]
fn weigh(x: &[f64], taps: &[f64], at: usize, k: usize, sum: f64) -> f64
    requires { (at < 0x10_0000) × (k < length taps.now) }
    ensures { result ≡ weighed x.now taps.now at k sum }
{
    let Some(i) = (at + k).checked_sub(63) else {
        return sum;
    };
    match x.get(i) {
        Some(sample) => sum + taps[k] * *sample,
        None => sum,
    }
}

// The sample that the taps make of the signal around sample `at`.
fn filtered_at(x: &[f64], taps: &[f64], at: usize) -> f64
    requires { (at < 0x10_0000) × (length taps.now ≡ 127) }
    ensures { result ≡ filtered_at x.now taps.now at }
{
    (0..TAPS).fold(0.0, |sum, k| weigh(x, taps, at, k, sum))
}

// Every factor-th sample, filtered.
fn thin(x: &[f64], taps: &[f64], factor: usize, out: &mut [f64])
    requires { Thins x.now taps.now factor out.old }
    ensures { out.new ≡ tabulate (length out.old) (λ i. filtered_at x.now taps.now (i * factor)) }
{
    for (i, sample) in out.iter_mut().enumerate() {
        *sample = filtered_at(x, taps, i * factor);
    }
}

// The input through the taps, every factor-th sample of it, into `out`.
pub fn decimate(x: &[f64], taps: &[f64], factor: usize, out: &mut [f64]) -> Result<(), Refusal>
    ensures { DecimateMeets x.now taps.now factor out.old (number_in result) out.new }
{
    test(x.len(), taps.len(), factor, out.len())?;
    if factor <= 1 {
        out.copy_from_slice(x);
    } else {
        thin(x, taps, factor, out);
    }
    Ok(())
}
