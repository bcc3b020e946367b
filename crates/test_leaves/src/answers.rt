// What each kind of stored answer says of its leaf. The words are what the leaf was given, then what
// the Rust gave; both zeros and all NaNs count alike, but the root's zeros by their bits.
use filter::LoopFilter;
use hammer::Hammer;
use little_endian::float_of;
use test_answers::{Verdict, alike, all_alike, load, same_bits};

// No stored answer has a larger exponent. The power calls itself once for two halves or four quarters: an
// exponent out of a damaged file is not to use up the stack.
const LARGEST_EXPONENT: u64 = 4096;

// The kinds of stored answers, each of one leaf.
#[derive(Clone, Copy)]
pub enum Kind {
    Root,
    Power,
    Min,
    Max,
    Clamp,
    PositivePart,
    RoundAway,
    ContactForce,
    Cuts,
    Allpass,
    Dispersion,
    LoopFilter,
}

pub const KINDS: [Kind; 12] = [
    Kind::Root,
    Kind::Power,
    Kind::Min,
    Kind::Max,
    Kind::Clamp,
    Kind::PositivePart,
    Kind::RoundAway,
    Kind::ContactForce,
    Kind::Cuts,
    Kind::Allpass,
    Kind::Dispersion,
    Kind::LoopFilter,
];

impl Kind {
    // Its answers' lines begin with it.
    pub fn name(self) -> &'static str {
        match self {
            Kind::Root => "root",
            Kind::Power => "power",
            Kind::Min => "min",
            Kind::Max => "max",
            Kind::Clamp => "clamp",
            Kind::PositivePart => "positive_part",
            Kind::RoundAway => "round_away",
            Kind::ContactForce => "contact_force",
            Kind::Cuts => "cuts",
            Kind::Allpass => "allpass",
            Kind::Dispersion => "dispersion",
            Kind::LoopFilter => "loop_filter",
        }
    }

    // What the leaf gives when it is asked the same; None where the words are no answer of its kind.
    pub fn judge(self, words: &[u64]) -> Option<Verdict> {
        let is_same = match self {
            Kind::Root => root(words),
            Kind::Power => power(words),
            Kind::Min => min(words),
            Kind::Max => max(words),
            Kind::Clamp => clamp(words),
            Kind::PositivePart => positive_part(words),
            Kind::RoundAway => round_away(words),
            Kind::ContactForce => contact_force(words),
            Kind::Cuts => cuts(words),
            Kind::Allpass => allpass(words),
            Kind::Dispersion => dispersion(words),
            Kind::LoopFilter => loop_filter(words),
        };
        Some(Verdict::from(is_same?))
    }
}

// The words where there are N of them.
fn exactly<const N: usize>(words: &[u64]) -> Option<&[u64; N]> {
    if words.len() != N {
        return None;
    }
    words.first_chunk::<N>()
}

fn root(words: &[u64]) -> Option<bool> {
    let words = exactly::<2>(words)?;
    Some(same_bits(root::root(float_of(words[0])), words[1]))
}

fn power(words: &[u64]) -> Option<bool> {
    let words = exactly::<3>(words)?;
    let exponent = words[1];
    if LARGEST_EXPONENT < exponent {
        return None;
    }
    Some(alike(power::power(float_of(words[0]), exponent as u32), words[2]))
}

fn min(words: &[u64]) -> Option<bool> {
    let words = exactly::<3>(words)?;
    Some(alike(float::min(float_of(words[0]), float_of(words[1])), words[2]))
}

fn max(words: &[u64]) -> Option<bool> {
    let words = exactly::<3>(words)?;
    Some(alike(float::max(float_of(words[0]), float_of(words[1])), words[2]))
}

fn clamp(words: &[u64]) -> Option<bool> {
    let words = exactly::<4>(words)?;
    let x = float_of(words[0]);
    let lo = float_of(words[1]);
    let hi = float_of(words[2]);
    Some(alike(float::clamp(x, lo, hi), words[3]))
}

fn positive_part(words: &[u64]) -> Option<bool> {
    let words = exactly::<2>(words)?;
    Some(alike(float::positive_part(float_of(words[0])), words[1]))
}

fn round_away(words: &[u64]) -> Option<bool> {
    let words = exactly::<2>(words)?;
    Some(float::round_away(float_of(words[0])) == words[1])
}

fn contact_force(words: &[u64]) -> Option<bool> {
    let words = exactly::<6>(words)?;
    let exponent = words[1];
    if LARGEST_EXPONENT < exponent {
        return None;
    }
    let hammer = Hammer {
        stiffness: float_of(words[0]),
        exponent: exponent as u32,
        eps: 0.0,
        mass: 1.0,
        tau: 0.0,
    };
    let eps_r = float_of(words[2]);
    let c0 = float_of(words[3]);
    let c1 = float_of(words[4]);
    Some(alike(hammer::contact_force(hammer, eps_r, c0, c1), words[5]))
}

fn cuts(words: &[u64]) -> Option<bool> {
    let words = exactly::<7>(words)?;
    let phi = float_of(words[1]);
    let strike = float_of(words[2]);
    let damper = float_of(words[3]);
    let cuts = cuts::cut_string(words[0] as usize, phi, strike, damper);
    Some(cuts.na as u64 == words[4] && cuts.nb as u64 == words[5] && cuts.nc as u64 == words[6])
}

fn allpass(words: &[u64]) -> Option<bool> {
    let words = exactly::<7>(words)?;
    let mut cells = [0.0; 2];
    load(&words[2..4], &mut cells);
    let y = filter::allpass(&mut cells, float_of(words[0]), float_of(words[1]));
    Some(alike(y, words[4]) && all_alike(&cells, &words[5..7]))
}

// What is left of the words behind a filter's numbers: its cells, then its output and the cells afterwards.
fn filtered<F: FnOnce(&mut [f64]) -> f64>(rest: &[u64], run: F) -> Option<bool>
    requires { F.IsAlwaysCallable run }
{
    let count = rest.len() / 2;
    if rest.len() % 2 == 0 || 144 < count {
        return None;
    }
    let (before, after) = rest.split_at(count);
    let (output, left) = after.split_first()?;
    let mut room = [0.0; 144];
    let cells = &mut room[..count];
    load(before, cells);
    let y = run(cells);
    Some(alike(y, *output) && all_alike(cells, left))
}

// The words before the cells: a, x.
fn dispersion(words: &[u64]) -> Option<bool> {
    let given = words.first_chunk::<2>()?;
    filtered(words.get(2..)?, |cells: &mut [f64]| {
        filter::dispersion(cells, float_of(given[0]), float_of(given[1]))
    })
}

// The words before the cells: the four coefficients, x.
fn loop_filter(words: &[u64]) -> Option<bool> {
    let given = words.first_chunk::<5>()?;
    let filter = LoopFilter {
        thiran_a: float_of(given[0]),
        ap_a: float_of(given[1]),
        loss_g: float_of(given[2]),
        loss_c: float_of(given[3]),
    };
    filtered(words.get(5..)?, |cells: &mut [f64]| {
        filter::loop_filter(cells, filter, float_of(given[4]))
    })
}
