// Where a string is struck and damped: the three lengths of its delay lines, as in the Rust's
// `StringWg::new`.
#![tactic(auto)]

ghost use Rattle.std.specs.Prelude.{◌≡◌};
ghost use Rattle.cuts.specs.Cuts.{half_of, cell_at, cuts_of};

use float::round_away;

// From the nut to the strike point, from there to the damper, and from there to the bridge.
#[derive(Clone, Copy)]
pub struct Cuts {
    pub na: usize,
    pub nb: usize,
    pub nc: usize,
}

// The one-way length of n cells with half the delay of the filters, which a round trip passes once.
#[tactic(auto, unfolding(crate::specs::Cuts::half_of))]
fn half_of(n: usize, phi: f64) -> f64
    ensures { result ≡ half_of n phi }
{
    std::num::nearest_u64_to_f64(n as u64) + 0.5 * phi
}

// The cell at a part of the length, from lo to hi.
#[tactic(auto, unfolding(crate::specs::Cuts::cell_at))]
fn cell_at(half: f64, ratio: f64, lo: usize, hi: usize) -> usize
    ensures { result ≡ cell_at half ratio lo hi }
{
    (round_away(half * ratio) as usize).max(lo).min(hi)
}

pub fn cut_string(n: usize, phi: f64, strike_ratio: f64, damper_ratio: f64) -> Cuts
    ensures { result ≡ cuts_of n phi strike_ratio damper_ratio }
{
    let half = half_of(n, phi);
    let na = cell_at(half, strike_ratio, 1, n.saturating_sub(2).max(1));
    let nd = cell_at(half, damper_ratio, na + 1, n.saturating_sub(1).max(na + 1));
    Cuts {
        na,
        nb: nd.saturating_sub(na),
        nc: n.saturating_sub(nd).max(1),
    }
}
