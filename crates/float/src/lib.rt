// What the Rust takes from its library on f64: min, max, clamp, and rounding to a whole number. The methods of Rattle's own
// library promise less: of two equal operands, as 0 and -0, either may come back, also from `max(0.0)`; `clamp` asks that
// lo is at most hi; and of `round` no proof here knows that it goes away from zero.
#![tactic(auto)]

ghost use Rattle.std.specs.Prelude.{◌≡◌};
ghost use Rattle.float.specs.Float.{min_of, max_of, clamp_of, positive_part, round_away};

// The smaller of two; where one is NaN, the other.
#[tactic(auto, using(crate::proofs::Ends::ends), unfolding(crate::specs::Float::min_of))]
pub fn min(a: f64, b: f64) -> f64
    ensures { result ≡ min_of a b }
{
    if a < b {
        a
    } else if b.is_nan() {
        a
    } else {
        b
    }
}

// The larger of two; where one is NaN, the other.
pub fn max(a: f64, b: f64) -> f64
    ensures { result ≡ max_of a b }
{
    if a < b {
        b
    } else if a.is_nan() {
        b
    } else {
        a
    }
}

// x brought to the nearer end of lo to hi; NaN stays NaN.
pub fn clamp(x: f64, lo: f64, hi: f64) -> f64
    ensures { result ≡ clamp_of x lo hi }
{
    if x < lo {
        lo
    } else if x > hi {
        hi
    } else {
        x
    }
}

// The Rust's `max(0.0)` before a power.
pub fn positive_part(x: f64) -> f64
    ensures { result ≡ positive_part x }
{
    if x > 0.0 { x } else { 0.0 }
}

// The Rust's `x.round() as usize`. Below 2^62 twice x is exact, and half of its whole part plus one
// is the whole part of x + 1/2; from there on x is a whole number.
pub fn round_away(x: f64) -> u64
    ensures { result ≡ round_away x }
{
    if x > 0.0 {
        if x < 4611686018427387904.0 {
            (std::num::truncating_f64_to_u64(2.0 * x) + 1) / 2
        } else if x < 18446744073709551616.0 {
            std::num::truncating_f64_to_u64(x)
        } else {
            u64::MAX
        }
    } else {
        0
    }
}
