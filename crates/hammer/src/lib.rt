// The felt hammer and the force of its contact with one string.
#![tactic(auto)]

ghost use Rattle.std.specs.Prelude.{◌≡◌, true, cond, ◌⊎◌, IfOk};
ghost use Rattle.std.specs.Float.{binary64};
ghost use Rattle.std.specs.Float.Ieee.{eq, div};
ghost use Rattle.float.specs.Float.{zero as +0};
ghost use Rattle.hammer.specs.Contact.{felt_force, bisect, force_of, ForceBound};
ghost use Rattle.hammer.specs.Guess.{too_low, low_by_guess, high_by_guess, Moderate, AllModerate};

use float::positive_part;
use power::{power, quarters_of};

// The exponent is the file's word: halves, or 256 and quarters.
#[repr(C)]
#[derive(Clone, Copy, Default)]
pub struct Hammer {
    pub stiffness: f64,
    pub exponent: u32,
    pub eps: f64,
    pub mass: f64,
    pub tau: f64,
}

// A felt that meets one string: what eps times its memory takes off its power, and the compression c0 - c1 F that a
// force F between the two leaves.
#[derive(Clone, Copy)]
struct Contact {
    hammer: Hammer,
    eps_r: f64,
    c0: f64,
    c1: f64,
}

impl Contact {
    // The felt's force at a compression x, with eps times its memory taken off the power.
    #[tactic(auto, unfolding(crate::specs::Contact::felt_force))]
    fn felt_force(self, x: f64) -> f64
        ensures { result ≡ felt_force self.hammer self.eps_r x }
    {
        self.hammer.stiffness * (power(x, self.hammer.exponent) - self.eps_r)
    }

    // Whether a force m is below the felt's force at the compression that m leaves.
    fn is_too_low(self, m: f64) -> bool
        ensures { result ≡ too_low self.hammer self.eps_r self.c0 self.c1 m }
    {
        m - self.felt_force(positive_part(self.c0 - self.c1 * m)) < 0.0
    }

    // Fifty halvings, each with the felt's own test: a power at every turn.
    fn bisect_force(self, top: f64) -> f64
        ensures { result ≡ bisect (too_low self.hammer self.eps_r self.c0 self.c1) 50 +0 top }
    {
        let mut lo: f64 = 0.0;
        let mut hi: f64 = top;
        for _ in 0u32..50u32 {
            let mid = 0.5 * (lo + hi);
            if self.is_too_low(mid) {
                lo = mid;
            } else {
                hi = mid;
            }
        }
        0.5 * (lo + hi)
    }

    // Where the estimate starts. A felt that is soft beside the string: a Halley step from 0, where it pushes with f0. A
    // stiff one takes nearly the whole force c0 / c1; what is left of c0 is then about a root.
    fn first_estimate(self, f0: f64, top: f64) -> f64 {
        let quarters = quarters_of(self.hammer.exponent);
        let p: f64 = 0.25 * (quarters as f64);
        let u: f64 = self.c1 / self.c0;
        let ke: f64 = self.hammer.stiffness * self.eps_r;
        let s: f64 = u * p * (f0 + ke);
        if s > 16.0 {
            let left = rough_root((top + ke) / (f0 + ke), quarters);
            return top - top * left;
        }
        f0 / (1.0 + s - 0.5 * s * (p - 1.0) * u * (f0 / (1.0 + s)))
    }

    // About the force, by Newton's steps, until the next would be less than an interval that fifty halvings leave. Nothing
    // is said of the result, since the felt's own test decides on it.
    fn estimate_force(self, f0: f64, top: f64) -> f64 {
        let w: f64 = self.c1 * (0.25 * (quarters_of(self.hammer.exponent) as f64));
        let ke: f64 = self.hammer.stiffness * self.eps_r;
        let near: f64 = 0.000000000000001 * top / w;
        let mut m: f64 = self.first_estimate(f0, top);
        for _ in 0u32..10u32 {
            let x = positive_part(self.c0 - self.c1 * m);
            let f = self.felt_force(x);
            let d: f64 = (m - f) / (1.0 + w * (f + ke) / x);
            m = m - d;
            if d * d < near * x {
                return m;
            }
        }
        m
    }

    // Whether a search by a guess may start. Then the felt's test is one of a threshold: what is too low stays too low
    // further down.
    fn may_guess(self, top: f64) -> bool
        ensures { result ≡ true → AllModerate self.hammer self.eps_r self.c0 self.c1 top }
    {
        is_moderate(self.hammer.stiffness)
            && is_moderate_or_zero(self.eps_r)
            && is_moderate(self.c0)
            && is_moderate(self.c1)
            && is_moderate(top)
    }

    // Halvings by a guess. They went the felt's way throughout where it finds the low end that they leave too low and the
    // high end not: then the force is found. Else the guess to try next is in the interval on the felt's side.
    fn try_guess(self, top: f64, guess: f64) -> Result<f64, f64>
        requires { AllModerate self.hammer self.eps_r self.c0 self.c1 top }
        ensures { IfOk result (λ f. f ≡ bisect (too_low self.hammer self.eps_r self.c0 self.c1) 50 +0 top) }
    {
        if guess > 0.0 {
            let ends = bisect_by_guess(guess, top);
            if !self.is_too_low(ends.lo) {
                Err(ends.lo)
            } else if self.is_too_low(ends.hi) {
                Err(ends.hi + 0.5 * (ends.hi - ends.lo))
            } else {
                Ok(0.5 * (ends.lo + ends.hi))
            }
        } else {
            Err(0.0)
        }
    }
}

fn choose(t: bool, a: f64, b: f64) -> f64
    ensures { result ≡ cond t a b }
{
    if t { a } else { b }
}

// What halvings leave: the force lies from lo to hi.
#[derive(Clone, Copy)]
struct Interval {
    lo: f64,
    hi: f64,
}

// Fifty halvings that ask whether the middle is below a guess of the force: no power at all. Each
// end has a test of its own, so that the processor chooses without a branch.
fn bisect_by_guess(guess: f64, top: f64) -> Interval
    ensures low { result.lo ≡ low_by_guess guess 50 +0 top }
    ensures high { result.hi ≡ high_by_guess guess 50 +0 top }
{
    let mut lo: f64 = 0.0;
    let mut hi: f64 = top;
    for _ in 0..50u32 {
        let mid = 0.5 * (lo + hi);
        lo = choose(mid < guess, mid, lo);
        hi = choose(guess <= mid, mid, hi);
    }
    Interval { lo, hi }
}

// About the number below 1 whose power of so many quarters is y: a float's bits are about its logarithm.
fn rough_root(y: f64, quarters: u32) -> f64 {
    let one: u64 = 0x3ff0_0000_0000_0000;
    if y > 0.0 {
        let bits = f64::to_bits(y);
        if bits < one && 0 < quarters {
            let fall = 4 * (one - bits) / (quarters as u64);
            if fall < one {
                return f64::from_bits(one - fall);
            }
        }
    }
    1.0
}

// Above 0 and below 2^1000: a sum of two such numbers is finite.
fn is_moderate(x: f64) -> bool
    ensures { result ≡ true → Moderate x }
{
    x > 0.0 && x < 1.0715086071862673e301
}

// The memory of a felt that was not compressed before is 0.
fn is_moderate_or_zero(x: f64) -> bool
    ensures { result ≡ true → Moderate x ⊎ (eq x +0 ≡ true) }
{
    x == 0.0 || is_moderate(x)
}

// How a force was found: one of the first two tests says that there is none, the first or the second
// guess gave it, or the felt's own test halved. It is for benches, which know the ways as 0 to 3.
#[derive(Clone, Copy)]
pub enum Way {
    NoForce = 0,
    FirstGuess = 1,
    SecondGuess = 2,
    Halved = 3,
}

#[derive(Clone, Copy)]
pub struct Search {
    pub force: f64,
    pub way: Way,
}

impl Contact {
    // The force of a felt that pushes with f0 where it is free. Two trials by a guess nearly always find what the
    // felt's own tests would.
    fn search(self, f0: f64) -> Search
        ensures { result.force ≡ bisect (too_low self.hammer self.eps_r self.c0 self.c1) 50 +0 (div binary64 self.c0 self.c1) }
    {
        let top = self.c0 / self.c1;
        if self.may_guess(top) {
            match self.try_guess(top, self.estimate_force(f0, top)) {
                Ok(force) => {
                    return Search {
                        force,
                        way: Way::FirstGuess,
                    };
                }
                Err(next) => {
                    if let Ok(force) = self.try_guess(top, next) {
                        return Search {
                            force,
                            way: Way::SecondGuess,
                        };
                    }
                }
            }
        }
        Search {
            force: self.bisect_force(top),
            way: Way::Halved,
        }
    }
}

// The force F at which the felt, compressed by c0 - c1 F, pushes with F: it falls as F grows, so
// halving closes in on the one root.
pub fn search_force(hammer: Hammer, eps_r: f64, c0: f64, c1: f64) -> Search
    ensures { result.force ≡ force_of hammer eps_r c0 c1 }
{
    let none = Search {
        force: 0.0,
        way: Way::NoForce,
    };
    if c0 <= 0.0 {
        return none;
    }
    let contact = Contact {
        hammer,
        eps_r,
        c0,
        c1,
    };
    let f0 = contact.felt_force(c0);
    if f0 <= 0.0 { none } else { contact.search(f0) }
}

// The force alone. For c0 and c1 finite and above 0, with c0 / c1 at most half the largest f64, it lies
// from 0 to c0 / c1, rounded, whatever stiffness, exponent and memory are.
pub fn contact_force(hammer: Hammer, eps_r: f64, c0: f64, c1: f64) -> f64
    ensures { (result ≡ force_of hammer eps_r c0 c1) × ForceBound c0 c1 result }
{
    search_force(hammer, eps_r, c0, c1).force
}
