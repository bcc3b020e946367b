// Document 01, "Instrument file": the records of the common section, of a key and of a string, where each field stands in its section's bytes, the field's range, and the values
// of a place that holds no key or no string.
#![tactic(auto)]

ghost use Rattle.std.specs.Prelude.{◌≡◌};
ghost use Rattle.instrument_fields.specs.Fields.{hammer_of, common_of, key_of, loop_of};
ghost use Rattle.instrument_fields.specs.Ranges.{within, strictly_between, exponent_in_range, hammer_in_range, common_in_range, key_in_range, string_in_range};
ghost use Rattle.instrument_fields.specs.Unused.{is_plus_zero, no_common, no_key, no_string, is_no_key, is_no_string};

use hammer::Hammer;
use little_endian::{byte_at, f64_at, u16_at, u32_at};

#[repr(C)]
#[derive(Clone, Copy, Default)]
pub struct Damper {
    pub rho: f64,
    pub ramp_s: f64,
}

#[repr(C)]
#[derive(Clone, Copy, Default)]
pub struct Common {
    pub fs: f64,
    pub z: f64,
    pub hammer: Hammer,
    pub yz: f64,
    pub damper: Damper,
}

// A key; `strings` is how many strings it has.
#[repr(C)]
#[derive(Clone, Copy, Default)]
pub struct KeyDesign {
    pub key: u8,
    pub has_damper: bool,
    pub strings: usize,
    pub weight: f64,
    pub damper_scale: f64,
    pub strike_ratio: f64,
    pub damper_ratio: f64,
}

// A string's loop; `phi` stands for the delay of its filters.
#[repr(C)]
#[derive(Clone, Copy, Default)]
pub struct LoopDesign {
    pub n: usize,
    pub ap_count: usize,
    pub phi: f64,
    pub thiran_a: f64,
    pub ap_a: f64,
    pub loss_g: f64,
    pub loss_c: f64,
}

fn read_hammer(b: &[u8]) -> Hammer
    ensures { result ≡ hammer_of b.now }
{
    Hammer {
        stiffness: f64_at(b, 24),
        exponent: u32_at(b, 72),
        eps: f64_at(b, 32),
        mass: f64_at(b, 16),
        tau: f64_at(b, 40),
    }
}

// The common section's record, of the section's bytes.
pub fn read_common(b: &[u8]) -> Common
    ensures { result ≡ common_of b.now }
{
    let hammer = read_hammer(b);
    let damper = Damper {
        rho: f64_at(b, 56),
        ramp_s: f64_at(b, 64),
    };
    Common {
        fs: f64_at(b, 0),
        z: f64_at(b, 8),
        hammer,
        yz: f64_at(b, 48),
        damper,
    }
}

// A key's record, of its section's bytes.
pub fn read_key(b: &[u8]) -> KeyDesign
    ensures { result ≡ key_of b.now }
{
    KeyDesign {
        key: byte_at(b, 0),
        has_damper: byte_at(b, 1) == 1,
        strings: usize::from(byte_at(b, 2)),
        weight: f64_at(b, 4),
        damper_scale: f64_at(b, 12),
        strike_ratio: f64_at(b, 20),
        damper_ratio: f64_at(b, 28),
    }
}

// A string's record, of its 44 bytes.
pub fn read_loop(b: &[u8]) -> LoopDesign
    ensures { result ≡ loop_of b.now }
{
    LoopDesign {
        n: usize::from(u16_at(b, 0)),
        ap_count: usize::from(u16_at(b, 2)),
        phi: f64_at(b, 4),
        thiran_a: f64_at(b, 12),
        ap_a: f64_at(b, 20),
        loss_g: f64_at(b, 28),
        loss_c: f64_at(b, 36),
    }
}

// From low to high, ends counted; NaN is in no range.
fn is_within(low: f64, x: f64, high: f64) -> bool
    ensures { result ≡ within low x high }
{
    (low <= x) & (x <= high)
}

// Strictly between low and high.
fn is_between(low: f64, x: f64, high: f64) -> bool
    ensures { result ≡ strictly_between low x high }
{
    (low < x) & (x < high)
}

// 2^-20
const LEAST: f64 = 0.00000095367431640625;

// A word for halves, 2 to 10, or for quarters, 4 to 20 above 256.
fn exponent_in_range(word: u32) -> bool
    ensures { result ≡ exponent_in_range word }
{
    ((2 <= word) & (word <= 10)) | ((260 <= word) & (word <= 276))
}

fn hammer_in_range(h: Hammer) -> bool
    ensures { result ≡ hammer_in_range h }
{
    is_within(LEAST, h.mass, 1000.0)
        & is_within(0.0, h.stiffness, 1000000000000000.0)
        & is_within(0.0, h.eps, 1.0)
        & is_within(0.0, h.tau, 1.0)
        & exponent_in_range(h.exponent)
}

pub fn common_in_range(c: Common) -> bool
    ensures { result ≡ common_in_range c }
{
    let hammer = c.hammer;
    let damper = c.damper;
    is_within(1000.0, c.fs, 400000.0)
        & is_within(LEAST, c.z, 1000.0)
        & hammer_in_range(hammer)
        & is_within(0.0, c.yz, 1.0)
        & is_within(0.0, damper.rho, 1000.0)
        & is_within(0.0, damper.ramp_s, 100.0)
}

pub fn key_in_range(k: KeyDesign) -> bool
    ensures { result ≡ key_in_range k }
{
    (1 <= k.strings)
        & (k.strings <= 3)
        & is_within(0.0, k.weight, 100.0)
        & is_within(0.0, k.damper_scale, 1000.0)
        & is_within(0.0, k.strike_ratio, 1.0)
        & is_within(0.0, k.damper_ratio, 1.0)
}

pub fn string_in_range(s: LoopDesign) -> bool
    ensures { result ≡ string_in_range s }
{
    (4 <= s.n)
        & (s.n <= 2000)
        & (s.ap_count <= 66)
        & is_within(0.0, s.phi, 4096.0)
        & is_between(-1.0, s.thiran_a, 1.0)
        & is_between(-1.0, s.ap_a, 1.0)
        & is_within(0.0, s.loss_g, 2.0)
        & (0.0 <= s.loss_c)
        & (s.loss_c < 1.0)
}

// +0, and not -0: `==` does not tell them apart, the pattern does.
fn is_plus_zero(x: f64) -> bool
    ensures { result ≡ is_plus_zero x }
{
    x == 0.0 && x.to_bits() == 0
}

pub fn is_no_key(k: KeyDesign) -> bool
    ensures { result ≡ is_no_key k }
{
    (k.key == 0)
        & !k.has_damper
        & (k.strings == 0)
        & is_plus_zero(k.weight)
        & is_plus_zero(k.damper_scale)
        & is_plus_zero(k.strike_ratio)
        & is_plus_zero(k.damper_ratio)
}

pub fn is_no_string(s: LoopDesign) -> bool
    ensures { result ≡ is_no_string s }
{
    (s.n == 0)
        & (s.ap_count == 0)
        & is_plus_zero(s.phi)
        & is_plus_zero(s.thiran_a)
        & is_plus_zero(s.ap_a)
        & is_plus_zero(s.loss_g)
        & is_plus_zero(s.loss_c)
}

// What an unused place of the keys holds.
pub fn no_key() -> KeyDesign
    ensures { result ≡ no_key }
{
    KeyDesign::default()
}

// What an unused place of the strings holds.
pub fn no_string() -> LoopDesign
    ensures { result ≡ no_string }
{
    LoopDesign::default()
}

// The common record of a file that is refused.
pub fn no_common() -> Common
    ensures { result ≡ no_common }
{
    Common::default()
}
