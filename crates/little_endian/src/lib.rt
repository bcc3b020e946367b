// Document 01, "Instrument file": "Little-endian." Whole numbers and floats at a place in lent bytes, for every place:
// past the end the bytes read count as 0, and bytes stored are left out.
#![tactic(auto)]

ghost use Rattle.std.specs.Prelude.{◌≡◌, take, drop, set};
ghost use Rattle.std.specs.Float.{binary64};
ghost use Rattle.std.specs.Float.Ieee.{of_bits, to_bits};
ghost use Rattle.std.proofs.lemmas.List.Edits.{sets};
ghost use Rattle.little_endian.specs.Numbers.{byte_at, bytes_at, u16_at, u32_at, u64_at, f64_at, le16, le32, le64, le_f64};

// At most n bytes from p on: fewer where the bytes end before.
pub fn part(f: &[u8], p: usize, n: usize) -> &[u8]
    ensures { result.now ≡ take n (drop p f.now) }
{
    let rest = &f[p.min(f.len())..];
    &rest[..n.min(rest.len())]
}

pub fn byte_at(f: &[u8], p: usize) -> u8
    ensures { result ≡ byte_at f.now p }
{
    if p < f.len() { f[p] } else { 0 }
}

// The N bytes from p on.
fn bytes_at<const N: usize>(f: &[u8], p: usize) -> [u8; N]
    ensures { result ≡ bytes_at N f.now p }
{
    let mut bytes = [0; N];
    let held = part(f, p, N);
    bytes[..held.len()].copy_from_slice(held);
    bytes
}

pub fn u16_at(f: &[u8], p: usize) -> u16
    ensures { result ≡ u16_at f.now p }
{
    let bytes: [u8; 2] = bytes_at(f, p);
    u16::from_le_bytes(bytes)
}

pub fn u32_at(f: &[u8], p: usize) -> u32
    ensures { result ≡ u32_at f.now p }
{
    let bytes: [u8; 4] = bytes_at(f, p);
    u32::from_le_bytes(bytes)
}

pub fn u64_at(f: &[u8], p: usize) -> u64
    ensures { result ≡ u64_at f.now p }
{
    let bytes: [u8; 8] = bytes_at(f, p);
    u64::from_le_bytes(bytes)
}

// The float that a pattern stands for. Every NaN's pattern gives the one NaN, whose sign and payload nothing here can see.
pub fn float_of(bits: u64) -> f64
    ensures { result ≡ of_bits binary64 bits }
{
    if 0x7ff0_0000_0000_0000 < bits % 0x8000_0000_0000_0000 {
        f64::NAN
    } else {
        f64::from_bits(bits)
    }
}

// A float's bits; one pattern stands for every NaN.
pub fn bits_of(x: f64) -> u64
    ensures { result ≡ to_bits binary64 x }
{
    if x.is_nan() {
        0x7ff8_0000_0000_0000
    } else {
        f64::to_bits(x)
    }
}

pub fn f64_at(f: &[u8], p: usize) -> f64
    ensures { result ≡ f64_at f.now p }
{
    float_of(u64_at(f, p))
}

// ---- stores

pub fn put_u8(b: &mut [u8], p: usize, x: u8)
    ensures { b.new ≡ set b.old p x }
{
    if p < b.len() {
        b[p] = x;
    }
}

// The bytes of x from p on.
fn put_bytes(b: &mut [u8], p: usize, x: &[u8])
    ensures { b.new ≡ sets b.old p x.now }
{
    if p < b.len() {
        let n = x.len().min(b.len() - p);
        b[p..p + n].copy_from_slice(&x[..n]);
    }
}

pub fn put_u16(b: &mut [u8], p: usize, x: u16)
    ensures { b.new ≡ sets b.old p (le16 x) }
{
    let bytes: [u8; 2] = x.to_le_bytes();
    put_bytes(b, p, &bytes);
}

pub fn put_u32(b: &mut [u8], p: usize, x: u32)
    ensures { b.new ≡ sets b.old p (le32 x) }
{
    let bytes: [u8; 4] = x.to_le_bytes();
    put_bytes(b, p, &bytes);
}

pub fn put_u64(b: &mut [u8], p: usize, x: u64)
    ensures { b.new ≡ sets b.old p (le64 x) }
{
    let bytes: [u8; 8] = x.to_le_bytes();
    put_bytes(b, p, &bytes);
}

pub fn put_f64(b: &mut [u8], p: usize, x: f64)
    ensures { b.new ≡ sets b.old p (le_f64 x) }
{
    put_u64(b, p, bits_of(x));
}
