// The sum that stands for floats in the stored lists, as `compare/session` makes it.

// Both zeros count alike, and so do all NaNs.
fn summed_bits(x: f64) -> u64 {
    if x == 0.0 {
        return 0;
    }
    little_endian::bits_of(x)
}

// A rotation by seven bits, then the float's bits, then a constant: each float changes the sum, and so does their order.
fn with_float(sum: u64, x: f64) -> u64 {
    (sum.rotate_left(7) ^ summed_bits(x)).wrapping_add(0x9e37_79b9_7f4a_7c15)
}

pub fn sum_of(floats: &[f64]) -> u64 {
    floats.iter().fold(0, |sum, x| with_float(sum, *x))
}
