// A piano's state by the words that a stored block has of it.
use crate::block::WORDS;
use points::Flight;
use score::Piano;
use test_answers::{alike, all_alike};

// The words from one place up to another; none where there are not so many.
pub fn between(words: &[u64], from: usize, to: usize) -> &[u64] {
    words.get(from..to).unwrap_or(&[])
}

// One bit a key, the first key's the highest of sixteen.
fn mask(flags: &[bool; 16]) -> u64 {
    flags
        .iter()
        .fold(0u64, |bits, flag| (bits << 1) | u64::from(*flag))
}

// The keys' counts, each beside its own word, and their sum, which is the Rust's one count.
fn same_counts(counts: &[u64; 16], sum: u64, words: &[u64]) -> bool {
    let all = counts
        .iter()
        .fold(0u64, |all, count| all.wrapping_add(*count));
    counts.as_slice() == words && all == sum
}

// The hammer's words: whether it flies, its key, y_h and v_h; zeros where it rests.
fn same_hammer(hammer: Option<Flight>, words: &[u64; WORDS]) -> bool {
    let flight = hammer.unwrap_or(Flight {
        key_index: 0,
        y_h: 0.0,
        v_h: 0.0,
    });
    words[4] == u64::from(hammer.is_some())
        && words[5] == flight.key_index as u64
        && alike(flight.y_h, words[6])
        && alike(flight.v_h, words[7])
}

// Of a block's words from 2 on: contact_samples, peak_force, the hammer's four, pedal, held, hand_damped, damper_r, each
// key's contact_samples.
pub fn same_state(piano: &Piano, words: &[u64; WORDS]) -> bool {
    same_counts(&piano.contact_samples, words[2], between(words, 27, 43))
        && alike(piano.motion.peak_force, words[3])
        && same_hammer(piano.motion.hammer, words)
        && u64::from(piano.pedal) == words[8]
        && mask(&piano.held) == words[9]
        && mask(&piano.hand_damped) == words[10]
        && all_alike(&piano.damper_r, between(words, 11, 27))
}
