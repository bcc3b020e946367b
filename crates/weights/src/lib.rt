// Document 02, W4: "Technicians adjust weights and pass the instrument to the next house." The weights of a record's
// keys, set by the keys' numbers. No weight is tested here: whether the record is still one that a file gives is the
// writer's question.
#![tactic(auto)]

ghost use Rattle.std.specs.Prelude.{◌≡◌, cond, Some, None};
ghost use Rattle.std.specs.List.{list_all};
ghost use Rattle.weights.specs.Weights.{index_of, has_key, weighted, weighted_by, whole_pairs};

use instrument::{Instrument, key_index};

// Where the key of that number stands; a record of more than sixteen keys has none.
fn place_of(i: Instrument, key: u8) -> Option<usize>
    ensures { result ≡ cond (has_key i key) (Some (index_of i key)) None }
{
    if i.key_count > 16 {
        return None;
    }
    key_index(i, key)
}

pub fn has_key(i: Instrument, key: u8) -> bool
    ensures { result ≡ has_key i key }
{
    place_of(i, key).is_some()
}

// The key of that number gets the weight; nothing changes where there is none.
pub fn set_weight(i: Instrument, key: u8, weight: f64) -> Instrument
    ensures { result ≡ weighted i key weight }
{
    let mut instrument = i;
    if let Some(at) = place_of(i, key) {
        instrument.keys[at].weight = weight;
    }
    instrument
}

fn has_keys(i: Instrument, keys: &[u8]) -> bool
    ensures { result ≡ list_all (has_key i) keys.now }
{
    keys.iter().all(|key| has_key(i, *key))
}

// Whether there are as many weights as keys and the instrument has every key.
pub fn are_whole(i: Instrument, keys: &[u8], weights: &[f64]) -> bool
    ensures { result ≡ whole_pairs i keys.now weights.now }
{
    (keys.len() == weights.len()) & has_keys(i, keys)
}

// Pair by pair, in order, as far as both go: of a key named twice the later weight stands.
pub fn set_weights(i: Instrument, keys: &[u8], weights: &[f64]) -> Instrument
    ensures { result ≡ weighted_by i keys.now weights.now }
{
    keys.iter()
        .zip(weights)
        .fold(i, |set, (key, weight)| set_weight(set, *key, *weight))
}
