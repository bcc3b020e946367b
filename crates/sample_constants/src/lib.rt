// What the samples are computed with, from an instrument's record: the constants, and the tables of its strings and keys, filled once a call.
#![tactic(auto)]

ghost use Rattle.std.specs.Prelude.{◌≡◌, ◌≤◌, ◌<◌, length, unwrap_or};
ghost use Rattle.instrument.specs.Valid.{key_at};
ghost use Rattle.sample_constants.specs.Model.{constants_of, key_constants, string_of, owner_of, string_in, StringsFilled, KeysFilled};

use cuts::cut_string;
use filter::LoopFilter;
use float::{max, min};
use instrument::Instrument;
use instrument_fields::{Common, KeyDesign, LoopDesign};
use keys::KeyConstants;
use points::Constants;
use string::StringDesign;

#[tactic(auto, unfolding(crate::specs::Model::constants_of))]
pub fn constants_of(common: Common) -> Constants
    ensures { result ≡ constants_of common }
{
    Constants {
        dt: 1.0 / common.fs,
        z: common.z,
        two_z: 2.0 * common.z,
        yz: common.yz,
        hammer: common.hammer,
    }
}

// The damper's numbers and the bridge's divisor of a key.
#[tactic(auto, unfolding(crate::specs::Model::key_constants))]
fn key_constants(common: Common, key: KeyDesign) -> KeyConstants
    ensures { result ≡ key_constants common key }
{
    let r_base = common.damper.rho * 2.0 * common.z;
    let ramp = max(common.damper.ramp_s * common.fs, 1.0);
    let r_max = min(r_base * key.damper_scale, 2.0 * common.z);
    KeyConstants {
        weight: key.weight,
        r_max,
        step: r_max / ramp,
        divisor: 1.0 + common.yz * std::num::nearest_usize_to_f64(key.strings),
    }
}

// The keys' constants; the first `key_count` are the instrument's.
pub fn key_table(instrument: &Instrument) -> [KeyConstants; 16]
    requires { instrument.now.key_count ≤ 16 }
    ensures { KeysFilled instrument.now result }
{
    std::array::from_fn(|k| key_constants(instrument.common, instrument.keys[k]))
}

// The index of the key that a string belongs to, as the keys' strings stand one key's after another's, if the keys have so many.
fn owner(keys: &[KeyDesign], string: usize) -> Option<usize>
    ensures { unwrap_or result 0 ≡ owner_of (λ k. (key_at keys.now k).strings) 0 (length keys.now) string }
{
    let mut left = string;
    for (k, key) in keys.iter().enumerate() {
        if left < key.strings {
            return Some(k);
        }
        left -= key.strings;
    }
    None
}

// A string of key k: its cuts by the key's ratios, and its filter's coefficients.
#[tactic(auto, unfolding(crate::specs::Model::string_of))]
fn design_of(l: LoopDesign, key: KeyDesign, k: usize) -> StringDesign
    ensures { result ≡ string_of l key k }
{
    let cuts = cut_string(l.n, l.phi, key.strike_ratio, key.damper_ratio);
    StringDesign {
        na: cuts.na,
        nb: cuts.nb,
        nc: cuts.nc,
        ap_count: l.ap_count,
        key: k,
        filter: LoopFilter {
            thiran_a: l.thiran_a,
            ap_a: l.ap_a,
            loss_g: l.loss_g,
            loss_c: l.loss_c,
        },
    }
}

// The design of string i of an instrument. Of an accepted one each string has its key.
#[tactic(auto, unfolding(crate::specs::Model::string_in))]
fn string_design(instrument: &Instrument, i: usize) -> StringDesign
    requires keys { instrument.now.key_count ≤ 16 }
    requires i_in_bounds { i < 32 }
    ensures { result ≡ string_in instrument.now i }
{
    let k = owner(&instrument.keys[..instrument.key_count], i).unwrap_or(0);
    design_of(instrument.strings[i], instrument.keys[k], k)
}

// The strings' designs; the first `string_count` are the instrument's.
pub fn string_table(instrument: &Instrument) -> [StringDesign; 32]
    requires key_count_bound { instrument.now.key_count ≤ 16 }
    requires string_count_bound { instrument.now.string_count ≤ 32 }
    ensures { StringsFilled instrument.now result }
{
    std::array::from_fn(|i| string_design(instrument, i))
}
