// The keys: their dampers' moves, and the speeds at the bridge that their strings' sums give. Places are counted by `enumerate` where
// a second list is read or written: of `zip` with `iter_mut` a proof knows nothing, and with `iter` no more than this way.
#![tactic(auto)]

ghost use Rattle.std.specs.Prelude.{◌≡◌, ◌≤◌, false, length, get_or};
ghost use Rattle.strings.specs.Strings.{AllFit};
ghost use Rattle.keys.specs.Keys.{damped_of, dampers, sums_from, weighted_total, speed_of, speeds};

use float::clamp;
use string::StringDesign;

// A key's numbers: its weight, the damper's full resistance and its step a sample, and 1 + yz n for its n strings.
#[derive(Clone, Copy)]
pub struct KeyConstants {
    pub weight: f64,
    pub r_max: f64,
    pub step: f64,
    pub divisor: f64,
}

#[tactic(auto, unfolding(crate::specs::Keys::damped_of))]
fn damper_after(key: KeyConstants, down: bool, damper_r: f64) -> f64
    ensures { result ≡ damped_of key down damper_r }
{
    let goal = if down { key.r_max } else { 0.0 };
    damper_r + clamp(goal - damper_r, -key.step, key.step)
}

// Each key's damper moves towards where it is to be.
pub fn move_dampers(keys: &[KeyConstants], down: &[bool; 16], damper_r: &mut [f64; 16])
    requires { length keys.now ≤ 16 }
    ensures { damper_r.new ≡ dampers keys.now (λ k. get_or down.now k false) damper_r.old }
{
    for (k, key) in keys.iter().enumerate() {
        damper_r[k] = damper_after(*key, down[k], damper_r[k]);
    }
}

// Each string's v_in is added to its key's sum.
pub fn sum_keys(v_in: &[f64], designs: &[StringDesign], sums: &mut [f64; 16])
    requires all_fit { AllFit designs.now }
    requires has_v_in { length designs.now ≤ length v_in.now }
    ensures { sums.new ≡ sums_from designs.now v_in.now sums.old }
{
    for (i, d) in designs.iter().enumerate() {
        sums[d.key] += v_in[i];
    }
}

// The keys' sums, each times its key's weight.
pub fn weighted_total(keys: &[KeyConstants], sums: &[f64; 16]) -> f64
    requires { length keys.now ≤ 16 }
    ensures { result ≡ weighted_total keys.now sums.now }
{
    let mut total = 0.0;
    for (k, key) in keys.iter().enumerate() {
        total += key.weight * sums[k];
    }
    total
}

#[tactic(auto, unfolding(crate::specs::Keys::speed_of))]
fn bridge_speed(key: KeyConstants, yz: f64, total: f64, s_key: f64) -> f64
    ensures { result ≡ speed_of yz total key s_key }
{
    2.0 * yz * (s_key + key.weight * (total - key.weight * s_key)) / key.divisor
}

// Each key's speed at the bridge, in the place of its sum.
pub fn bridge_speeds(keys: &[KeyConstants], yz: f64, total: f64, sums: &mut [f64; 16])
    requires { length keys.now ≤ 16 }
    ensures { sums.new ≡ speeds yz total keys.now sums.old }
{
    for (k, key) in keys.iter().enumerate() {
        sums[k] = bridge_speed(*key, yz, total, sums[k]);
    }
}
