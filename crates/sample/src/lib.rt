// One sample, from the dampers' move to the bridge; the events come before it.
#![tactic(auto)]

ghost use Rattle.std.specs.Prelude.{◌≡◌, false, get_or};
ghost use Rattle.strings.specs.Strings.{Indexed};
ghost use Rattle.sample.specs.Sample.{Ready, Bridged, CanCount, model_at, sampled, step_of, hammer_after, moved, counted_for};

use float::max;
use keys::KeyConstants;
use points::{Constants, Flight, ForceSum};
use string::{Indices, StringDesign};

// The hammer, if one flies, and the greatest force that it met.
#[derive(Clone, Copy)]
pub struct Motion {
    pub hammer: Option<Flight>,
    pub peak_force: f64,
}

// What the samples are computed with: an instrument's constants, its keys' and its strings'.
#[derive(Clone, Copy)]
pub struct Tables<'a> {
    pub constants: Constants,
    pub keys: &'a [KeyConstants],
    pub designs: &'a [StringDesign],
}

// What a sample gives: the hammer after it, the output, the force that it pushes, if a hammer flew, and whether that hammer was in contact.
#[derive(Clone, Copy)]
pub struct Sampled {
    pub motion: Motion,
    pub out: f64,
    pub force: Option<f64>,
    pub contact: bool,
}

// The bridge: each key's sum, the weighted total, each key's speed, and the strings' ends.
fn bridge(part: &mut [f64], v_in: &[f64], tables: Tables<'_>, indices: &[Indices], t: u64) -> f64
    requires ready { Ready (model_at tables) part.old v_in.now }
    requires indexed { Indexed tables.designs.now indices.now t }
    ensures { Bridged (model_at tables.entry) t v_in.now part.old part.new result }
{
    let Tables {
        constants,
        keys,
        designs,
    } = tables;
    let mut v_b = [0.0; 16];
    keys::sum_keys(v_in, designs, &mut v_b);
    let total = keys::weighted_total(keys, &v_b);
    keys::bridge_speeds(keys, constants.yz, total, &mut v_b);
    strings::bridge_strings(part, v_in, &v_b, designs, indices, constants.z, t)
}

// A hammer that flies back with no string in contact is gone.
fn hammer_after(any_contact: bool, h: Flight) -> Option<Flight>
    ensures { result ≡ hammer_after any_contact h }
{
    if !any_contact && h.v_h < 0.0 {
        None
    } else {
        Some(h)
    }
}

// The hammer's motion under the strings' forces.
#[tactic(auto, unfolding(crate::specs::Sample::moved))]
fn move_hammer(c: Constants, motion: Motion, f: ForceSum) -> Motion
    ensures { result ≡ moved c motion.hammer motion.peak_force f }
{
    let Some(h) = motion.hammer else {
        return motion;
    };
    let v_h = h.v_h - c.dt * f.force_sum / c.hammer.mass;
    let y_h = h.y_h + c.dt * v_h;
    let peak_force = if f.any_contact {
        max(motion.peak_force, f.force_sum)
    } else {
        motion.peak_force
    };
    Motion {
        hammer: hammer_after(f.any_contact, Flight { y_h, v_h, ..h }),
        peak_force,
    }
}

// Sample t, of the lines' indices at t. Scratch takes each string's v_in; `down` says which keys' dampers are to be down.
pub fn sample(
    part: &mut [f64],
    scratch: &mut [f64],
    damper_r: &mut [f64; 16],
    down: &[bool; 16],
    tables: Tables<'_>,
    indices: &[Indices],
    motion: Motion,
    t: u64,
) -> Sampled
    requires ready { Ready (model_at tables) part.old scratch.old }
    requires indexed { Indexed tables.designs.now indices.now t }
    ensures { step_of result damper_r.new part.new
        ≡ sampled (model_at tables.entry) (λ k. get_or down.now k false) t damper_r.old motion part.old }
{
    let Tables {
        constants,
        keys,
        designs,
    } = tables;
    let hammer = motion.hammer;
    keys::move_dampers(keys, down, damper_r);
    rows::filter_strings(part, scratch, designs, indices, t);
    let f = strings::strike_strings(part, constants, hammer, damper_r, designs, indices, t);
    let after = move_hammer(constants, motion, f);
    let out = bridge(part, scratch, tables, indices, t);
    Sampled {
        motion: after,
        out,
        force: hammer.map(|_| f.force_sum),
        contact: hammer.is_some() & f.any_contact,
    }
}

// A sample in contact counts for the key of the hammer that flies.
#[tactic(auto, unfolding(crate::specs::Sample::CanCount, crate::specs::Sample::counted_for))]
pub fn count_contact(contact_samples: &mut [u64; 16], h: Option<Flight>, contact: bool)
    requires { CanCount contact_samples.old h }
    ensures { contact_samples.new ≡ counted_for h contact contact_samples.old }
{
    if let Some(h) = h
        && contact
    {
        contact_samples[h.key_index] += 1;
    }
}
