// The passes of one sample over all strings: each takes the strings' parts one after the other, and lends each string its own. Where
// a second list is written its places are counted by `enumerate`: of what went through `iter_mut().zip(..)` a proof knows nothing.
// That the designs fit and the indices are theirs are clauses, and no struct's: the laws speak of lists that need not fit.
#![tactic(auto)]

ghost use Rattle.std.specs.Prelude.{◌≡◌, ◌+◌, ◌≤◌, length, take};
ghost use Rattle.strings.specs.Strings.{AllFit, Indexed, cells_of, turned_all, force_all, no_force, bridge_all, bridge_force};
ghost use Rattle.float.specs.Float.{zero};

use points::{Constants, Flight, ForceSum};
use string::{Indices, StringAt, StringDesign};

// The indices of a string's lines before they are computed, and past the strings.
const UNINDEXED: Indices = Indices { a: 0, b: 0, c: 0 };

// The indices of the strings' lines at sample t, each by a division: once for a stretch of samples. The strings' stand in front.
pub fn first_indices(designs: &[StringDesign], t: u64) -> [Indices; 32]
    requires all_fit { AllFit designs.now }
    ensures { Indexed designs.now (take (length designs.now) result) t }
{
    let mut indices = [UNINDEXED; 32];
    for (i, d) in designs.iter().enumerate() {
        indices[i] = d.indices_at(t);
    }
    indices
}

// Carries them on from sample t to the next.
pub fn next_indices(designs: &[StringDesign], indices: &mut [Indices], t: u64)
    requires all_fit { AllFit designs.now }
    requires indexed { Indexed designs.now indices.old t }
    ensures { Indexed designs.now indices.new (t + 1) }
{
    for (i, d) in designs.iter().enumerate() {
        let s = StringAt {
            design: *d,
            indices: indices[i],
            t,
        };
        indices[i] = s.next_indices();
    }
}

// All hammer and damper points, and the nuts.
#[tactic(auto, using(crate::specs::Walk::at_fits))]
pub fn strike_strings(
    part: &mut [f64],
    c: Constants,
    hammer: Option<Flight>,
    damper_r: &[f64; 16],
    designs: &[StringDesign],
    indices: &[Indices],
    t: u64,
) -> ForceSum
    requires all_fit { AllFit designs.now }
    requires indexed { Indexed designs.now indices.now t }
    requires has_cells { cells_of designs.now ≤ length part.old }
    ensures { (part.new ≡ turned_all c hammer damper_r.now designs.now t part.old)
        × (result ≡ force_all c hammer designs.now t part.old no_force) }
{
    let mut at = 0;
    let mut sum = ForceSum {
        force_sum: 0.0,
        any_contact: false,
    };
    for (i, d) in designs.iter().enumerate() {
        let end = at + d.layout().size;
        let s = StringAt {
            design: *d,
            indices: indices[i],
            t,
        };
        let f = points::strike_string(&mut part[at..end], c, hammer, s, damper_r[d.key]);
        sum = sum.with(f);
        at = end;
    }
    sum
}

// All bridge ends, of each key's speed v_b; the force on the bridge is returned.
#[tactic(auto, using(crate::specs::Walk::at_fits))]
pub fn bridge_strings(
    part: &mut [f64],
    v_in: &[f64],
    v_b: &[f64; 16],
    designs: &[StringDesign],
    indices: &[Indices],
    z: f64,
    t: u64,
) -> f64
    requires all_fit { AllFit designs.now }
    requires indexed { Indexed designs.now indices.now t }
    requires has_cells { cells_of designs.now ≤ length part.old }
    requires has_v_in { length designs.now ≤ length v_in.now }
    ensures { (part.new ≡ bridge_all v_b.now v_in.now designs.now t part.old)
        × (result ≡ bridge_force z v_b.now v_in.now designs.now part.old zero) }
{
    let mut at = 0;
    let mut f_bridge = 0.0;
    for (i, d) in designs.iter().enumerate() {
        let end = at + d.layout().size;
        let v = v_in[i];
        let y = v_b[d.key];
        let s = StringAt {
            design: *d,
            indices: indices[i],
            t,
        };
        s.send_back(&mut part[at..end], y - v);
        f_bridge += z * (2.0 * v - y);
        at = end;
    }
    f_bridge
}
