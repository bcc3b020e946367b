// The two points of a string where something touches it: the hammer's, whose force is solved for string by string, and the damper's.
#![tactic(auto)]

ghost use Rattle.std.specs.Prelude.{◌≡◌, length};
ghost use Rattle.string.specs.String.{size_of, reads_of};
ghost use Rattle.points.specs.Points.{remembered, touched, contact_of, contact_at, damped_by, turned, summed};

use float::{min, positive_part};
use hammer::{Hammer, contact_force};
use power::power;
use string::{Reads, StringAt};

// What the rules compute from the instrument's numbers before the first sample; two_z is 2 z.
#[derive(Clone, Copy)]
pub struct Constants {
    pub dt: f64,
    pub z: f64,
    pub two_z: f64,
    pub yz: f64,
    pub hammer: Hammer,
}

// A hammer that flies: the index of the key that it was struck at, where it is, and its speed. Where none flies there is no Flight.
#[derive(Clone, Copy)]
pub struct Flight {
    pub key_index: usize,
    pub y_h: f64,
    pub v_h: f64,
}

// A contact's force, and the felt's memory after it.
#[derive(Clone, Copy)]
pub struct Contact {
    pub force: f64,
    pub memory: f64,
}

// The contacts of a sample, summed over the strings. The flag is not the sum's: a sum has its value with no contact too.
#[derive(Clone, Copy)]
pub struct ForceSum {
    pub force_sum: f64,
    pub any_contact: bool,
}

impl ForceSum {
    // One more string's force, f.
    #[tactic(auto, unfolding(crate::specs::Points::summed))]
    pub fn with(self, f: f64) -> ForceSum
        ensures { result ≡ summed self f }
    {
        ForceSum {
            force_sum: self.force_sum + f,
            any_contact: f > 0.0 || self.any_contact,
        }
    }
}

fn memory_after(c: Constants, memory: f64, xp: f64) -> f64
    ensures { result ≡ remembered c memory xp }
{
    let hammer = c.hammer;
    if hammer.tau > 0.0 {
        memory + min(c.dt / hammer.tau, 1.0) * (xp - memory)
    } else {
        memory
    }
}

fn touch(c: Constants, h: Flight, y_s: f64, memory: f64, r: Reads) -> Contact
    ensures { result ≡ touched c h.y_h h.v_h y_s memory r }
{
    let hammer = c.hammer;
    let c0 = (h.y_h - y_s) + c.dt * (h.v_h - r.a - r.b);
    let c1 = c.dt / c.two_z;
    let force = contact_force(hammer, hammer.eps * memory, c0, c1);
    let xp = power(positive_part(c0 - c1 * force), hammer.exponent);
    let after = memory_after(c, memory, xp);
    Contact {
        force,
        memory: after,
    }
}

// A string feels the hammer only where the hammer flies at its key.
#[tactic(auto, unfolding(crate::specs::Points::contact_of))]
fn feel(
    c: Constants,
    hammer: Option<Flight>,
    key: usize,
    y_s: f64,
    memory: f64,
    r: Reads,
) -> Contact
    ensures { result ≡ contact_of c hammer key y_s memory r }
{
    match hammer {
        Some(h) if h.key_index == key => touch(c, h, y_s, memory, r),
        _ => Contact { force: 0.0, memory },
    }
}

// What a damper of resistance damper_r injects.
fn inject(c: Constants, damper_r: f64, r: Reads) -> f64
    ensures { result ≡ damped_by c damper_r r }
{
    -damper_r * ((r.c + r.d) / (1.0 + damper_r / c.two_z)) / c.two_z
}

// One string in one turn: its lines read, both points, and its nut.
pub fn strike_string(
    part: &mut [f64],
    c: Constants,
    hammer: Option<Flight>,
    s: StringAt,
    damper_r: f64,
) -> f64
    requires { length part.old ≡ size_of s.design }
    ensures force { result ≡ (contact_at c hammer s.design (reads_of s.design s.t part.old) part.old).force }
    ensures cells { part.new ≡ turned c hammer damper_r s.design s.t part.old }
{
    let at = s.design.layout();
    let r = s.read(part);
    let y_s = part[at.y_s];
    let touch = feel(c, hammer, s.design.key, y_s, part[at.memory], r);
    let inject_h = touch.force / c.two_z;
    let inject_d = inject(c, damper_r, r);
    part[at.memory] = touch.memory;
    part[at.y_s] = y_s + c.dt * (r.a + r.b + inject_h);
    s.write(part, r, inject_h, inject_d);
    touch.force
}
