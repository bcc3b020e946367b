// The score's events and what each does to the piano, and which of them act on a sample.
#![tactic(auto)]

ghost use Rattle.std.specs.Prelude.{◌≡◌, false, ℕ, ◌≤◌, ◌<◌, length, get_or};
ghost use Rattle.string.specs.String.{size_of};
ghost use Rattle.strings.specs.Strings.{cells_of};
ghost use Rattle.score.specs.Events.{State, is_down, AllDown, cleared, cleared_all, struck_key, held_to, hand_damped, pedal_to, Playable, applied, apply_all};
ghost use Rattle.score.specs.Score.{events_at, next_from};
ghost use Rattle.score.specs.Contacts.{Totals};

use instrument::{Instrument, key_index};
use points::Flight;
use sample::Motion;
use string::{Layout, StringDesign};

#[derive(Clone, Copy)]
pub enum Event {
    NoteOn { key: u8, velocity: f64 },
    NoteOff { key: u8 },
    Pedal(bool),
    HandDamp { key: u8 },
}

#[derive(Clone, Copy)]
pub struct TimedEvent {
    pub position: u64,
    pub event: Event,
}

// The first `count` events, in their order. An array with its count, since nothing here may allocate.
#[derive(Clone, Copy)]
pub struct Score {
    pub events: [TimedEvent; 64],
    pub count: usize,
}

// All of the piano's state that is not in its cells. Four arrays of one length: the session's words, which cross to C,
// have them so.
#[derive(Clone, Copy)]
pub struct Piano {
    pub held: [bool; 16],
    pub hand_damped: [bool; 16],
    pub damper_r: [f64; 16],
    pub contact_samples: [u64; 16],
    pub pedal: bool,
    pub motion: Motion,
}

// A string of key k forgets its contact.
#[tactic(auto, unfolding(crate::specs::Events::cleared))]
fn clear_string(part: &mut [f64], d: StringDesign, k: usize)
    requires { length part.old ≡ size_of d }
    ensures { part.new ≡ cleared k d part.old }
{
    if d.key == k {
        let Layout { y_s, memory, .. } = d.layout();
        part[y_s] = 0.0;
        part[memory] = 0.0;
    }
}

#[tactic(auto, using(strings::specs::Walk::at_fits))]
fn clear_strings(part: &mut [f64], designs: &[StringDesign], k: usize)
    requires { cells_of designs.now ≤ length part.old }
    ensures { part.new ≡ cleared_all k designs.now part.old }
{
    let mut at = 0;
    for d in designs {
        let end = at + d.layout().size;
        clear_string(&mut part[at..end], *d, k);
        at = end;
    }
}

// The piano with key k struck: the one hammer is replaced.
#[tactic(auto, unfolding(crate::specs::Events::struck_key))]
fn strike_key(mut piano: Piano, k: usize, velocity: f64) -> Piano
    requires { k < 16 }
    ensures { result ≡ struck_key k velocity piano }
{
    piano.held[k] = true;
    piano.hand_damped[k] = false;
    piano.motion.hammer = Some(Flight {
        key_index: k,
        y_h: 0.0,
        v_h: velocity,
    });
    piano
}

#[tactic(auto, unfolding(crate::specs::Events::held_to))]
fn release_key(mut piano: Piano, k: usize) -> Piano
    requires { k < 16 }
    ensures { result ≡ held_to false k piano }
{
    piano.held[k] = false;
    piano
}

#[tactic(auto, unfolding(crate::specs::Events::hand_damped))]
fn hand_damp_key(mut piano: Piano, k: usize) -> Piano
    requires { k < 16 }
    ensures { result ≡ hand_damped k piano }
{
    piano.hand_damped[k] = true;
    piano
}

#[tactic(auto, unfolding(crate::specs::Events::pedal_to))]
fn move_pedal(mut piano: Piano, down: bool) -> Piano
    ensures { result ≡ pedal_to down piano }
{
    piano.pedal = down;
    piano
}

// One event.
#[tactic(auto, unfolding(crate::specs::Events::applied))]
fn apply(
    part: &mut [f64],
    designs: &[StringDesign],
    instrument: Instrument,
    piano: Piano,
    event: Event,
) -> Piano
    requires { Playable instrument designs.now part.old }
    ensures { record { piano = result; cells = part.new }
        ≡ applied instrument designs.now event (record { piano = piano; cells = part.old }) }
{
    match event {
        Event::NoteOn { key, velocity } => match key_index(instrument, key) {
            Some(k) => {
                clear_strings(part, designs, k);
                strike_key(piano, k, velocity)
            }
            None => piano,
        },
        Event::NoteOff { key } => {
            key_index(instrument, key).map_or(piano, |k| release_key(piano, k))
        }
        Event::Pedal(down) => move_pedal(piano, down),
        Event::HandDamp { key } => {
            key_index(instrument, key).map_or(piano, |k| hand_damp_key(piano, k))
        }
    }
}

// The events at t, in the score's order.
pub fn apply_events(
    part: &mut [f64],
    designs: &[StringDesign],
    instrument: Instrument,
    events: &[TimedEvent],
    piano: Piano,
    t: u64,
) -> Piano
    requires { Playable instrument designs.now part.old }
    ensures { record { piano = result; cells = part.new }
        ≡ apply_all instrument designs.now (events_at events.now t) (record { piano = piano; cells = part.old }) }
{
    let mut p = piano;
    for e in events {
        if e.position == t {
            p = apply(part, designs, instrument, p, e.event);
        }
    }
    p
}

// The first position, from `from` on, where an event lies: the samples up to it need not look at the score.
pub fn next_event(events: &[TimedEvent], from: u64) -> Option<u64>
    ensures { result ≡ next_from events.now from }
{
    events
        .iter()
        .map(|e| e.position)
        .filter(|position| *position >= from)
        .min()
}

// Which keys' dampers are to be down; it changes with events alone.
pub fn dampers_down(instrument: Instrument, piano: Piano) -> [bool; 16]
    requires { instrument.key_count ≤ 16 }
    ensures { AllDown instrument piano result }
{
    std::array::from_fn(|k| {
        instrument.keys[k].has_damper && (piano.hand_damped[k] || !(piano.held[k] || piano.pedal))
    })
}

// The sum over so many keys, of which the first 16 can have a count; none where it passes the limit.
pub fn contacts(counts: [u64; 16], keys: usize, limit: u64) -> Option<u64>
    ensures { Totals keys counts limit result }
{
    let mut sum = 0u64;
    for count in &counts[..keys.min(16)] {
        sum = sum.checked_add(*count)?;
    }
    if sum <= limit { Some(sum) } else { None }
}
