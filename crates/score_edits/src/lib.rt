// Document 01, "The session": a score is the first `count` of 64 timed events. Where insert puts an event, what remove leaves, and the
// score's part of refusal 7.
#![tactic(auto)]

ghost use Rattle.std.specs.Prelude.{◌≡◌, ◌++◌, ◌+◌, ◌-◌, ◌≤◌, ◌<◌, take, drop, length};
ghost use Rattle.score_edits.specs.Edits.{rank_of, may_precede, sound_velocity, sound_event, sound_score, place_of, placed, removed};

use score::{Event, TimedEvent};

// No position lies above the end (refusal 11).
pub const END: u64 = 9007199254740992;

// Where an event's kind stands among those of its position: a release acts first, a strike last. The kind's number that crosses to C is another.
#[tactic(auto, unfolding(crate::specs::Edits::rank_of))]
fn rank_of(event: Event) -> u64
    ensures { result ≡ rank_of event }
{
    match event {
        Event::NoteOff { .. } => 0,
        Event::HandDamp { .. } => 1,
        Event::Pedal(_) => 2,
        Event::NoteOn { .. } => 3,
    }
}

// Whether x may stand before y in a score. Positions are compared as they are: fields are open, and no sum of position and rank would fit.
// It is no order of the events themselves, which would have to tell two strikes by their velocities.
fn may_precede(x: &TimedEvent, y: &TimedEvent) -> bool
    ensures { result ≡ may_precede x.now y.now }
{
    (x.position, rank_of(x.event)) <= (y.position, rank_of(y.event))
}

// Whether a strike's velocity is no NaN and from −100 to 100.
pub fn is_sound_velocity(event: Event) -> bool
    ensures { result ≡ sound_velocity event }
{
    match event {
        Event::NoteOn { velocity, .. } => (-100.0 <= velocity) & (velocity <= 100.0),
        _ => true,
    }
}

#[tactic(auto, unfolding(crate::specs::Edits::sound_event_to))]
fn is_sound_event(timed: &TimedEvent) -> bool
    ensures { result ≡ sound_event timed.now }
{
    (timed.position <= END) & is_sound_velocity(timed.event)
}

// Whether the events keep the order, no position lies above the end, and every velocity is sound.
pub fn is_sound_score(score: &[TimedEvent]) -> bool
    ensures { result ≡ sound_score score.now }
{
    score.is_sorted_by(may_precede) & score.iter().all(is_sound_event)
}

// Where an event is placed: after all that may precede it.
fn place_of(score: &[TimedEvent], timed: &TimedEvent) -> usize
    ensures { (result ≡ place_of score.now timed.now) × (result ≤ length score.now) }
{
    score.iter().take_while(|x| may_precede(x, timed)).count()
}

// The events with one more; past the score nothing moves. The array comes with its count, since an edit writes past the count.
pub fn place_event(events: [TimedEvent; 64], count: usize, timed: TimedEvent) -> [TimedEvent; 64]
    requires { count < 64 }
    ensures { result ≡ placed (take count events) timed ++ drop (count + 1) events }
{
    let place = place_of(&events[..count], &timed);
    let mut out = events;
    out[place] = timed;
    out[place + 1..count + 1].copy_from_slice(&events[place..count]);
    out
}

// The events with the one at `index` gone; from the score's last place on nothing moves.
pub fn remove_event(events: [TimedEvent; 64], count: usize, index: usize) -> [TimedEvent; 64]
    requires { (index < count) × (count ≤ 64) }
    ensures { result ≡ removed (take count events) index ++ drop (count - 1) events }
{
    let mut out = events;
    out[index..count - 1].copy_from_slice(&events[index + 1..count]);
    out
}
