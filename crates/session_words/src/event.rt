// An event by its numbers, a timed event as words, and whether numbers and words are theirs.
ghost use Rattle.std.specs.Prelude.{◌≡◌, cond};
ghost use Rattle.session_words.specs.Layout.{timed_size};
ghost use Rattle.session_words.specs.Session.{event_of, is_event, event_words, timed_words, timed_of, is_timed};

use crate::words::{Words, put_items};
use score::{Event, TimedEvent};

// Kinds: 0 a strike, 1 a release, 2 the pedal, whose key is 1 for down, 3 a hand damp.
pub fn is_event(kind: u64, key: u64) -> bool
    ensures { result ≡ is_event kind key }
{
    match kind {
        2 => key <= 1,
        _ => kind <= 3 && key <= 255,
    }
}

// An event for any numbers, as words that count for nothing may hold them.
pub fn event_of(kind: u64, key: u64, velocity: f64) -> Event
    ensures { result ≡ event_of kind key velocity }
{
    let number = (key % 256) as u8;
    match kind {
        0 => Event::NoteOn {
            key: number,
            velocity,
        },
        1 => Event::NoteOff { key: number },
        2 => Event::Pedal(key == 1),
        _ => Event::HandDamp { key: number },
    }
}

// The event of a kind, a key and a velocity; none where the numbers are no event's.
pub fn checked_event(kind: u64, key: u64, velocity: f64) -> Option<Event>
    ensures { result ≡ cond (is_event kind key) (Some (event_of kind key velocity)) None }
{
    if is_event(kind, key) {
        Some(event_of(kind, key, velocity))
    } else {
        None
    }
}

fn numbers_of(event: Event) -> [u64; 3]
    ensures { result ≡ event_words event }
{
    match event {
        Event::NoteOn { key, velocity } => [0, u64::from(key), little_endian::bits_of(velocity)],
        Event::NoteOff { key } => [1, u64::from(key), 0],
        Event::Pedal(down) => [2, u64::from(down), 0],
        Event::HandDamp { key } => [3, u64::from(key), 0],
    }
}

impl Words for TimedEvent {
    const SIZE: usize = 4;

    ghost SIZE = { timed_size };

    ghost words_of = { timed_words };

    ghost value_of = { timed_of };

    ghost has_meaning = { is_timed };

    fn put(&self, words: &mut [u64], at: usize) {
        self.position.put(words, at);
        put_items(&numbers_of(self.event), words, at + 1);
    }

    fn read(words: &[u64], at: usize) -> TimedEvent {
        let kind = u64::read(words, at + 1);
        let key = u64::read(words, at + 2);
        let velocity = f64::read(words, at + 3);
        TimedEvent {
            position: u64::read(words, at),
            event: event_of(kind, key, velocity),
        }
    }

    fn stands_at(words: &[u64], at: usize) -> bool {
        is_event(u64::read(words, at + 1), u64::read(words, at + 2))
    }
}
