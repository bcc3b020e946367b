// A session as words, and whether words are one's.
ghost use Rattle.std.specs.Prelude.{◌≡◌};
ghost use Rattle.session_words.specs.Layout.{session_size};
ghost use Rattle.session_words.specs.Session.{words_of, session_of, counted_events, has_meaning};

use crate::words::{Words, all_stand, items_at, put_items};
use score::{Piano, TimedEvent};
use session_cues::Cue;
use session_record::Session;

const EVENTS_OFFSET: usize = 2;

const CUES_OFFSET: usize = EVENTS_OFFSET + 64 * TimedEvent::SIZE;

const PIANO_OFFSET: usize = CUES_OFFSET + 4 * Cue::SIZE;

fn counted_events(count: u64) -> usize
    ensures { result ≡ counted_events count }
{
    count.min(64) as usize
}

// Events past the count may hold anything.
impl Words for Session {
    const SIZE: usize = PIANO_OFFSET + Piano::SIZE;

    ghost SIZE = { session_size };

    ghost words_of = { words_of };

    ghost value_of = { session_of };

    ghost has_meaning = { has_meaning };

    fn put(&self, words: &mut [u64], at: usize) {
        self.t.put(words, at);
        (self.count as u64).put(words, at + 1);
        put_items(&self.events, words, at + EVENTS_OFFSET);
        put_items(&self.cues, words, at + CUES_OFFSET);
        self.piano.put(words, at + PIANO_OFFSET);
    }

    fn read(words: &[u64], at: usize) -> Session {
        Session {
            t: u64::read(words, at),
            count: u64::read(words, at + 1) as usize,
            events: items_at(words, at + EVENTS_OFFSET),
            cues: items_at(words, at + CUES_OFFSET),
            piano: Piano::read(words, at + PIANO_OFFSET),
        }
    }

    fn stands_at(words: &[u64], at: usize) -> bool {
        let count = counted_events(u64::read(words, at + 1));
        let events = all_stand::<TimedEvent>(words, at + EVENTS_OFFSET, count);
        let cues = all_stand::<Cue>(words, at + CUES_OFFSET, 4);
        let piano = Piano::stands_at(words, at + PIANO_OFFSET);
        events & cues & piano
    }
}
