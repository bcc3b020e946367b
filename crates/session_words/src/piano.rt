// A piano's small state as words, and whether words are one's.
ghost use Rattle.std.specs.Prelude.{◌≡◌};
ghost use Rattle.session_words.specs.Layout.{hammer_size, motion_size, piano_size};
ghost use Rattle.session_words.specs.Piano.{hammer_words, hammer_from, motion_words, motion_of, piano_words, piano_of, is_flag, is_piano};

use crate::words::{Words, all_stand, items_at, put_items};
use points::Flight;
use sample::Motion;
use score::Piano;

const PEAK_OFFSET: usize = <Option<Flight>>::SIZE;

const HAND_DAMPED_OFFSET: usize = 16;

const DAMPERS_OFFSET: usize = HAND_DAMPED_OFFSET + 16;

const CONTACTS_OFFSET: usize = DAMPERS_OFFSET + 16;

const PEDAL_OFFSET: usize = CONTACTS_OFFSET + 16;

const MOTION_OFFSET: usize = PEDAL_OFFSET + 1;

fn numbers_of(hammer: Option<Flight>) -> [u64; 4]
    ensures { result ≡ hammer_words hammer }
{
    match hammer {
        None => [0, 0, 0, 0],
        Some(flight) => [
            1,
            flight.key_index as u64,
            little_endian::bits_of(flight.y_h),
            little_endian::bits_of(flight.v_h),
        ],
    }
}

// Any words may follow the flag of a hammer at rest.
impl Words for Option<Flight> {
    const SIZE: usize = 4;

    ghost SIZE = { hammer_size };

    ghost words_of = { hammer_words };

    ghost value_of = { hammer_from };

    ghost has_meaning = { is_flag };

    fn put(&self, words: &mut [u64], at: usize) {
        put_items(&numbers_of(*self), words, at);
    }

    fn read(words: &[u64], at: usize) -> Option<Flight> {
        if bool::read(words, at) {
            Some(Flight {
                key_index: u64::read(words, at + 1) as usize,
                y_h: f64::read(words, at + 2),
                v_h: f64::read(words, at + 3),
            })
        } else {
            None
        }
    }

    fn stands_at(words: &[u64], at: usize) -> bool {
        bool::stands_at(words, at)
    }
}

impl Words for Motion {
    const SIZE: usize = PEAK_OFFSET + 1;

    ghost SIZE = { motion_size };

    ghost words_of = { motion_words };

    ghost value_of = { motion_of };

    ghost has_meaning = { is_flag };

    fn put(&self, words: &mut [u64], at: usize) {
        self.hammer.put(words, at);
        self.peak_force.put(words, at + PEAK_OFFSET);
    }

    fn read(words: &[u64], at: usize) -> Motion {
        Motion {
            hammer: <Option<Flight>>::read(words, at),
            peak_force: f64::read(words, at + PEAK_OFFSET),
        }
    }

    fn stands_at(words: &[u64], at: usize) -> bool {
        <Option<Flight>>::stands_at(words, at)
    }
}

impl Words for Piano {
    const SIZE: usize = MOTION_OFFSET + Motion::SIZE;

    ghost SIZE = { piano_size };

    ghost words_of = { piano_words };

    ghost value_of = { piano_of };

    ghost has_meaning = { is_piano };

    fn put(&self, words: &mut [u64], at: usize) {
        put_items(&self.held, words, at);
        put_items(&self.hand_damped, words, at + HAND_DAMPED_OFFSET);
        put_items(&self.damper_r, words, at + DAMPERS_OFFSET);
        put_items(&self.contact_samples, words, at + CONTACTS_OFFSET);
        self.pedal.put(words, at + PEDAL_OFFSET);
        self.motion.put(words, at + MOTION_OFFSET);
    }

    fn read(words: &[u64], at: usize) -> Piano {
        Piano {
            held: items_at(words, at),
            hand_damped: items_at(words, at + HAND_DAMPED_OFFSET),
            damper_r: items_at(words, at + DAMPERS_OFFSET),
            contact_samples: items_at(words, at + CONTACTS_OFFSET),
            pedal: bool::read(words, at + PEDAL_OFFSET),
            motion: Motion::read(words, at + MOTION_OFFSET),
        }
    }

    fn stands_at(words: &[u64], at: usize) -> bool {
        let held = all_stand::<bool>(words, at, 16);
        let hand_damped = all_stand::<bool>(words, at + HAND_DAMPED_OFFSET, 16);
        let pedal = bool::stands_at(words, at + PEDAL_OFFSET);
        let motion = Motion::stands_at(words, at + MOTION_OFFSET);
        held & hand_damped & pedal & motion
    }
}
