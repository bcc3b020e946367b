// A cue as words, and whether words are a cue's.
ghost use Rattle.session_words.specs.Layout.{cue_size};
ghost use Rattle.session_words.specs.Session.{cue_words, cue_of, is_cue};

use crate::words::Words;
use score::Piano;
use session_cues::Cue;

const PIANO_OFFSET: usize = 2;

// A cue that is not kept may hold anything.
impl Words for Cue {
    const SIZE: usize = PIANO_OFFSET + Piano::SIZE;

    ghost SIZE = { cue_size };

    ghost words_of = { cue_words };

    ghost value_of = { cue_of };

    ghost has_meaning = { is_cue };

    fn put(&self, words: &mut [u64], at: usize) {
        self.kept.put(words, at);
        self.position.put(words, at + 1);
        self.piano.put(words, at + PIANO_OFFSET);
    }

    fn read(words: &[u64], at: usize) -> Cue {
        Cue {
            kept: bool::read(words, at),
            position: u64::read(words, at + 1),
            piano: Piano::read(words, at + PIANO_OFFSET),
        }
    }

    fn stands_at(words: &[u64], at: usize) -> bool {
        match words[at] {
            0 => true,
            1 => Piano::stands_at(words, at + PIANO_OFFSET),
            _ => false,
        }
    }
}
