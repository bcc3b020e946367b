// Document 01, "The session": "a set of at most four cue positions", each with the small state held for it. Slot i keeps its
// cells in part i + 1 of work memory, so that no part is numbered in the record.
#![tactic(auto)]

ghost use Rattle.std.specs.Prelude.{◌≡◌, map, position};
ghost use Rattle.score.specs.Contacts.{hammer_on};
ghost use Rattle.positions.specs.Positions.{up_to, greatest, above};
ghost use Rattle.session_cues.specs.Cues.{kept_of, stands_at, is_free, drop_above, sound_piano, sound_cue, sound_cues};

use points::Flight;
use score::Piano;
use score_edits::END;

#[derive(Clone, Copy)]
pub struct Cue {
    // A flag and no Option: in the words that cross to C a dropped slot keeps its position and its piano, as
    // `drop_above` promises.
    pub kept: bool,
    pub position: u64,
    pub piano: Piano,
}

impl Cue {
    // Whether a cue is kept at x.
    fn stands_at(&self, x: u64) -> bool
        ensures { result ≡ stands_at x self.now }
    {
        self.kept & (x == self.position)
    }
}

// The first slot that keeps a cue at x.
pub fn slot_at(cues: &[Cue], x: u64) -> Option<usize>
    ensures { result ≡ position (stands_at x) cues.now }
{
    cues.iter().position(|cue| cue.stands_at(x))
}

// The first slot that keeps no cue.
pub fn free_slot(cues: &[Cue]) -> Option<usize>
    ensures { result ≡ position is_free cues.now }
{
    cues.iter().position(|cue| !cue.kept)
}

// The greatest of 0 and the kept cues not above p.
pub fn nearest(cues: &[Cue], p: u64) -> u64
    ensures { result ≡ greatest (up_to p (kept_of cues.now)) }
{
    cues.iter()
        .filter(|cue| cue.kept & (cue.position <= p))
        .map(|cue| cue.position)
        .max()
        .unwrap_or(0)
}

// The cues after an edit at q: those above q are dropped.
pub fn drop_above(cues: &mut [Cue], q: u64)
    ensures { cues.new ≡ map (drop_above q) cues.old }
{
    for cue in cues.iter_mut() {
        cue.kept &= cue.position <= q;
    }
}

// How many cues an edit at q drops.
pub fn count_above(cues: &[Cue], q: u64) -> u64
    ensures { result ≡ above q (kept_of cues.now) }
{
    cues.iter()
        .filter(|cue| cue.kept & (q < cue.position))
        .count() as u64
}

// Whether the hammer, if one flies, is on one of `keys` keys.
#[tactic(auto, unfolding(score::specs::Contacts::hammer_on))]
fn is_hammer_on(keys: usize, hammer: Option<Flight>) -> bool
    ensures { result ≡ hammer_on keys hammer }
{
    match hammer {
        Some(flight) => flight.key_index < keys,
        None => true,
    }
}

// Whether a piano can be held for a position: its hammer is on a key that is there, the sum of its counts not above the position.
pub fn is_sound_piano(keys: usize, position: u64, piano: Piano) -> bool
    ensures { result ≡ sound_piano keys position piano }
{
    let contacts = score::contacts(piano.contact_samples, keys, position);
    contacts.is_some() & is_hammer_on(keys, piano.motion.hammer)
}

#[tactic(auto, unfolding(crate::specs::Cues::sound_cue_to))]
fn is_sound_cue(keys: usize, cue: &Cue) -> bool
    ensures { result ≡ sound_cue keys cue.now }
{
    let held = is_sound_piano(keys, cue.position, cue.piano);
    !cue.kept | ((cue.position <= END) & held)
}

// The cues' part of refusal 7: each is sound, and none is kept again in a later slot.
pub fn are_sound(keys: usize, cues: &[Cue]) -> bool
    ensures { result ≡ sound_cues keys cues.now }
{
    let mut left = cues;
    while let Some((cue, later)) = left.split_first() {
        let again = cue.kept & slot_at(later, cue.position).is_some();
        if again | !is_sound_cue(keys, cue) {
            return false;
        }
        left = later;
    }
    true
}
