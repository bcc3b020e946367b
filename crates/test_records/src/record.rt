// The record that a row's words are: a session, then five numbers of the instrument and how many cells of scratch are
// lent. The instrument is the one that `rehearse` has inside.
use instrument::Instrument;
use little_endian::float_of;
use refusal::Refusal;
use session_record::Session;

// The session's words, as the crate session_words has them.
const SESSION: usize = session_words::LENGTH;

// Where each of the other words stands.
const STRINGS: usize = SESSION;

const KEYS: usize = STRINGS + 1;

const RATE: usize = KEYS + 1;

const EXPONENT: usize = RATE + 1;

const LAST_KEY: usize = EXPONENT + 1;

const LENT: usize = LAST_KEY + 1;

pub const WORDS: usize = LENT + 1;

// The instrument that `rehearse` has inside, with the numbers of the words; the program's own file is accepted.
pub fn instrument_of(words: &[u64; WORDS]) -> Result<Instrument, Refusal> {
    let mut i = instrument_file::read(embedded::instrument())?;
    i.string_count = words[STRINGS] as usize;
    i.key_count = words[KEYS] as usize;
    i.common.fs = float_of(words[RATE]);
    i.common.hammer.exponent = (words[EXPONENT] % 0x1_0000_0000) as u32;
    i.keys[15].key = (words[LAST_KEY] % 0x100) as u8;
    Ok(i)
}

pub fn session_in(words: &[u64; WORDS]) -> &[u64] {
    &words[..SESSION]
}

pub fn lent_of(words: &[u64; WORDS]) -> u64 {
    words[LENT]
}

// A session at 10 that keeps nothing.
fn right_session() -> Result<Session, Refusal> {
    let i = instrument_file::read(embedded::instrument())?;
    let mut work = [0.0; 25310];
    let mut scratch = [0.25; 22];
    let opened = session::open(i, &mut work);
    let there = session::go(i, opened.session, &mut work, &mut scratch, 10);
    Ok(there.session)
}

// The words of a right record: that session, and the instrument as it is.
pub fn right_words() -> Result<[u64; WORDS], Refusal> {
    let mut words = [0u64; WORDS];
    session_words::put_session(&mut words[..SESSION], right_session()?);
    words[STRINGS] = 22;
    words[KEYS] = 8;
    words[RATE] = 0x40e5_8880_0000_0000;
    words[EXPONENT] = 5;
    words[LENT] = 22;
    Ok(words)
}
