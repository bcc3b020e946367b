// The pairs KEY WEIGHT of the command line. They are as many as the system takes, so no table holds them: each pass reads their words anew.
use instrument::Instrument;
use program::arguments::{Arguments, Failure};
use program::system::{Program, System};
use refusal::Refusal;
use std::fmt::InlineText;
use std::{mem, str};

// What is wrong with a pair.
#[derive(Clone, Copy)]
enum Flaw {
    NoKey,
    NoWeight,
    Twice,
    Absent,
}

impl Flaw {
    // The word that it is wrong with.
    fn place(self, i: usize) -> usize {
        match self {
            Flaw::NoWeight => weight_place(i),
            _ => key_place(i),
        }
    }

    // What that word stands for.
    fn name(self) -> &'static str {
        match self {
            Flaw::NoWeight => "WEIGHT",
            _ => "KEY",
        }
    }

    fn words(self) -> &'static str {
        match self {
            Flaw::NoKey => "a key is a whole number from 0 to 255",
            Flaw::NoWeight => {
                "a weight is a decimal of at most 15 digits, or 0x and 16 hexadecimal digits"
            }
            Flaw::Twice => "the key is named twice",
            Flaw::Absent => "the instrument has no such key",
        }
    }
}

#[derive(Clone, Copy)]
struct Pair {
    key: u8,
    weight: f64,
}

// ---- the words

// The pairs stand behind the two files.
fn pair_count(given: Arguments) -> usize {
    given.count.saturating_sub(2) / 2
}

fn key_place(i: usize) -> usize {
    i.saturating_mul(2).saturating_add(2)
}

fn weight_place(i: usize) -> usize {
    key_place(i).saturating_add(1)
}

fn key_of(word: &[u8]) -> Option<u8> {
    u8::try_from(text::number_of(word).ok()?).ok()
}

// A word that is too long for the bytes counts as an empty one.
fn pair_at(rt: &impl System, given: Arguments, i: usize) -> Result<Pair, Flaw> {
    let mut bytes = [0u8; 4096];
    let key = key_of(given.word(rt, key_place(i), &mut bytes)).ok_or(Flaw::NoKey)?;
    let weight = text::real_of(given.word(rt, weight_place(i), &mut bytes)).ok_or(Flaw::NoWeight)?;
    Ok(Pair { key, weight })
}

// ---- what is wrong with them

// By the word that it is wrong with.
fn complain_of_pair(
    program: &Program<'_, impl System>,
    given: Arguments,
    i: usize,
    flaw: Flaw,
) -> Failure {
    let mut bytes = [0u8; 4096];
    let word = given.word(program.rt, flaw.place(i), &mut bytes);
    program.complain_of_word(word, flaw.name(), flaw.words())
}

// The pair's own flaw, or that its key is named already.
fn claim(pair: Result<Pair, Flaw>, named: &mut [bool; 256]) -> Result<(), Flaw> {
    let key = usize::from(pair?.key);
    if mem::replace(&mut named[key], true) {
        Err(Flaw::Twice)
    } else {
        Ok(())
    }
}

// Each pair must be a key and a weight, and no key may come twice; else the first word that is wrong is named.
pub fn check_words(program: &Program<'_, impl System>, given: Arguments) -> Result<(), Failure> {
    let mut named = [false; 256];
    // the pairs stand on the command line, in no slice: they are counted
    for i in 0..pair_count(given) {
        if let Err(flaw) = claim(pair_at(program.rt, given, i), &mut named) {
            return Err(complain_of_pair(program, given, i, flaw));
        }
    }
    Ok(())
}

fn check_key(pair: Result<Pair, Flaw>, instrument: Instrument) -> Result<(), Flaw> {
    if weights::has_key(instrument, pair?.key) {
        Ok(())
    } else {
        Err(Flaw::Absent)
    }
}

// The instrument must have all of the keys; else the first that it has not is named.
pub fn check_keys(
    program: &Program<'_, impl System>,
    given: Arguments,
    instrument: Instrument,
) -> Result<(), Failure> {
    // counted, as above
    for i in 0..pair_count(given) {
        if let Err(flaw) = check_key(pair_at(program.rt, given, i), instrument) {
            return Err(complain_of_pair(program, given, i, flaw));
        }
    }
    Ok(())
}

// ---- what they do

// The instrument with the weight of pair i, if it is one.
fn with_pair(rt: &impl System, given: Arguments, instrument: Instrument, i: usize) -> Instrument {
    match pair_at(rt, given, i) {
        Ok(pair) => weights::set_weight(instrument, pair.key, pair.weight),
        Err(_) => instrument,
    }
}

// The instrument with all of the weights.
pub fn with_pairs(rt: &impl System, given: Arguments, instrument: Instrument) -> Instrument {
    (0..pair_count(given)).fold(instrument, |next, i| with_pair(rt, given, next, i))
}

// The first pair that alone makes the record wrong.
fn first_refused(rt: &impl System, given: Arguments, instrument: Instrument) -> Option<usize> {
    (0..pair_count(given)).find(|&i| !instrument::is_valid(with_pair(rt, given, instrument, i)))
}

// `refused NUMBER: ..`, with the weight and the key of pair i. A word that is a weight has at most 18 bytes.
fn refuse_weight(
    program: &Program<'_, impl System>,
    given: Arguments,
    path: &str,
    i: usize,
    refusal: Refusal,
) {
    let Ok(pair) = pair_at(program.rt, given, i) else {
        return;
    };
    let mut bytes = [0u8; 4096];
    let word = given.word(program.rt, weight_place(i), &mut bytes);
    let weight = str::from_utf8(word).unwrap_or("");
    let number = refusal.number();
    let key = pair.key;
    let line = InlineText::<128>::of(format_args!(
        "refused {number}: the weight {weight} of key {key} is not from 0 to 100"
    ));
    let _ = program.answer_of(path, line.as_str());
}

// The writer's refusal, and which weight it is due to: the record test itself tells, asked with each pair alone. Its frame, with copies of the
// record, is there on refusal alone.
#[inline(never)]
pub fn refuse(
    program: &Program<'_, impl System>,
    given: Arguments,
    instrument: Instrument,
    path: &str,
    refusal: Refusal,
) -> Failure {
    match first_refused(program.rt, given, instrument) {
        Some(i) => {
            refuse_weight(program, given, path, i, refusal);
            Failure::Refused
        }
        None => instrument_input::answer_refusal(program, path, refusal),
    }
}
