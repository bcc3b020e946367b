// The piano for a program in C or Rust: numbers and lent slices alone cross. The instrument crosses as its file's bytes, the session
// as 616 words (crate session_words), an event by its numbers. Each call reads the file and the words, makes the session's call, and
// writes the words; a refused call changes nothing, the words neither. `gingerfile_adjust` has no session: it reads a file and
// writes one.
#![tactic(auto)]

ghost use Rattle.std.specs.Prelude.{◌≡◌, ◌&&◌, eqb, length};
ghost use Rattle.refusal.specs.Refusal.{number_of, number_in};
ghost use Rattle.decimator.specs.Decimate.{output_length, DecimateMeets};
ghost use Rattle.instrument_file.specs.File.{read_of};
ghost use Rattle.instrument_writer.specs.Write.{WriteMeets};
ghost use Rattle.weights.specs.Weights.{weighted_by};
ghost use Rattle.session.specs.Calls.{ScratchStays, OpenMeets, PlayMeets, CueMeets, GoMeets, InsertMeets, RemoveMeets};
ghost use Rattle.session_words.specs.Layout.{session_size};
ghost use Rattle.session_words.specs.Session.{event_of, is_event, is_session};
ghost use Rattle.crossing.specs.Crossing.{sizes_of, Crosses};
ghost use Rattle.gingerfile.specs.Adjust.{AdjustMeets, GivesBack, Adjusts, written_as};
ghost use Rattle.gingerfile.specs.Energies.{no_energies, flat_of, Asks, EnergiesCross};

use crossing::{Report, Sizes};
use energies::Energies;
use instrument::Instrument;
use refusal::Refusal;
use score::TimedEvent;
use session::Outcome;
use session_record::Session;

// Each key's energy and number in the file's order, zeros past the last; the refusal's number, 0 for none. Two arrays, since C has
// the struct so.
#[repr(C)]
#[derive(Clone, Copy)]
pub struct KeyEnergies {
    pub refusal: u64,
    pub count: usize,
    pub energies: [f64; 16],
    pub keys: [u8; 16],
}

#[unsafe(no_mangle)]
pub extern "C" fn gingerfile_read(file: &[u8]) -> Sizes
    ensures { result ≡ sizes_of (read_of file.now) }
{
    crossing::file_sizes(file)
}

// Each call on a session is one match on what `begin` gives. A function that took the session's call as a closure would save an arm
// and need the clauses of each closure beside those of the call.

// In a frame of its own, as `cued` below.
#[inline(never)]
fn opened(instrument: Instrument, work: &mut [f64]) -> Outcome
    ensures { OpenMeets instrument work.old result work.new }
{
    session::open(instrument, work)
}

// The words may hold anything before; 7 where there are not 616.
#[unsafe(no_mangle)]
pub extern "C" fn gingerfile_open(file: &[u8], words: &mut [u64], work: &mut [f64]) -> Report
    ensures { Crosses file.now (eqb (length words.old) session_size) words.old result words.new (work.new ≡ work.old)
        (λ i s o. OpenMeets i work.old o work.new) }
{
    match crossing::begin_open(file, words) {
        Ok(instrument) => crossing::keep(words, opened(instrument, work)),
        Err(refusal) => crossing::refused_for(refusal),
    }
}

#[unsafe(no_mangle)]
pub extern "C" fn gingerfile_play(
    file: &[u8],
    words: &mut [u64],
    work: &mut [f64],
    scratch: &mut [f64],
    out: &mut [f64],
    trace: &mut [f64],
) -> Report
    ensures crosses { Crosses file.now (is_session words.old) words.old result words.new
        ((work.new ≡ work.old) × (out.new ≡ out.old) × (trace.new ≡ trace.old))
        (λ i s o. PlayMeets i s work.old (length scratch.old) out.old trace.old o work.new out.new trace.new) }
    ensures scratch_stays { ScratchStays result.refusal scratch.old scratch.new }
{
    match crossing::begin(file, words) {
        Ok(begun) => {
            let outcome = session::play(begun.instrument, begun.session, work, scratch, out, trace);
            crossing::keep(words, outcome)
        }
        Err(refusal) => crossing::refused_for(refusal),
    }
}

// The cue in a frame of its own, which is not there yet while `begin` has its: GINGERFILE_STACK holds for either.
#[inline(never)]
fn cued(instrument: Instrument, session: Session, work: &mut [f64]) -> Outcome
    ensures { CueMeets instrument session work.old result work.new }
{
    session::cue(instrument, session, work)
}

#[unsafe(no_mangle)]
pub extern "C" fn gingerfile_cue(file: &[u8], words: &mut [u64], work: &mut [f64]) -> Report
    ensures { Crosses file.now (is_session words.old) words.old result words.new (work.new ≡ work.old)
        (λ i s o. CueMeets i s work.old o work.new) }
{
    match crossing::begin(file, words) {
        Ok(begun) => {
            let outcome = cued(begun.instrument, begun.session, work);
            crossing::keep(words, outcome)
        }
        Err(refusal) => crossing::refused_for(refusal),
    }
}

#[unsafe(no_mangle)]
pub extern "C" fn gingerfile_go(
    file: &[u8],
    words: &mut [u64],
    work: &mut [f64],
    scratch: &mut [f64],
    p: u64,
) -> Report
    ensures crosses { Crosses file.now (is_session words.old) words.old result words.new (work.new ≡ work.old)
        (λ i s o. GoMeets i s work.old (length scratch.old) p o work.new) }
    ensures scratch_stays { ScratchStays result.refusal scratch.old scratch.new }
{
    match crossing::begin(file, words) {
        Ok(begun) => {
            let outcome = session::go(begun.instrument, begun.session, work, scratch, p);
            crossing::keep(words, outcome)
        }
        Err(refusal) => crossing::refused_for(refusal),
    }
}

// Numbers that are no event's: 7, as for words that are no session's.
#[unsafe(no_mangle)]
pub extern "C" fn gingerfile_insert(
    file: &[u8],
    words: &mut [u64],
    work: &mut [f64],
    position: u64,
    kind: u64,
    key: u64,
    velocity: f64,
) -> Report
    ensures { Crosses file.now (is_session words.old && is_event kind key) words.old result words.new (work.new ≡ work.old)
        (λ i s o. InsertMeets i s work.old (record { position = position; event = event_of kind key velocity }) o work.new) }
{
    match crossing::begin(file, words) {
        Ok(begun) => match session_words::checked_event(kind, key, velocity) {
            Some(event) => {
                let timed = TimedEvent { position, event };
                let outcome = session::insert(begun.instrument, begun.session, work, timed);
                crossing::keep(words, outcome)
            }
            None => crossing::refused_for(Refusal::Record),
        },
        Err(refusal) => crossing::refused_for(refusal),
    }
}

#[unsafe(no_mangle)]
pub extern "C" fn gingerfile_remove(
    file: &[u8],
    words: &mut [u64],
    work: &mut [f64],
    index: usize,
) -> Report
    ensures { Crosses file.now (is_session words.old) words.old result words.new (work.new ≡ work.old)
        (λ i s o. RemoveMeets i s work.old index o work.new) }
{
    match crossing::begin(file, words) {
        Ok(begun) => {
            let outcome = session::remove(begun.instrument, begun.session, work, index);
            crossing::keep(words, outcome)
        }
        Err(refusal) => crossing::refused_for(refusal),
    }
}

fn flat_of(found: Energies) -> KeyEnergies
    ensures { result ≡ flat_of 0 found.count found.keys }
{
    KeyEnergies {
        refusal: 0,
        count: found.count,
        energies: found.keys.map(|pair| pair.energy),
        keys: found.keys.map(|pair| pair.key),
    }
}

fn no_energies(refusal: Refusal) -> KeyEnergies
    ensures { result ≡ no_energies (number_of refusal) }
{
    KeyEnergies {
        refusal: u64::from(refusal),
        count: 0,
        energies: [0.0; 16],
        keys: [0u8; 16],
    }
}

fn energies_of(file: &[u8], words: &[u64], work: &[f64]) -> Result<Energies, Refusal>
    ensures { Asks file.now words.now work.now result }
{
    let begun = crossing::begin(file, words)?;
    energies::key_energies(begun.instrument, begun.session, work)
}

#[unsafe(no_mangle)]
pub extern "C" fn gingerfile_energies(file: &[u8], words: &[u64], work: &[f64]) -> KeyEnergies
    ensures { EnergiesCross file.now words.now work.now result }
{
    match energies_of(file, words, work) {
        Ok(found) => flat_of(found),
        Err(refusal) => no_energies(refusal),
    }
}

// In a frame of its own, as `cued`.
#[inline(never)]
fn written(
    instrument: Instrument,
    keys: &[u8],
    weights: &[f64],
    out: &mut [u8],
) -> Result<usize, Refusal>
    ensures { WriteMeets (weighted_by instrument keys.now weights.now) out.old result out.new }
{
    instrument_writer::write(weights::set_weights(instrument, keys, weights), out)
}

fn adjusted(file: &[u8], keys: &[u8], weights: &[f64], out: &mut [u8]) -> Result<usize, Refusal>
    ensures { Adjusts file.now keys.now weights.now out.old result out.new }
{
    let instrument = instrument_file::read(file)?;
    if !weights::are_whole(instrument, keys, weights) {
        return Err(Refusal::Record);
    }
    written(instrument, keys, weights, out)
}

// The file with other weights, pair by pair: the key of that number gets the weight, of a key named twice the later one. 7 where
// there are not as many weights as keys, the file has not every key, or a weight that stands is out of its range; 20 where the
// bytes lent are fewer than the file's.
#[unsafe(no_mangle)]
pub extern "C" fn gingerfile_adjust(
    file: &[u8],
    keys: &[u8],
    weights: &[f64],
    out: &mut [u8],
) -> Report
    ensures adjust_meets { AdjustMeets file.now keys.now weights.now out.old result out.new }
    ensures gives_back { GivesBack file.now keys.now weights.now out.old result out.new }
{
    match adjusted(file, keys, weights, out) {
        Ok(length) => crossing::accepted(length as u64, 0, 0),
        Err(refusal) => crossing::refused_for(refusal),
    }
}

// How many samples the decimator makes of n.
#[unsafe(no_mangle)]
pub extern "C" fn gingerfile_decimated(n: usize, factor: usize) -> usize
    ensures { result ≡ output_length n factor }
{
    decimator::output_length(n, factor)
}

#[unsafe(no_mangle)]
pub extern "C" fn gingerfile_decimate(
    x: &[f64],
    taps: &[f64],
    factor: usize,
    out: &mut [f64],
) -> u64
    ensures { DecimateMeets x.now taps.now factor out.old result out.new }
{
    match decimator::decimate(x, taps, factor, out) {
        Ok(()) => 0,
        Err(refusal) => u64::from(refusal),
    }
}
