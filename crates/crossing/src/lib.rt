// What the calls for C and Rust share: the instrument in a file and the session in words, what refuses them, a call's answer as
// numbers, and the session written back.
#![tactic(auto)]

ghost use Rattle.std.specs.Prelude.{◌≡◌, length, Ok};
ghost use Rattle.instrument_file.specs.File.{read_of};
ghost use Rattle.refusal.specs.Refusal.{number_of};
ghost use Rattle.session_words.specs.Layout.{session_size};
ghost use Rattle.session_words.specs.Session.{session_in};
ghost use Rattle.crossing.specs.Crossing.{refused_by, accepted_with, report_of, sizes_of, Begins, Opens, Keeps};

use instrument::Instrument;
use refusal::Refusal;
use session::{Answer, Outcome};
use session_record::Session;

// What a call answers: the refusal's number, 0 for none; play's number of forces, go's number of samples, an edit's t or the
// length of an adjusted file; an edit's number of cues dropped; and play's contact samples of all keys at the new position.
#[repr(C)]
#[derive(Clone, Copy)]
pub struct Report {
    pub refusal: u64,
    pub value: u64,
    pub dropped: u64,
    pub contacts: u64,
}

// What a file asks of its player: the refusal's number, 0 for none; samples a second; keys and strings; words of a session,
// cells of work memory and of scratch.
#[repr(C)]
#[derive(Clone, Copy)]
pub struct Sizes {
    pub refusal: u64,
    pub fs: f64,
    pub keys: usize,
    pub strings: usize,
    pub words: usize,
    pub work: usize,
    pub scratch: usize,
}

// The instrument in a file and the session that words are.
#[derive(Clone, Copy)]
pub struct Begun {
    pub instrument: Instrument,
    pub session: Session,
}

// The report of a refusal, by its number.
pub fn refused(number: u64) -> Report
    ensures { result ≡ refused_by number }
{
    Report {
        refusal: number,
        value: 0,
        dropped: 0,
        contacts: 0,
    }
}

pub fn refused_for(refusal: Refusal) -> Report
    ensures { result ≡ refused_by (number_of refusal) }
{
    refused(u64::from(refusal))
}

pub fn accepted(value: u64, dropped: u64, contacts: u64) -> Report
    ensures { result ≡ accepted_with value dropped contacts }
{
    Report {
        refusal: 0,
        value,
        dropped,
        contacts,
    }
}

fn answered(answer: Answer) -> Report
    ensures { result ≡ report_of (Ok answer) }
{
    match answer {
        Answer::Opened => accepted(0, 0, 0),
        Answer::Played { k, contacts } => accepted(k as u64, 0, contacts),
        Answer::Cued => accepted(0, 0, 0),
        Answer::Went(number) => accepted(number, 0, 0),
        Answer::Edited { t, dropped } => accepted(t, dropped, 0),
    }
}

// The session after a call is written over the one before it. A refused call writes nothing.
pub fn keep(words: &mut [u64], outcome: Outcome) -> Report
    requires { length words.old ≡ session_size }
    ensures { Keeps outcome words.old result words.new }
{
    match outcome.answer {
        Ok(answer) => {
            session_words::put_session(words, outcome.session);
            answered(answer)
        }
        Err(refusal) => refused_for(refusal),
    }
}

// The words in a frame of their own, which is not there yet while the file is read: GINGERFILE_STACK holds for either.
#[inline(never)]
fn handed_session(words: &[u64]) -> Option<Session>
    ensures { result ≡ session_in words.now }
{
    session_words::session_at(words)
}

// What every call on a session does first. The file's refusal is met before that of the words. In a frame of its own, which is gone where the call itself is made.
#[inline(never)]
pub fn begin(file: &[u8], words: &[u64]) -> Result<Begun, Refusal>
    ensures { Begins file.now words.now result }
{
    let instrument = instrument_file::read(file)?;
    let Some(session) = handed_session(words) else {
        return Err(Refusal::Record);
    };
    Ok(Begun {
        instrument,
        session,
    })
}

// The same where the words are to hold a new session: their number alone counts.
pub fn begin_open(file: &[u8], words: &[u64]) -> Result<Instrument, Refusal>
    ensures { Opens file.now words.now result }
{
    let instrument = instrument_file::read(file)?;
    if words.len() == session_words::LENGTH {
        Ok(instrument)
    } else {
        Err(Refusal::Record)
    }
}

pub fn file_sizes(file: &[u8]) -> Sizes
    ensures { result ≡ sizes_of (read_of file.now) }
{
    match instrument_file::read(file) {
        Err(refusal) => Sizes {
            refusal: u64::from(refusal),
            fs: 0.0,
            keys: 0,
            strings: 0,
            words: 0,
            work: 0,
            scratch: 0,
        },
        Ok(instrument) => Sizes {
            refusal: 0,
            fs: instrument.common.fs,
            keys: instrument.key_count,
            strings: instrument.string_count,
            words: session_words::LENGTH,
            work: instrument::work_cells(instrument),
            scratch: session_record::scratch_cells(instrument),
        },
    }
}
