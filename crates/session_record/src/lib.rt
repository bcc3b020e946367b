// Document 01, "Numbers a call may give": the session's record, its test in refusal 7, and for each call the refusals that concern
// it, in their order. Instrument, session and memory stay parameters one by one, as the calls have them that README names.
#![tactic(auto)]

ghost use Rattle.std.specs.Prelude.{◌≡◌, true, ◌≤◌};
ghost use Rattle.refusal.specs.Refusal.{number_in};
ghost use Rattle.instrument.specs.Valid.{valid};
ghost use Rattle.instrument.specs.Work.{part_cells};
ghost use Rattle.machine.specs.Refusals.{scratch_cells};
ghost use Rattle.machine.specs.Machine.{start_of, settled};
ghost use Rattle.session_cues.specs.Cues.{kept_of};
ghost use Rattle.session_record.specs.Record.{sound_session, work_test, open_refusal, record_refusal};
ghost use Rattle.session_record.specs.Record.{play_number, cue_number, go_number, insert_number, remove_number};

use instrument::Instrument;
use refusal::Refusal;
use score::{Piano, TimedEvent};
use score_edits::END;
use session_cues::Cue;

// The score is the first `count` events. What lies past it, and in slots that keep no cue, decides nothing. An array with its count:
// nothing here may allocate, and the words that cross to C have all of it.
#[derive(Clone, Copy)]
pub struct Session {
    pub t: u64,
    pub count: usize,
    pub events: [TimedEvent; 64],
    pub cues: [Cue; 4],
    pub piano: Piano,
}

// The longest go.
pub const LONGEST: u64 = 1000000;

fn is_sound_session(keys: usize, session: &Session) -> bool
    ensures { result ≡ sound_session keys session.now }
{
    if 64 < session.count {
        return false;
    }
    let in_score = score_edits::is_sound_score(&session.events[..session.count]);
    let now = session_cues::is_sound_piano(keys, session.t, session.piano);
    let kept = session_cues::are_sound(keys, &session.cues);
    (session.t <= END) & in_score & now & kept
}

// W, the cells of one part. `instrument::part_cells` counts those of any record; of a valid one they are the definition's,
// which the calls above name.
pub fn part_size(instrument: Instrument) -> usize
    requires { valid instrument ≡ true }
    ensures { result ≡ part_cells instrument }
{
    instrument::part_cells(instrument)
}

// Work memory is five parts.
fn work_refusal(instrument: Instrument, cells: usize) -> Result<(), Refusal>
    requires { valid instrument ≡ true }
    ensures { number_in result ≡ work_test instrument cells }
{
    if cells < 5 * part_size(instrument) {
        return Err(Refusal::Work);
    }
    Ok(())
}

pub fn open_refusal(instrument: Instrument, cells: usize) -> Result<(), Refusal>
    ensures { number_in result ≡ open_refusal instrument cells }
{
    if !instrument::is_valid(instrument) {
        return Err(Refusal::Record);
    }
    work_refusal(instrument, cells)
}

// 7 and 8, with which every call on a session begins, and which are all that energies tests.
pub fn record_refusal(instrument: Instrument, session: Session, cells: usize) -> Result<(), Refusal>
    ensures { number_in result ≡ record_refusal instrument session cells }
{
    if !instrument::is_valid(instrument) {
        return Err(Refusal::Record);
    }
    if !is_sound_session(instrument.key_count, &session) {
        return Err(Refusal::Record);
    }
    work_refusal(instrument, cells)
}

// How many scratch cells play and go ask: what a player must lend is what refusal 9 tests.
pub fn scratch_cells(instrument: Instrument) -> usize
    ensures { result ≡ scratch_cells instrument }
{
    instrument.string_count
}

pub fn play_refusal(
    instrument: Instrument,
    session: Session,
    cells: usize,
    scratch: usize,
    m: usize,
    trace: usize,
) -> Result<(), Refusal>
    ensures { number_in result ≡ play_number instrument session cells scratch m trace }
{
    record_refusal(instrument, session, cells)?;
    if scratch < scratch_cells(instrument) {
        return Err(Refusal::Scratch);
    }
    if trace < m {
        return Err(Refusal::Trace);
    }
    if END - session.t < m as u64 {
        return Err(Refusal::PastEnd);
    }
    Ok(())
}

// Where fewer than four other cues are kept, t is kept already or a slot is free.
pub fn cue_refusal(instrument: Instrument, session: Session, cells: usize) -> Result<(), Refusal>
    ensures { number_in result ≡ cue_number instrument session cells }
{
    record_refusal(instrument, session, cells)?;
    if session_cues::slot_at(&session.cues, session.t).is_some() {
        return Ok(());
    }
    if session_cues::free_slot(&session.cues).is_some() {
        return Ok(());
    }
    Err(Refusal::CuesFull)
}

// Where a go to p starts: the greatest of 0, the kept cues and t, of those not above p.
pub fn start_of(session: Session, p: u64) -> u64
    ensures { (result ≡ start_of session.t (kept_of session.cues) p) × (result ≤ p) }
{
    let near = session_cues::nearest(&session.cues, p);
    if session.t <= p {
        near.max(session.t)
    } else {
        near
    }
}

// Where t stands after an edit at q.
pub fn settle(session: Session, q: u64) -> u64
    ensures { result ≡ settled session.t (kept_of session.cues) q }
{
    if q < session.t {
        session_cues::nearest(&session.cues, q)
    } else {
        session.t
    }
}

pub fn go_refusal(
    instrument: Instrument,
    session: Session,
    cells: usize,
    scratch: usize,
    p: u64,
) -> Result<(), Refusal>
    ensures { number_in result ≡ go_number instrument session cells scratch p }
{
    record_refusal(instrument, session, cells)?;
    if scratch < scratch_cells(instrument) {
        return Err(Refusal::Scratch);
    }
    if END < p {
        return Err(Refusal::PastEnd);
    }
    if LONGEST < p - start_of(session, p) {
        return Err(Refusal::Replay);
    }
    Ok(())
}

pub fn insert_refusal(
    instrument: Instrument,
    session: Session,
    cells: usize,
    timed: TimedEvent,
) -> Result<(), Refusal>
    ensures { number_in result ≡ insert_number instrument session cells timed }
{
    record_refusal(instrument, session, cells)?;
    if END < timed.position {
        return Err(Refusal::PastEnd);
    }
    if 64 <= session.count {
        return Err(Refusal::ScoreFull);
    }
    if !score_edits::is_sound_velocity(timed.event) {
        return Err(Refusal::Velocity);
    }
    Ok(())
}

pub fn remove_refusal(
    instrument: Instrument,
    session: Session,
    cells: usize,
    index: usize,
) -> Result<(), Refusal>
    ensures { number_in result ≡ remove_number instrument session cells index }
{
    record_refusal(instrument, session, cells)?;
    if session.count <= index {
        return Err(Refusal::NoEvent);
    }
    Ok(())
}
