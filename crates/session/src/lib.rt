// Document 01, "The session": open, play, cue, go, insert and remove, over the renderer by its promise alone. Each gets the instrument
// and the session by value, tests the refusals that concern it, and gives the session back; a refused call gives back what it got and
// changes no cell.
#![tactic(auto)]

ghost use Rattle.std.specs.Prelude.{◌≡◌, true, ◌*◌, ◌≤◌, length};
ghost use Rattle.refusal.specs.Refusal.{number_of};
ghost use Rattle.instrument.specs.Valid.{valid};
ghost use Rattle.instrument.specs.Work.{part_cells};
ghost use Rattle.session_record.specs.Record.{play_number, go_number};
ghost use Rattle.session.specs.Calls.{fresh_session, refused_with, ScratchStays, Restores, Edits, OpenMeets, PlayMeets, CueMeets, GoMeets};
ghost use Rattle.session.specs.Calls.{InsertMeets, RemoveMeets};

use instrument::Instrument;
use refusal::Refusal;
use score::{Event, Piano, Score, TimedEvent};
use session_cues::Cue;
use session_record::Session;

// What an accepted call answers: "play's k; go's number; an edit's t and number dropped"; beside k the contact samples of all keys at
// the new position.
#[derive(Clone, Copy)]
pub enum Answer {
    Opened,
    Played { k: usize, contacts: u64 },
    Cued,
    Went(u64),
    Edited { t: u64, dropped: u64 },
}

#[derive(Clone, Copy)]
pub struct Outcome {
    pub answer: Result<Answer, Refusal>,
    pub session: Session,
}

fn refused(session: Session, refusal: Refusal) -> Outcome
    ensures { result ≡ refused_with session (number_of refusal) }
{
    Outcome {
        answer: Err(refusal),
        session,
    }
}

// No events, no cues, position 0; places that hold nothing are zero.
fn fresh(piano: Piano) -> Session
    ensures { result ≡ fresh_session piano }
{
    let none = TimedEvent {
        position: 0,
        event: Event::Pedal(false),
    };
    let cue = Cue {
        kept: false,
        position: 0,
        piano: piano,
    };
    Session {
        t: 0,
        count: 0,
        events: [none; 64],
        cues: [cue; 4],
        piano: piano,
    }
}

pub fn open(instrument: Instrument, work: &mut [f64]) -> Outcome
    ensures { OpenMeets instrument work.old result work.new }
{
    let piano = render::silent_piano();
    let session = fresh(piano);
    if let Err(refusal) = session_record::open_refusal(instrument, work.len()) {
        return refused(session, refusal);
    }
    let w = session_record::part_size(instrument);
    render::silence_part(&mut work[..w]);
    Outcome {
        answer: Ok(Answer::Opened),
        session,
    }
}

pub fn play(
    instrument: Instrument,
    session: Session,
    work: &mut [f64],
    scratch: &mut [f64],
    out: &mut [f64],
    trace: &mut [f64],
) -> Outcome
    ensures play_meets { PlayMeets instrument session work.old (length scratch.old) out.old trace.old
        result work.new out.new trace.new }
    ensures scratch_stays { ScratchStays (play_number instrument session (length work.old) (length scratch.old)
        (length out.old) (length trace.old)) scratch.old scratch.new }
{
    if let Err(refusal) = session_record::play_refusal(
        instrument,
        session,
        work.len(),
        scratch.len(),
        out.len(),
        trace.len(),
    ) {
        return refused(session, refusal);
    }
    let w = session_record::part_size(instrument);
    let events = session.events;
    let score = Score {
        events,
        count: session.count,
    };
    let m = out.len() as u64;
    let played = render::render(
        &mut work[..w],
        scratch,
        out,
        trace,
        instrument,
        score,
        session.piano,
        session.t,
        m,
    );
    let mut next = session;
    next.t = session.t + m;
    next.piano = played.piano;
    // The render promises that the sum is not above its end, so that there is one.
    let contacts = score::contacts(next.piano.contact_samples, instrument.key_count, next.t);
    Outcome {
        answer: Ok(Answer::Played {
            k: played.pushed,
            contacts: contacts.unwrap(),
        }),
        session: next,
    }
}

pub fn cue(instrument: Instrument, session: Session, work: &mut [f64]) -> Outcome
    ensures { CueMeets instrument session work.old result work.new }
{
    if let Err(refusal) = session_record::cue_refusal(instrument, session, work.len()) {
        return refused(session, refusal);
    }
    if session_cues::slot_at(&session.cues, session.t).is_some() {
        return Outcome {
            answer: Ok(Answer::Cued),
            session,
        };
    }
    // Fewer than four others are kept and t is not, so that a slot is free.
    let slot = session_cues::free_slot(&session.cues).unwrap();
    let w = session_record::part_size(instrument);
    cells::copy_part(work, (slot + 1) * w, 0, w);
    let mut next = session;
    next.cues[slot] = Cue {
        kept: true,
        position: session.t,
        piano: session.piano,
    };
    Outcome {
        answer: Ok(Answer::Cued),
        session: next,
    }
}

// The state held for x, brought into the first part; its small state.
fn restore(instrument: Instrument, session: Session, x: u64, work: &mut [f64]) -> Piano
    requires { (valid instrument ≡ true) × (5 * part_cells instrument ≤ length work.old) }
    ensures { Restores instrument session work.old x result work.new }
{
    if x == session.t {
        return session.piano;
    }
    let w = session_record::part_size(instrument);
    match session_cues::slot_at(&session.cues, x) {
        Some(slot) => {
            cells::copy_part(work, 0, (slot + 1) * w, w);
            session.cues[slot].piano
        }
        None => {
            render::silence_part(&mut work[..w]);
            render::silent_piano()
        }
    }
}

pub fn go(
    instrument: Instrument,
    session: Session,
    work: &mut [f64],
    scratch: &mut [f64],
    p: u64,
) -> Outcome
    ensures go_meets { GoMeets instrument session work.old (length scratch.old) p result work.new }
    ensures scratch_stays { ScratchStays (go_number instrument session (length work.old) (length scratch.old) p)
        scratch.old scratch.new }
{
    if let Err(refusal) = session_record::go_refusal(
        instrument,
        session,
        work.len(),
        scratch.len(),
        p,
    ) {
        return refused(session, refusal);
    }
    let w = session_record::part_size(instrument);
    let start = session_record::start_of(session, p);
    let held = restore(instrument, session, start, work);
    let events = session.events;
    let score = Score {
        events,
        count: session.count,
    };
    let mut no_out = [0.0; 1];
    let mut no_trace = [0.0; 1];
    let replayed = render::render(
        &mut work[..w],
        scratch,
        &mut no_out,
        &mut no_trace,
        instrument,
        score,
        held,
        start,
        p - start,
    );
    let mut next = session;
    next.t = p;
    next.piano = replayed.piano;
    Outcome {
        answer: Ok(Answer::Went(replayed.done)),
        session: next,
    }
}

// An edit at q that leaves `count` events.
fn edit(
    instrument: Instrument,
    session: Session,
    work: &mut [f64],
    q: u64,
    events: [TimedEvent; 64],
    count: usize,
) -> Outcome
    requires { (valid instrument ≡ true) × (5 * part_cells instrument ≤ length work.old) }
    ensures { Edits instrument session work.old q count events result work.new }
{
    let t = session_record::settle(session, q);
    let piano = restore(instrument, session, t, work);
    let dropped = session_cues::count_above(&session.cues, q);
    let mut cues = session.cues;
    session_cues::drop_above(&mut cues, q);
    Outcome {
        answer: Ok(Answer::Edited { t, dropped }),
        session: Session {
            t,
            count,
            events,
            cues,
            piano,
        },
    }
}

pub fn insert(
    instrument: Instrument,
    session: Session,
    work: &mut [f64],
    timed: TimedEvent,
) -> Outcome
    ensures { InsertMeets instrument session work.old timed result work.new }
{
    if let Err(refusal) = session_record::insert_refusal(instrument, session, work.len(), timed) {
        return refused(session, refusal);
    }
    let events = score_edits::place_event(session.events, session.count, timed);
    edit(
        instrument,
        session,
        work,
        timed.position,
        events,
        session.count + 1,
    )
}

pub fn remove(instrument: Instrument, session: Session, work: &mut [f64], index: usize) -> Outcome
    ensures { RemoveMeets instrument session work.old index result work.new }
{
    if let Err(refusal) = session_record::remove_refusal(instrument, session, work.len(), index) {
        return refused(session, refusal);
    }
    let gone = session.events[index];
    let events = score_edits::remove_event(session.events, session.count, index);
    edit(
        instrument,
        session,
        work,
        gone.position,
        events,
        session.count - 1,
    )
}
