// The session's calls in loops, for the benches: file and words are read once, as in a program in Rattle, and the words are
// not written. What a function gives is what its last call answered; a refused call answers 1,000,000 and its number.
ghost use Rattle.render.specs.Render.{Renderable};

use instrument::Instrument;
use refusal::Refusal;
use score::{Event, Score, TimedEvent};
use session::Answer;
use session_record::Session;

fn number_of(answer: Result<Answer, Refusal>) -> u64 {
    match answer {
        Err(refusal) => std::num::wrapping_add_u64(1_000_000, u64::from(refusal)),
        Ok(Answer::Opened) => 0,
        Ok(Answer::Played { k, contacts: _ }) => k as u64,
        Ok(Answer::Cued) => 0,
        Ok(Answer::Went(n)) => n,
        Ok(Answer::Edited { t, dropped: _ }) => t,
    }
}

// The instrument of a file, and zeros of one that is refused, which each call then refuses as 7.
fn instrument_of(file: &[u8]) -> Instrument {
    instrument_file::instrument_in(instrument_file::read(file))
}

// The score in a session's words.
fn score_in(words: &[u64]) -> Score {
    let session = session_words::session_from(words);
    let events = session.events;
    Score {
        events,
        count: session.count,
    }
}

fn plays(
    instrument: Instrument,
    opened: Session,
    blocks: u64,
    work: &mut [f64],
    scratch: &mut [f64],
    out: &mut [f64],
    trace: &mut [f64],
) -> u64 {
    let mut session = opened;
    let mut number = 0u64;
    for _ in 0..blocks {
        let done = session::play(instrument, session, work, scratch, out, trace);
        session = done.session;
        number = number_of(done.answer);
    }
    number
}

// `blocks` plays of the output's length.
#[unsafe(no_mangle)]
pub extern "C" fn session_plays(
    file: &[u8],
    words: &[u64],
    work: &mut [f64],
    scratch: &mut [f64],
    out: &mut [f64],
    trace: &mut [f64],
    blocks: u64,
) -> u64 {
    let instrument = instrument_of(file);
    let session = session_words::session_from(words);
    plays(instrument, session, blocks, work, scratch, out, trace)
}

// `times` cues of the same session.
#[unsafe(no_mangle)]
pub extern "C" fn session_cues(file: &[u8], words: &[u64], work: &mut [f64], times: u64) -> u64 {
    let instrument = instrument_of(file);
    let session = session_words::session_from(words);
    let mut number = 0u64;
    for _ in 0..times {
        number = number_of(session::cue(instrument, session, work).answer);
    }
    number
}

// `times` inserts of a pedal move into the same session.
#[unsafe(no_mangle)]
pub extern "C" fn session_inserts(
    file: &[u8],
    words: &[u64],
    work: &mut [f64],
    position: u64,
    times: u64,
) -> u64 {
    let timed = TimedEvent {
        position,
        event: Event::Pedal(true),
    };
    let instrument = instrument_of(file);
    let session = session_words::session_from(words);
    let mut number = 0u64;
    for _ in 0..times {
        number = number_of(session::insert(instrument, session, work, timed).answer);
    }
    number
}

// The block of the output's length that a score gives from silence; the number of forces.
fn rendered(
    instrument: Instrument,
    score: Score,
    part: &mut [f64],
    scratch: &mut [f64],
    out: &mut [f64],
    trace: &mut [f64],
) -> u64
    requires { Renderable instrument part.old scratch.old }
{
    if 64 < score.count {
        return 0;
    }
    let m = out.len() as u64;
    if 0x7fff_ffff_ffff_ffff < m {
        return 0;
    }
    let piano = render::silent_piano();
    let run = render::render(part, scratch, out, trace, instrument, score, piano, 0, m);
    run.pushed as u64
}

// The renderer alone, from silence, with the score of a session's words; 0 where it cannot be asked.
#[unsafe(no_mangle)]
pub extern "C" fn session_render(
    file: &[u8],
    words: &[u64],
    part: &mut [f64],
    scratch: &mut [f64],
    out: &mut [f64],
    trace: &mut [f64],
) -> u64 {
    let instrument = instrument_of(file);
    if !instrument::is_valid(instrument) {
        return 0;
    }
    if part.len() < instrument::part_cells(instrument) {
        return 0;
    }
    if scratch.len() < instrument.string_count {
        return 0;
    }
    rendered(instrument, score_in(words), part, scratch, out, trace)
}
