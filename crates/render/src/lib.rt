// The render of a score: one loop over samples for playing, with output and trace, and for going on without.
#![tactic(auto)]

ghost use Rattle.std.specs.Prelude.{◌≡◌, ℕ, ◌+◌, ◌≤◌, ◌<◌, ◌^◌, length, set, replicate, option_to_list};
ghost use Rattle.float.specs.Float.{zero};
ghost use Rattle.std.proofs.lemmas.List.Edits.{sets};
ghost use Rattle.sample.specs.Sample.{Ready, model_at};
ghost use Rattle.sample_constants.specs.Model.{strings_of};
ghost use Rattle.score.specs.Events.{Playable};
ghost use Rattle.score.specs.Score.{events_of};
ghost use Rattle.render.specs.Render.{Advanced, InRange, PianoAt, NextStretch, Renderable, Rendered, rendering_of, unstarted, stretch_step, silent_piano};

use instrument::Instrument;
use sample::{Motion, Tables};
use score::{Piano, Score, TimedEvent};
use string::StringDesign;

// A run in progress: the piano, how many samples are done, and how many forces were pushed.
#[derive(Clone, Copy)]
pub struct Run {
    pub piano: Piano,
    pub done: u64,
    pub pushed: usize,
}

// Samples with no event behind the first: which dampers are to be down, the run that they go on from, and how many samples are
// done where they stop. Sample 0 of the run is at position t.
#[derive(Clone, Copy)]
pub struct Stretch {
    pub down: [bool; 16],
    pub run: Run,
    pub t: u64,
    pub stop: u64,
}

// A store where there is a cell for it: a run without output has none.
fn put(cells: &mut [f64], i: usize, x: f64)
    ensures { cells.new ≡ set cells.old i x }
{
    if i < cells.len() {
        cells[i] = x;
    }
}

// The force of a sample that has a hammer goes behind the k forces there are.
fn push(trace: &mut [f64], k: usize, force: Option<f64>) -> usize
    requires { k + 1 < 2 ^ 64 }
    ensures { (result ≡ k + length (option_to_list force)) × (trace.new ≡ sets trace.old k (option_to_list force)) }
{
    match force {
        Some(f) => {
            put(trace, k, f);
            k + 1
        }
        None => k,
    }
}

// The samples of a stretch: the one loop over samples, which counts them up.
fn play_stretch(
    part: &mut [f64],
    scratch: &mut [f64],
    out: &mut [f64],
    trace: &mut [f64],
    tables: Tables<'_>,
    stretch: Stretch,
) -> Run
    requires ready { Ready (model_at tables) part.old scratch.old }
    requires in_range { InRange (length tables.keys.now) stretch.run stretch.t stretch.stop }
    ensures { Advanced (stretch_step stretch (model_at tables.entry)) stretch.t
        (rendering_of stretch.run part.old out.old trace.old)
        (rendering_of result part.new out.new trace.new)
        × (result.done ≡ stretch.stop) × InRange (length tables.entry.keys.now) result stretch.t stretch.stop }
{
    let Stretch { down, run, t, stop } = stretch;
    let mut piano = run.piano;
    let mut done = run.done;
    let mut pushed = run.pushed;
    let designs = tables.designs;
    let mut room = strings::first_indices(designs, t + done);
    let indices = &mut room[..designs.len()];
    for at in t + done..t + stop {
        let hammer = piano.motion.hammer;
        let s = sample::sample(
            part,
            scratch,
            &mut piano.damper_r,
            &down,
            tables,
            indices,
            piano.motion,
            at,
        );
        strings::next_indices(designs, indices, at);
        sample::count_contact(&mut piano.contact_samples, hammer, s.contact);
        put(out, done as usize, s.out);
        pushed = push(trace, pushed, s.force);
        piano.motion = s.motion;
        done += 1;
    }
    Run {
        piano,
        done,
        pushed,
    }
}

// The stretch that follows a run: the events at t + run.done act, and it goes on to the next event or to m.
fn next_stretch(
    part: &mut [f64],
    designs: &[StringDesign],
    instrument: Instrument,
    events: &[TimedEvent],
    run: Run,
    t: u64,
    m: u64,
) -> Stretch
    requires playable { Playable instrument designs.now part.old }
    requires strings { designs.now ≡ strings_of instrument }
    requires done_lt_m { run.done < m }
    requires m_bound { t + m < 2 ^ 64 }
    ensures { NextStretch instrument events.now t m run part.old part.new result }
{
    let at = t + run.done;
    let piano = score::apply_events(part, designs, instrument, events, run.piano, at);
    let stop = match score::next_event(events, at + 1) {
        Some(next) => m.min(next - t),
        None => m,
    };
    Stretch {
        down: score::dampers_down(instrument, piano),
        run: Run { piano, ..run },
        t,
        stop,
    }
}

// m samples of a score from position t on. Output and trace get theirs as far as they have cells: play lends both, go none.
pub fn render(
    part: &mut [f64],
    scratch: &mut [f64],
    out: &mut [f64],
    trace: &mut [f64],
    instrument: Instrument,
    score: Score,
    piano: Piano,
    t: u64,
    m: u64,
) -> Run
    requires renderable { Renderable instrument part.old scratch.old }
    requires count_bound { score.count ≤ 64 }
    requires piano_at { PianoAt instrument.key_count piano t }
    requires m_bound { t + m < 2 ^ 64 }
    ensures { Rendered instrument (events_of score) t m (unstarted piano part.old out.old trace.old)
        (rendering_of result part.new out.new trace.new) }
{
    let keys = sample_constants::key_table(&instrument);
    let strings = sample_constants::string_table(&instrument);
    let tables = Tables {
        constants: sample_constants::constants_of(instrument.common),
        keys: &keys[..instrument.key_count],
        designs: &strings[..instrument.string_count],
    };
    let events = &score.events[..score.count];
    let mut run = Run {
        piano,
        done: 0,
        pushed: 0,
    };
    while run.done < m {
        let stretch = next_stretch(part, tables.designs, instrument, events, run, t, m);
        run = play_stretch(part, scratch, out, trace, tables, stretch);
    }
    run
}

// The piano of silence: zero, false, none.
#[tactic(auto, unfolding(crate::specs::Render::silent_piano))]
pub fn silent_piano() -> Piano
    ensures { result ≡ silent_piano }
{
    Piano {
        held: [false; 16],
        hand_damped: [false; 16],
        damper_r: [0.0; 16],
        contact_samples: [0; 16],
        pedal: false,
        motion: Motion {
            hammer: None,
            peak_force: 0.0,
        },
    }
}

// The cells of silence.
pub fn silence_part(part: &mut [f64])
    ensures { part.new ≡ replicate (length part.old) zero }
{
    part.fill(0.0);
}
