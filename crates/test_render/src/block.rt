// One stored block: rendered again, and held to what the Rust gave.
ghost use Rattle.std.specs.Prelude.{◌≡◌, ◌+◌, ◌^◌, ◌<◌, ◌≤◌, true};
ghost use Rattle.instrument.specs.Valid.{valid};
ghost use Rattle.render.specs.Render.{PianoAt};

use crate::state::{between, same_state};
use instrument::Instrument;
use render::Run;
use score::{Piano, Score};
use test_answers::{Verdict, all_alike, digest};

// The most samples of a block.
const LONGEST: usize = 4096;

// The cells of the largest instrument.
pub const CELLS: usize = 132384;

// The most words of a line.
pub const WORDS: usize = 1024;

// The words of a block before its samples: how many samples and forces, the piano's state, a digest of the cells.
const HEAD: usize = 44;

// Far past every stored render: where t and a length are at most this, their sum fits into 64 bits.
const LAST: u64 = 0x7fff_ffff_ffff_ffff;

// A render in progress, at position t; of a file that is refused there is no instrument.
#[derive(Clone, Copy)]
pub struct Render {
    pub instrument: Option<Instrument>,
    pub score: Score,
    pub piano: Piano,
    pub t: u64,
}

// A block's verdict, and the piano after it.
#[derive(Clone, Copy)]
pub struct Judged {
    pub verdict: Verdict,
    pub piano: Piano,
    pub samples: u64,
    pub forces: u64,
}

// What the renderer requires of its numbers.
fn is_playable(instrument: Instrument, count: usize, piano: Piano, t: u64, m: u64) -> bool
    ensures { result ≡ true → (valid instrument ≡ true) × (count ≤ 64) × PianoAt instrument.key_count piano t × (t + m < 2 ^ 64) }
{
    let valid = instrument::is_valid(instrument);
    let sound = session_cues::is_sound_piano(instrument.key_count, t, piano);
    valid & (sound & ((count <= 64) & ((t <= LAST) & (m <= LAST))))
}

// What is left where the renderer cannot be asked: nothing happens.
fn unplayed(piano: Piano) -> Run {
    Run {
        piano,
        done: 0,
        pushed: 0,
    }
}

// m samples on the instrument, with as much scratch as a play asks for.
fn play(
    cells: &mut [f64; CELLS],
    out: &mut [f64; LONGEST],
    trace: &mut [f64; LONGEST],
    instrument: Instrument,
    render: Render,
    m: u64,
) -> Run {
    let score = render.score;
    let piano = render.piano;
    let t = render.t;
    if !is_playable(instrument, score.count, piano, t, m) {
        return unplayed(piano);
    }
    let mut scratch = [0.0 / 0.0; 32];
    let asked = session_record::scratch_cells(instrument);
    let lent = &mut scratch[..asked];
    render::render(cells, lent, out, trace, instrument, score, piano, t, m)
}

// At most the first n cells.
fn first(cells: &[f64], n: usize) -> &[f64] {
    &cells[..n.min(cells.len())]
}

// Samples and forces one by one, or by a digest of each, from word HEAD on.
fn same_sound(out: &[f64], forces: &[f64], words: &[u64; WORDS], n: usize, digested: bool) -> bool {
    if digested {
        return n == HEAD + 2 && digest(out) == words[HEAD] && digest(forces) == words[HEAD + 1];
    }
    let middle = HEAD.wrapping_add(out.len());
    all_alike(out, between(words, HEAD, middle)) && all_alike(forces, between(words, middle, n))
}

// What a run of m samples left, held to the words of the block.
fn same_block(
    run: &Run,
    out: &[f64; LONGEST],
    trace: &[f64; LONGEST],
    words: &[u64; WORDS],
    n: usize,
    digested: bool,
) -> bool {
    let samples = first(out, words[0] as usize);
    let forces = first(trace, run.pushed);
    words[1] == run.pushed as u64
        && same_state(&run.piano, words)
        && same_sound(samples, forces, words, n, digested)
}

fn same_cells(instrument: Option<Instrument>, cells: &[f64; CELLS], word: u64) -> bool {
    digest(first(cells, instrument.map_or(0, instrument::part_cells))) == word
}

// The block that the first n words tell of, in buffers of other content than silence, so that a cell not written is seen. None where they are no block.
pub fn judge(
    cells: &mut [f64; CELLS],
    render: Render,
    words: &[u64; WORDS],
    n: usize,
    digested: bool,
) -> Option<Judged> {
    let m = words[0];
    if n < HEAD || (LONGEST as u64) < m {
        return None;
    }
    let mut out = [4242.0; LONGEST];
    let mut trace = [4242.0; LONGEST];
    let run = match render.instrument {
        Some(instrument) => play(cells, &mut out, &mut trace, instrument, render, m),
        None => unplayed(render.piano),
    };
    let is_same = same_block(&run, &out, &trace, words, n, digested)
        && same_cells(render.instrument, cells, words[43]);
    Some(Judged {
        verdict: Verdict::from(is_same),
        piano: run.piano,
        samples: m,
        forces: run.pushed as u64,
    })
}
