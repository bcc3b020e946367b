// Replays renders of the Rust that `compare/render` stored, with no Rust at hand: instruments, scores and blocks are
// read, rendered by the proved renderer, and each block's samples, forces and state held to the Rust's.
#![tactic(auto)]

mod block;
mod state;

use block::{CELLS, Render, WORDS};
use little_endian::{float_of, part, put_u64};
use score::{Event, Score, TimedEvent};
use std::io;
use test_answers::{Verdict, after_name, read_words, without_feed};

#[derive(Clone, Copy, Default)]
struct Tally {
    renders: u64,
    blocks: u64,
    samples: u64,
    forces: u64,
    differing: u64,
    unreadable: u64,
}

fn add(count: &mut u64, n: u64) {
    *count = count.wrapping_add(n);
}

// The bytes of a file that stands in words, eight to a word, after the word of its length.
fn unpack_file(words: &[u64; WORDS], file: &mut [u8; 2304]) {
    for (i, word) in words[1..].iter().enumerate() {
        put_u64(file, i.wrapping_mul(8), *word);
    }
}

// Silence on the instrument of a file's bytes, with no events.
fn silence(file: &[u8]) -> Render {
    let none = TimedEvent {
        position: 0,
        event: Event::Pedal(false),
    };
    Render {
        instrument: instrument_file::read(file).ok(),
        score: Score {
            events: [none; 64],
            count: 0,
        },
        piano: render::silent_piano(),
        t: 0,
    }
}

// A new render.
fn start(words: &[u64; WORDS], cells: &mut [f64; CELLS]) -> Render {
    let mut file = [0u8; 2304];
    unpack_file(words, &mut file);
    render::silence_part(cells);
    silence(part(&file, 0, words[0] as usize))
}

// Kinds as the file numbers them: 0 a strike, 1 a release, 2 the pedal, whose key is 1 for down, and any other a hand damp. The session's
// words, which have the same numbers, refuse any other.
fn event_of(kind: u64, key: u64, velocity: f64) -> Event {
    let number = (key % 256) as u8;
    match kind {
        0 => Event::NoteOn {
            key: number,
            velocity,
        },
        1 => Event::NoteOff { key: number },
        2 => Event::Pedal(key == 1),
        _ => Event::HandDamp { key: number },
    }
}

// One event more: position, kind, key and velocity. A score of more than 64 is not rendered.
fn add_event(words: &[u64; WORDS], render: &mut Render) {
    let n = render.score.count;
    if n < 64 {
        render.score.events[n] = TimedEvent {
            position: words[0],
            event: event_of(words[1], words[2], float_of(words[3])),
        };
    }
    render.score.count = n.wrapping_add(1);
}

// The block that the first n words tell of.
fn replay_block(
    tally: &mut Tally,
    words: &[u64; WORDS],
    n: usize,
    cells: &mut [f64; CELLS],
    render: &mut Render,
    digested: bool,
) {
    let Some(judged) = block::judge(cells, *render, words, n, digested) else {
        add(&mut tally.unreadable, 1);
        return;
    };
    add(&mut tally.blocks, 1);
    if judged.verdict == Verdict::Differs {
        add(&mut tally.differing, 1);
    }
    add(&mut tally.samples, judged.samples);
    add(&mut tally.forces, judged.forces);
    render.piano = judged.piano;
    render.t = render.t.wrapping_add(judged.samples);
}

// What a line tells of.
#[derive(Clone, Copy)]
enum Kind {
    Instrument,
    Event,
    Block,
    Run,
}

// A line's kind, and what follows its name; None where it begins with no name.
fn kind_of(line: &[u8]) -> Option<(Kind, &[u8])> {
    if let Some(rest) = after_name(line, b"instrument") {
        return Some((Kind::Instrument, rest));
    }
    if let Some(rest) = after_name(line, b"event") {
        return Some((Kind::Event, rest));
    }
    if let Some(rest) = after_name(line, b"block") {
        return Some((Kind::Block, rest));
    }
    let rest = after_name(line, b"run")?;
    Some((Kind::Run, rest))
}

// The kind of a line and how many words it has, which are put into the first places; None where it cannot be read.
fn read_line(line: &[u8], words: &mut [u64; WORDS]) -> Option<(Kind, usize)> {
    let (kind, rest) = kind_of(line)?;
    let n = read_words(rest, words)?.len();
    match kind {
        _ if n == 0 => None,
        Kind::Event if n != 4 => None,
        _ => Some((kind, n)),
    }
}

fn replay_line(tally: &mut Tally, line: &[u8], cells: &mut [f64; CELLS], render: &mut Render) {
    let mut words = [0u64; WORDS];
    match read_line(line, &mut words) {
        Some((Kind::Instrument, _)) => {
            add(&mut tally.renders, 1);
            *render = start(&words, cells);
        }
        Some((Kind::Event, _)) => add_event(&words, render),
        Some((Kind::Block, n)) => replay_block(tally, &words, n, cells, render, false),
        Some((Kind::Run, n)) => replay_block(tally, &words, n, cells, render, true),
        None => add(&mut tally.unreadable, 1),
    }
}

fn replay_lines(tally: &mut Tally, text: &[u8], cells: &mut [f64; CELLS]) {
    let mut render = silence(b"");
    for line in text.split_inclusive(|b| *b == b'\n') {
        replay_line(tally, without_feed(line), cells, &mut render);
    }
}

// The tally, a name to each count.
fn report(rt: &impl Print, tally: &Tally) -> io::Result<()> {
    println!(rt; "{} renders", tally.renders)?;
    println!(rt; "{} blocks with their states", tally.blocks)?;
    println!(rt; "{} samples", tally.samples)?;
    println!(rt; "{} forces", tally.forces)?;
    println!(rt; "{} blocks differ", tally.differing)?;
    println!(rt; "{} lines unreadable", tally.unreadable)
}

fn replay(rt: &impl Print, text: &[u8]) -> io::Result<()> {
    let mut tally = Tally::default();
    let mut cells = [0.0; CELLS];
    replay_lines(&mut tally, text, &mut cells);
    report(rt, &tally)
}

fn main(rt: HostRuntime) -> io::Result<()> {
    let mut text = test_answers::blank::<524288>();
    let n = test_answers::read_full(&mut rt.stdin(), &mut text)?;
    replay(&rt, &text[..n])?;
    if n == 524288 {
        println!(rt; "the answers may go on past what is read")?;
    }
    Ok(())
}
