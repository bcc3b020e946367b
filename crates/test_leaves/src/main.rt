// Replays answers of the Rust that `compare/leaves` stored, with no Rust at hand: it reads them,
// asks the leaves the same, and counts by kind what differs. A line that it cannot read counts too.
#![tactic(auto)]

mod answers;
mod decimated;

use answers::{KINDS, Kind};
use std::io;
use test_answers::{Verdict, after_name, read_words, without_feed};

// The stored answers of a kind, and those of them that differ.
#[derive(Clone, Copy)]
struct Count {
    answers: u64,
    differ: u64,
}

// A count for each kind, in the order of KINDS, and the lines that cannot be read.
#[derive(Clone, Copy)]
struct Tally {
    counts: [Count; 12],
    unreadable: u64,
}

fn nothing() -> Tally {
    let none = Count {
        answers: 0,
        differ: 0,
    };
    Tally {
        counts: [none; 12],
        unreadable: 0,
    }
}

// What a line that begins with a kind's name says of the leaf.
fn judge_line(kind: Kind, rest: &[u8]) -> Option<Verdict> {
    let mut words = [0u64; 288];
    kind.judge(read_words(rest, &mut words)?)
}

impl Count {
    fn add(&mut self, verdict: Verdict) {
        self.answers = self.answers.wrapping_add(1);
        if verdict == Verdict::Differs {
            self.differ = self.differ.wrapping_add(1);
        }
    }
}

// The stored answers of one kind have one name.
fn count_line(tally: &mut Tally, line: &[u8]) {
    for (kind, count) in KINDS.iter().zip(tally.counts.iter_mut()) {
        if let Some(rest) = after_name(line, kind.name().as_bytes()) {
            if let Some(verdict) = judge_line(*kind, rest) {
                count.add(verdict);
                return;
            }
        }
    }
    tally.unreadable = tally.unreadable.wrapping_add(1);
}

fn report(rt: &impl Print, tally: &Tally) -> io::Result<()> {
    for (kind, count) in KINDS.iter().zip(&tally.counts) {
        println!(rt;
            "{} {} answers, {} differ",
            kind.name(),
            count.answers,
            count.differ
        )?;
    }
    println!(rt; "{} lines unreadable", tally.unreadable)
}

fn replay(rt: &impl Print, text: &[u8]) -> io::Result<()> {
    let mut tally = nothing();
    for line in text.split_inclusive(|b| *b == b'\n') {
        count_line(&mut tally, without_feed(line));
    }
    report(rt, &tally)
}

fn main(rt: HostRuntime) -> io::Result<()> {
    let mut text = test_answers::blank::<262144>();
    let n = test_answers::read_full(&mut rt.stdin(), &mut text)?;
    replay(&rt, &text[..n])?;
    decimated::print_row(&rt)?;
    if n == 262144 {
        println!(rt; "the answers may go on past what is read")?;
    }
    Ok(())
}
