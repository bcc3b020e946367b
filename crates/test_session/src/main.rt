// Replays lists of calls that `compare/session` stored, with no Rust at hand: each line of a script is called again, and its answer, samples and forces are held to those
// that the plain machine over the Rust gave. A line that cannot be read counts too.
#![tactic(auto)]

mod replay;
mod stored;
mod sums;

use console::Memory;
use replay::{Replay, Tally};
use std::io;
use text::lines::Reader;

fn report(rt: &impl Print, tally: Tally) -> io::Result<()> {
    print!(rt;
        "{} lists, {} answers, {} samples, ",
        tally.lists, tally.answers, tally.samples
    )?;
    println!(rt;
        "{} forces: {} differ, {} lines unreadable",
        tally.forces, tally.differ, tally.unreadable
    )
}

fn main(rt: HostRuntime) -> io::Result<()> {
    let mut work = [0.0; 662000];
    let mut out = [0.0; 65536];
    let mut trace = [0.0; 65536];
    let mut replay = Replay::new(Memory::of(&mut work, &mut out, &mut trace));
    let mut reader = Reader::<65536>::new();
    let mut source = rt.stdin();
    for _ in 0..u64::MAX {
        // of a line that the buffer does not hold the end is taken, as if it stood alone
        match reader.next_end(&mut source) {
            Ok(Some(line)) => replay.take(line),
            Ok(None) | Err(_) => break,
        }
    }
    report(&rt, replay.tally())
}
