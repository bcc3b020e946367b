// Records that no list of calls reaches, handed to every call: those that refusal 7 has to catch, those that lie far on,
// and those that differ from a right one only where nothing may be decided. The rows of stdin say what each record is;
// each line of stdout has the number that each call gives, 0 where it is accepted, and whether a refused call changed a cell.
#![tactic(auto)]

mod calls;
mod record;
mod row;

use record::WORDS;
use refusal::Refusal;
use std::io;
use std::io::Write;
use test_answers::without_feed;

// The instrument inside is a file that is accepted: a refusal of it ends the program.
fn unexpected(_: Refusal) -> io::Error {
    io::Error::from(io::ErrorKind::InvalidData)
}

fn try_words(rt: &impl Print, words: &[u64; WORDS]) -> io::Result<()> {
    match session_words::session_at(record::session_in(words)) {
        Some(session) => {
            let instrument = record::instrument_of(words).map_err(unexpected)?;
            calls::try_calls(rt, instrument, session, record::lent_of(words))
        }
        None => print!(rt; " not a session's words"),
    }
}

// A row's name ends at its first colon.
fn try_row(rt: &impl Print, row: &[u8]) -> io::Result<()> {
    let (name, changes) = match row.iter().position(|b| *b == b':') {
        Some(n) => (&row[..n], &row[n + 1..]),
        None => (row, &row[..0]),
    };
    io::writer(rt).write_all(name)?;
    print!(rt; ":")?;
    let mut words = record::right_words().map_err(unexpected)?;
    match row::change(&mut words, changes) {
        Some(()) => try_words(rt, &words)?,
        None => print!(rt; " unreadable")?,
    }
    println!(rt;)
}

// Empty lines and those that begin with # are no rows.
fn try_lines(rt: &impl Print, text: &[u8]) -> io::Result<()> {
    for part in text.split_inclusive(|b| *b == b'\n') {
        let line = without_feed(part);
        if !line.is_empty() && !line.starts_with(b"#".as_slice()) {
            try_row(rt, line)?;
        }
    }
    Ok(())
}

fn main(rt: HostRuntime) -> io::Result<()> {
    let mut text = test_answers::blank::<65536>();
    let n = test_answers::read_full(&mut rt.stdin(), &mut text)?;
    try_lines(&rt, &text[..n])?;
    if n == 65536 {
        println!(rt; "the rows may go on past what is read")?;
    }
    Ok(())
}
