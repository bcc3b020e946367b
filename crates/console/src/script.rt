// A script's lines: one call a line, in words and decimal numbers.
use score::{Event, TimedEvent};
use std::fmt;
use text::{Words, number_of, real_of, words_of};

// What a line asks for. The numbers are a count of samples, a position, an event's index and a count of cells.
#[derive(Clone, Copy)]
pub enum Command {
    Blank,
    Play(u64),
    Cue,
    Go(u64),
    Insert(TimedEvent),
    Remove(u64),
    Energies,
    State,
    Lend { buffer: Buffer, cells: u64 },
}

#[derive(Clone, Copy)]
pub enum Buffer {
    Scratch,
    Trace,
    Work,
}

// What a bad line lacks. The last three are for those to give that know how long a line, a buffer or a file may be.
#[derive(Clone, Copy)]
pub enum Fault {
    UnknownCommand,
    ByteOrderMark,
    UnknownEvent,
    NoEvent,
    UnknownBuffer,
    WrongWords,
    NoNumber,
    NoKey,
    NoVelocity,
    NoDirection,
    TooLarge,
    LineTooLong,
    WaveFull,
}

// In plain words.
impl fmt::Display for Fault {
    fn fmt<W: fmt::Write>(&self, f: &mut fmt::Formatter<W>) -> fmt::Result {
        let words = match *self {
            Fault::UnknownCommand => "there is no such call",
            Fault::ByteOrderMark => "it begins with a byte order mark: a script is plain text",
            Fault::UnknownEvent => "an event is on, off, pedal or hand",
            Fault::NoEvent => "insert wants a position and an event, as `insert 0 on 60 3`",
            Fault::UnknownBuffer => "what is lent is scratch, trace or work",
            Fault::WrongWords => "too few words, or too many",
            Fault::NoNumber => "a whole number of 64 bits is wanted",
            Fault::NoKey => "a key is a whole number from 0 to 255",
            Fault::NoVelocity => {
                "a velocity is a decimal of at most 15 digits, or 0x and 16 hexadecimal digits"
            }
            Fault::NoDirection => "a pedal goes down or up",
            Fault::TooLarge => "the number is larger than the program's memory",
            Fault::LineTooLong => "the line is longer than 65535 bytes",
            Fault::WaveFull => "the WAV would pass 4 GiB, which its header cannot say",
        };
        write!(f, "{words}")
    }
}

// ---- the words behind a command's name

fn none_left(mut words: Words<'_>) -> Result<(), Fault> {
    match words.next() {
        None => Ok(()),
        Some(_) => Err(Fault::WrongWords),
    }
}

// The one word that is left.
fn last_word(mut words: Words<'_>) -> Result<&[u8], Fault> {
    let word = words.next().ok_or(Fault::WrongWords)?;
    none_left(words)?;
    Ok(word)
}

fn number_in(word: &[u8]) -> Result<u64, Fault> {
    number_of(word).map_err(|_| Fault::NoNumber)
}

fn last_number(words: Words<'_>) -> Result<u64, Fault> {
    number_in(last_word(words)?)
}

fn key_in(word: &[u8]) -> Result<u8, Fault> {
    let number = number_of(word).map_err(|_| Fault::NoKey)?;
    u8::try_from(number).map_err(|_| Fault::NoKey)
}

// `lend BUFFER N`
fn lend(mut words: Words<'_>) -> Result<Command, Fault> {
    let buffer = match words.next() {
        Some(b"scratch") => Buffer::Scratch,
        Some(b"trace") => Buffer::Trace,
        Some(b"work") => Buffer::Work,
        _ => return Err(Fault::UnknownBuffer),
    };
    let cells = last_number(words)?;
    Ok(Command::Lend { buffer, cells })
}

// ---- events

// `on KEY VELOCITY`
fn note_on(mut words: Words<'_>) -> Result<Event, Fault> {
    let key = words.next().ok_or(Fault::WrongWords)?;
    let velocity = last_word(words)?;
    let key = key_in(key)?;
    let velocity = real_of(velocity).ok_or(Fault::NoVelocity)?;
    Ok(Event::NoteOn { key, velocity })
}

fn last_key(words: Words<'_>) -> Result<u8, Fault> {
    key_in(last_word(words)?)
}

fn pedal(words: Words<'_>) -> Result<Event, Fault> {
    match last_word(words)? {
        b"up" => Ok(Event::Pedal(false)),
        b"down" => Ok(Event::Pedal(true)),
        _ => Err(Fault::NoDirection),
    }
}

fn event_of(name: &[u8], words: Words<'_>) -> Result<Event, Fault> {
    match name {
        b"on" => note_on(words),
        b"off" => last_key(words).map(|key| Event::NoteOff { key }),
        b"hand" => last_key(words).map(|key| Event::HandDamp { key }),
        b"pedal" => pedal(words),
        _ => Err(Fault::UnknownEvent),
    }
}

// `insert Q EVENT ..`
fn insert(mut words: Words<'_>) -> Result<Command, Fault> {
    let position = words.next().ok_or(Fault::NoEvent)?;
    let name = words.next().ok_or(Fault::NoEvent)?;
    let position = number_in(position)?;
    let event = event_of(name, words)?;
    Ok(Command::Insert(TimedEvent { position, event }))
}

// ---- lines

// Some editors begin a text with the three bytes of a byte order mark, which no eye sees.
fn unknown(line: &[u8]) -> Fault {
    if line.starts_with(b"\xef\xbb\xbf") {
        Fault::ByteOrderMark
    } else {
        Fault::UnknownCommand
    }
}

// One line, without its line feed.
pub fn command_of(line: &[u8]) -> Result<Command, Fault> {
    if line.starts_with(b"#") {
        return Ok(Command::Blank);
    }
    let mut words = words_of(line);
    let Some(name) = words.next() else {
        return Ok(Command::Blank);
    };
    match name {
        b"play" => last_number(words).map(|samples| Command::Play(samples)),
        b"cue" => none_left(words).map(|_| Command::Cue),
        b"go" => last_number(words).map(|position| Command::Go(position)),
        b"insert" => insert(words),
        b"remove" => last_number(words).map(|index| Command::Remove(index)),
        b"energies" => none_left(words).map(|_| Command::Energies),
        b"state" => none_left(words).map(|_| Command::State),
        b"lend" => lend(words),
        _ => Err(unknown(line)),
    }
}
