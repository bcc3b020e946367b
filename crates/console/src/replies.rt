// The line of text that answers a line of the script.
use crate::{Console, Failure, Reply};
use energies::Energies;
use session::Answer;
use session_cues::Cue;
use std::fmt;
use std::fmt::{InlineText, Write};
use text::Bits;

// No reply is as long.
pub type Line = InlineText<1024>;

impl Console {
    // The answer to the script's line `number`; empty to a line that is skipped.
    pub fn line_of(&self, number: u64, reply: Result<Reply, Failure>) -> Line {
        let mut line = Line::new();
        let _ = match reply {
            Ok(reply) => self.write_reply(&mut line, reply),
            Err(Failure::Bad(fault)) => write!(line, "bad line {number}: {fault}"),
            Err(Failure::Refused(refusal)) => write!(line, "{refusal}"),
        };
        line
    }

    fn write_reply(&self, line: &mut Line, reply: Reply) -> fmt::Result {
        match reply {
            Reply::Skipped => Ok(()),
            Reply::Done => write!(line, "ok"),
            Reply::Called(answer) => self.write_answer(line, answer),
            Reply::Energies(energies) => write_energies(line, energies),
            Reply::State => self.write_state(line),
        }
    }

    fn write_answer(&self, line: &mut Line, answer: Answer) -> fmt::Result {
        match answer {
            Answer::Opened => {
                let strings = self.instrument.string_count;
                let cells = instrument::part_cells(self.instrument);
                write!(line, "ok {strings} {cells}")
            }
            Answer::Played { k, contacts } => write!(line, "ok {k} {contacts}"),
            Answer::Cued => write!(line, "ok"),
            Answer::Went(n) => write!(line, "ok {n}"),
            Answer::Edited { t, dropped } => write!(line, "ok {t} {dropped}"),
        }
    }

    fn write_state(&self, line: &mut Line) -> fmt::Result {
        let t = self.session.t;
        write!(line, "ok t {t}")?;
        self.write_contacts(line)?;
        let peak = Bits(self.session.piano.motion.peak_force);
        let events = self.session.count;
        write!(line, " peak {peak} events {events} cues")?;
        write_cues(line, self.session.cues)
    }

    // The contact samples of all keys, then each key's, in the order of the file. No session has more of them than samples.
    fn write_contacts(&self, line: &mut Line) -> fmt::Result {
        let piano = &self.session.piano;
        let keys = self.instrument.key_count;
        let t = self.session.t;
        let total = score::contacts(piano.contact_samples, keys, t).unwrap_or(t);
        write!(line, " contact {total} keys")?;
        for count in piano.contact_samples.iter().take(keys) {
            write!(line, " {count}")?;
        }
        Ok(())
    }
}

// The positions of the kept cues in rising order.
fn write_cues(line: &mut Line, cues: [Cue; 4]) -> fmt::Result {
    let mut positions = cues.map(|cue| if cue.kept { Some(cue.position) } else { None });
    positions.sort_unstable();
    for position in positions.iter().flatten() {
        write!(line, " {position}")?;
    }
    Ok(())
}

// The keys' numbers and energies in the file's order.
fn write_energies(line: &mut Line, energies: Energies) -> fmt::Result {
    write!(line, "ok")?;
    for pair in energies.keys.iter().take(energies.count) {
        let key = pair.key;
        let energy = Bits(pair.energy);
        write!(line, " {key}:{energy}")?;
    }
    Ok(())
}
