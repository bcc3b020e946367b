// Long calls in parts. A play that the output does not hold whole, and a go of many samples, are several calls of the session, so that the program can write what was played and show that
// it is alive. What the parts leave is what the whole leaves, their numbers add up to its number, and the last part's contact samples are its own: `go_parts` and `play_parts` in
// session_theorem/specs/Parts. A call that would be refused is refused at its first part, and changes nothing.
use crate::script::Command;
use crate::{Console, Reply, Turn};
use score_edits::END;
use session::Answer;

impl Console {
    // Where the next part of a go to p ends: at most `most` samples on. A go that is refused whole has no parts.
    fn stop_of(&self, p: u64, most: u64) -> u64 {
        let start = session_record::start_of(self.session, p);
        let way = p.wrapping_sub(start);
        let is_whole = END < p || session_record::LONGEST < way || way <= most;
        if is_whole {
            p
        } else {
            start.wrapping_add(most)
        }
    }
}

// What is left of a line's command, and the number that its parts have given so far.
#[derive(Clone, Copy)]
pub struct Task {
    pub command: Command,
    pub sum: u64,
}

impl Task {
    pub fn new(command: Command) -> Task {
        Task { command, sum: 0 }
    }

    // The command to call now, where a go replays at most `most` samples at a time.
    pub fn next_part(self, console: &Console, most: u64) -> Command {
        match self.command {
            Command::Go(position) => Command::Go(console.stop_of(position, most)),
            command => command,
        }
    }

    // What the part leaves of the task, if anything.
    pub fn after(self, part: Command, turn: Turn) -> Option<Task> {
        match (part, turn.reply) {
            (Command::Play(samples), Reply::Called(answer)) => self.left_to_play(
                samples, turn, answer,
            ),
            (Command::Go(stop), Reply::Called(answer)) => self.left_to_go(stop, answer),
            _ => None,
        }
    }

    // A play is done where nothing was played, or all.
    fn left_to_play(self, samples: u64, turn: Turn, answer: Answer) -> Option<Task> {
        let Answer::Played { k, .. } = answer else {
            return None;
        };
        let rest = samples.saturating_sub(turn.samples as u64);
        if turn.samples == 0 || rest == 0 {
            return None;
        }
        Some(Task {
            command: Command::Play(rest),
            sum: self.sum.wrapping_add(k as u64),
        })
    }

    // A go is done where the part was all of it.
    fn left_to_go(self, stop: u64, answer: Answer) -> Option<Task> {
        let (Command::Go(position), Answer::Went(n)) = (self.command, answer) else {
            return None;
        };
        if stop == position {
            return None;
        }
        Some(Task {
            command: self.command,
            sum: self.sum.wrapping_add(n),
        })
    }

    // The last part's reply with the number of the whole.
    pub fn totalled(self, reply: Reply) -> Reply {
        match reply {
            Reply::Called(Answer::Played { k, contacts }) => Reply::Called(Answer::Played {
                k: self.sum.wrapping_add(k as u64) as usize,
                contacts,
            }),
            Reply::Called(Answer::Went(n)) => Reply::Called(Answer::Went(self.sum.wrapping_add(n))),
            _ => reply,
        }
    }
}
