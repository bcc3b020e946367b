// A script's calls of the session, each with as much memory as is lent.
use crate::script::Fault;
use crate::{Console, Failure, LONGEST, Memory, Reply, Turn};
use refusal::Refusal;
use score::TimedEvent;
use score_edits::END;
use session::Answer;

// What stands in scratch decides nothing, so none is kept from call to call: each has its own, of NaN.
fn unset_scratch() -> [f64; 256] {
    [f64::NAN; 256]
}

impl Console {
    // A play into an output and a trace that are cut to their lengths.
    fn play_into(
        &mut self,
        work: &mut [f64],
        out: &mut [f64],
        trace: &mut [f64],
    ) -> Result<Turn, Failure> {
        let cells = self.lent.work.min(work.len());
        let mut scratch = unset_scratch();
        let s = self.lent.scratch.min(scratch.len());
        let outcome = session::play(
            self.instrument,
            self.session,
            &mut work[..cells],
            &mut scratch[..s],
            out,
            trace,
        );
        let answer = self.keep(outcome)?;
        let mut turn = Turn::from(Reply::Called(answer));
        if let Answer::Played { k, .. } = answer {
            turn.samples = out.len();
            turn.forces = k;
        }
        Ok(turn)
    }

    // The first part of a play that the output does not hold whole. What the whole is refused for comes first: a trace that is shorter than the whole, and the end, which a go to
    // where the play would end meets too; neither changes anything.
    fn play_part(&mut self, samples: usize, memory: &mut Memory<'_>) -> Result<Turn, Failure> {
        if self.lent.trace < samples {
            return self.play_into(memory.work, memory.out, &mut []);
        }
        let end = self.session.t.wrapping_add(samples as u64);
        if END < end {
            let answer = self.go(end, memory.work)?;
            return Ok(Turn::from(Reply::Called(answer)));
        }
        self.play_into(memory.work, memory.out, memory.trace)
    }

    pub(crate) fn play(&mut self, samples: u64, memory: &mut Memory<'_>) -> Result<Turn, Failure> {
        if LONGEST < samples {
            return Err(Failure::Bad(Fault::TooLarge));
        }
        let samples = samples as usize;
        if memory.out.len() < samples {
            return self.play_part(samples, memory);
        }
        let forces = self.lent.trace.min(memory.trace.len());
        self.play_into(
            memory.work,
            &mut memory.out[..samples],
            &mut memory.trace[..forces],
        )
    }

    pub(crate) fn cue(&mut self, work: &mut [f64]) -> Result<Answer, Refusal> {
        let cells = self.lent.work.min(work.len());
        let outcome = session::cue(self.instrument, self.session, &mut work[..cells]);
        self.keep(outcome)
    }

    pub(crate) fn go(&mut self, position: u64, work: &mut [f64]) -> Result<Answer, Refusal> {
        let cells = self.lent.work.min(work.len());
        let mut scratch = unset_scratch();
        let s = self.lent.scratch.min(scratch.len());
        let outcome = session::go(
            self.instrument,
            self.session,
            &mut work[..cells],
            &mut scratch[..s],
            position,
        );
        self.keep(outcome)
    }

    pub(crate) fn insert(
        &mut self,
        timed: TimedEvent,
        work: &mut [f64],
    ) -> Result<Answer, Refusal> {
        let cells = self.lent.work.min(work.len());
        let outcome = session::insert(self.instrument, self.session, &mut work[..cells], timed);
        self.keep(outcome)
    }

    pub(crate) fn remove(&mut self, index: u64, work: &mut [f64]) -> Result<Answer, Refusal> {
        let cells = self.lent.work.min(work.len());
        let outcome = session::remove(
            self.instrument,
            self.session,
            &mut work[..cells],
            index as usize,
        );
        self.keep(outcome)
    }
}
