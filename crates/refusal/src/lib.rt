// Document 01, "Numbers a call may give": each refusal by a name of its own, the number that documents and programs in C know it by, and its words.
#![tactic(auto)]

ghost use Rattle.std.specs.Prelude.{◌≡◌};
ghost use Rattle.refusal.specs.Refusal.{number_of};

use std::fmt;

#[derive(Clone, Copy, Debug, PartialEq, Eq)]
pub enum Refusal {
    SectionCount,
    Chain,
    SectionLength,
    Field,
    ManyStrings,
    KeyTwice,
    Record,
    Work,
    Scratch,
    Trace,
    PastEnd,
    ScoreFull,
    Velocity,
    NoEvent,
    CuesFull,
    Replay,
    SignalLength,
    Taps,
    OutputLength,
    FileRoom,
}

impl Refusal {
    pub fn number(self) -> u32
        ensures { result ≡ number_of self }
    {
        match self {
            Refusal::SectionCount => 1,
            Refusal::Chain => 2,
            Refusal::SectionLength => 3,
            Refusal::Field => 4,
            Refusal::ManyStrings => 5,
            Refusal::KeyTwice => 6,
            Refusal::Record => 7,
            Refusal::Work => 8,
            Refusal::Scratch => 9,
            Refusal::Trace => 10,
            Refusal::PastEnd => 11,
            Refusal::ScoreFull => 12,
            Refusal::Velocity => 13,
            Refusal::NoEvent => 14,
            Refusal::CuesFull => 15,
            Refusal::Replay => 16,
            Refusal::SignalLength => 17,
            Refusal::Taps => 18,
            Refusal::OutputLength => 19,
            Refusal::FileRoom => 20,
        }
    }

    fn words(self) -> &'static str {
        match self {
            Refusal::SectionCount => {
                "the file is too short, or its number of sections is out of range"
            }
            Refusal::Chain => "the sections do not chain",
            Refusal::SectionLength => "a section has a wrong length",
            Refusal::Field => "a field is out of range",
            Refusal::ManyStrings => "more than 32 strings",
            Refusal::KeyTwice => "a key comes twice",
            Refusal::Record => "the instrument or the session is wrong",
            Refusal::Work => "work memory is too short",
            Refusal::Scratch => "scratch is too short",
            Refusal::Trace => "the trace is shorter than the output",
            Refusal::PastEnd => "beyond the last position",
            Refusal::ScoreFull => "the score is full",
            Refusal::Velocity => "the velocity is not from -100 to 100",
            Refusal::NoEvent => "no event has this index",
            Refusal::CuesFull => "four other cues are kept",
            Refusal::Replay => "more than 1000000 samples to replay",
            Refusal::SignalLength => "the factor exceeds 64, or the input 1048576 samples",
            Refusal::Taps => "there aren't 127 taps",
            Refusal::OutputLength => "the output has another length than what is decimated",
            Refusal::FileRoom => "the bytes lent are fewer than the file's",
        }
    }
}

// `refused NUMBER: WORDS`
impl fmt::Display for Refusal {
    fn fmt<W: fmt::Write>(&self, f: &mut fmt::Formatter<W>) -> fmt::Result {
        let refusal = *self;
        write!(f, "refused {}: {}", refusal.number(), refusal.words())
    }
}

impl From<Refusal> for u32 {
    ghost from_gives = { λ refusal number. number ≡ number_of refusal };

    fn from(refusal: Refusal) -> u32 {
        refusal.number()
    }
}

impl From<Refusal> for u64 {
    ghost from_gives = { λ refusal number. number ≡ number_of refusal };

    fn from(refusal: Refusal) -> u64 {
        u64::from(refusal.number())
    }
}
