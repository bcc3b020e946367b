// The session's record as 616 words in a lent slice, so that it can cross to C and Rust. What is written is read back, and words
// that count and have no meaning are told.
#![tactic(auto)]

mod cue;
mod event;
mod piano;
mod session;
mod words;

ghost use Rattle.std.specs.Prelude.{◌≡◌};
ghost use Rattle.session_words.specs.Session.{session_in, session_from, PutMeets};

pub use event::{checked_event, event_of, is_event};
use session_record::Session;
use words::Words;

// How many words a session has.
pub const LENGTH: usize = Session::SIZE;

// The session is written where the slice has its length; else nothing changes.
pub fn put_session(words: &mut [u64], session: Session) -> bool
    ensures { PutMeets session words.old result words.new }
{
    let fits = words.len() == LENGTH;
    if fits {
        session.put(words, 0);
    }
    fits
}

// The session that the words are, if each that counts has a meaning.
pub fn session_at(words: &[u64]) -> Option<Session>
    ensures { result ≡ session_in words.now }
{
    if words.len() == LENGTH && Session::stands_at(words, 0) {
        Some(Session::read(words, 0))
    } else {
        None
    }
}

// The session that any words give, those without a meaning too. Where there are not as many as a session has, it is that of zeros.
pub fn session_from(words: &[u64]) -> Session
    ensures { result ≡ session_from words.now }
{
    if words.len() == LENGTH {
        Session::read(words, 0)
    } else {
        Session::read(&[0; LENGTH], 0)
    }
}
