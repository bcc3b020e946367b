// What `rehearse` plays where no file is named: an instrument of eight keys, and a phrase.
#![tactic(auto)]

mod phrase;
mod piano;

pub use phrase::script;
pub use piano::instrument;
