// Says every message of crate program, also that of an answer that is not taken, with words of any length, as no program has them: they stand whole on standard error, where tests/programs reads them.
#![tactic(auto)]

use program::arguments;
use program::arguments::{Arguments, Failure};
use program::system::{Program, System};
use std::fmt;
use std::fmt::{Display, Formatter};

// The words over and over, as a value that shows in many pieces.
#[derive(Clone, Copy)]
struct Often<'a> {
    words: &'a str,
}

impl<'a> Display for Often<'a> {
    fn fmt<W: fmt::Write>(&self, f: &mut Formatter<W>) -> fmt::Result {
        for _ in 0..40 {
            f.write_str(self.words)?;
            f.write_str(" ")?;
        }
        Ok(())
    }
}

fn say(program: &Program<'_, impl System>, given: Arguments) -> Result<(), Failure> {
    let mut bytes = [0u8; 4096];
    let words = given.path(program, 0, "WORDS", &mut bytes)?;
    program.answer_of("answer", words)?;
    program.complain("words", words);
    program.complain("often", Often { words });
    program.complain_at("line", u64::MAX, words);
    program.complain_of_word(b"", "word", words);
    program.complain_of_word(words.as_bytes(), "word", words);
    program.explain(words);
    Ok(())
}

fn main(rt: HostRuntime) {
    let program = Program {
        rt: &rt,
        name: "test_messages",
    };
    let given = arguments::given(&rt);
    arguments::end(given, say(&program, given));
}
