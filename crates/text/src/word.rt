// The words of a line: what stands between spaces and tabs.
ghost use Rattle.std.specs.Prelude.{length};
ghost use Rattle.std.specs.Iterator.{at_most};

fn is_space(b: u8) -> bool {
    b == b' ' || b == b'\t'
}

// One word after the other, of what is left of the line.
#[derive(Clone, Copy)]
pub struct Words<'a> {
    rest: &'a [u8],
}

pub fn words_of(line: &[u8]) -> Words<'_> {
    Words { rest: line }
}

impl<'a> Iterator for Words<'a> {
    type Item = &'a [u8];

    ghost remaining = { λ words. at_most (length words.rest.now) };

    fn next(&mut self) -> Option<&'a [u8]> {
        let start = self.rest.iter().position(|b| !is_space(*b))?;
        let word = &self.rest[start..];
        match word.iter().position(|b| is_space(*b)) {
            Some(end) => {
                self.rest = &word[end + 1..];
                Some(&word[..end])
            }
            None => {
                self.rest = b"";
                Some(word)
            }
        }
    }
}

// Word n, counted from 0; empty where the line has fewer.
pub fn word_at(line: &[u8], n: usize) -> &[u8] {
    words_of(line).nth(n).unwrap_or(b"")
}
