// Answers on their way to standard output.
ghost use Rattle.std.specs.Prelude.{◌≤◌};

use program::output;
use program::system::System;
use std::io;
use std::io::Write;

// Of the buffer the first `held` bytes wait to be written. Once a write has failed nothing is written behind it.
#[derive(Drop)]
pub struct Answers<'a, R: System> {
    rt: &'a R,
    buffer: [u8; 16384],
    held: usize,
    error: Option<io::Error>,
    ghost within: { held ≤ 16384 },
}

impl<'a, R: System> Answers<'a, R> {
    pub fn new(rt: &'a R) -> Answers<'a, R> {
        Answers {
            rt,
            buffer: [0; 16384],
            held: 0,
            error: None,
        }
    }
}

impl<'a, R: System> Write for Answers<'a, R> {
    fn write(&mut self, bytes: &[u8]) -> io::Result<usize> {
        if self.held == 16384 {
            self.flush()?;
        }
        let start = self.held;
        let n = bytes.len().min(16384 - start);
        self.buffer[start..start + n].copy_from_slice(&bytes[..n]);
        self.held = start + n;
        Ok(n)
    }

    fn flush(&mut self) -> io::Result<()> {
        if let Some(error) = self.error {
            return Err(error);
        }
        let held = self.held;
        self.held = 0;
        match output::write(&mut self.rt.answers(), &self.buffer[..held]) {
            Ok(()) => Ok(()),
            Err(unfinished) => {
                self.error = Some(unfinished.error);
                Err(unfinished.error)
            }
        }
    }
}
