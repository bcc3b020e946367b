// The lines of a file, of standard input or of any other source, through a buffer of N bytes.
ghost use Rattle.std.specs.Prelude.{◌+◌, ◌≤◌, IfOk, IfSome, length};

use std::io::Read;
use std::ops::Range;
use std::{io, mem};

// Why a line cannot be given: the buffer does not hold it, and it was dropped up to its end; or a read failed, or was interrupted by a signal.
// The next call goes on behind the line, or reads again.
#[derive(Clone, Copy, Debug)]
pub enum LineError {
    TooLong,
    Failed(io::Error),
}

// What a line is whose beginning was dropped.
#[derive(Clone, Copy)]
enum Cut {
    Line,
    Remark,
}

// Of the buffer the bytes from start up to end are read and not given out yet.
#[derive(Clone, Copy)]
pub struct Reader<const N: usize> {
    bytes: [u8; N],
    start: usize,
    end: usize,
    is_ended: bool,
    cut: Option<Cut>,
    ghost ordered: { start ≤ end },
    ghost within: { end ≤ N },
}

impl<const N: usize> Reader<N> {
    // Nothing of the source is read yet.
    pub fn new() -> Reader<N> {
        Reader {
            bytes: [0; N],
            start: 0,
            end: 0,
            is_ended: false,
            cut: None,
        }
    }

    // The bytes of a text, as many as the buffer holds, and no others: no source is asked, so that `std::io::empty()` may stand for one.
    pub fn holding(text: &[u8]) -> Reader<N> {
        let mut bytes = [0; N];
        let end = text.len().min(N);
        bytes[..end].copy_from_slice(&text[..end]);
        Reader {
            bytes,
            start: 0,
            end,
            is_ended: true,
            cut: None,
        }
    }

    // How many bytes stand before the next line feed, if one is held.
    fn feed(&self) -> Option<usize>
        ensures { IfSome result (λ n. self.now.start + n + 1 ≤ self.now.end) }
    {
        let bytes = &self.bytes[..];
        let held = &bytes[self.start..self.end];
        held.iter().position(|b| *b == b'\n')
    }

    // Whether the next line asks for a read, which may wait.
    pub fn is_waiting(&self) -> bool {
        !self.is_ended && self.feed().is_none()
    }

    // The buffer is full of one line: its bytes are dropped.
    fn drop_line(&mut self) {
        if self.cut.is_none() {
            let is_remark = self.bytes.starts_with(b"#");
            self.cut = Some(if is_remark { Cut::Remark } else { Cut::Line });
        }
        self.start = 0;
        self.end = 0;
    }

    // One read behind the bytes that are held, which move to the front.
    fn refill<R: Read>(&mut self, source: &mut R) -> io::Result<()> {
        let bytes = &mut self.bytes[..];
        bytes.copy_within(self.start..self.end, 0);
        let held = self.end - self.start;
        self.start = 0;
        self.end = held;
        if held == N {
            self.drop_line();
            return Ok(());
        }
        let n = source.read(&mut bytes[held..])?;
        self.end = held + n;
        self.is_ended = n == 0;
        Ok(())
    }

    // The line before a feed. A carriage return at its end is no part of it.
    fn fed(&mut self, feed: usize) -> Range<usize>
        requires { self.old.start + feed + 1 ≤ self.old.end }
    {
        let start = self.start;
        let bytes = &self.bytes[..];
        let text = &bytes[start..start + feed];
        let length = text.strip_suffix(b"\r").unwrap_or(text).len();
        self.start = start + feed + 1;
        start..start + length
    }

    // What stands behind the last line feed, if anything does.
    fn last(&mut self) -> Option<Range<usize>> {
        if self.start == self.end && self.cut.is_none() {
            return None;
        }
        let rest = self.start..self.end;
        self.start = self.end;
        Some(rest)
    }

    // Where the next line stands, or what is left of it. A source may give bytes for ever: a proof wants a bound on the turns.
    fn find<R: Read>(&mut self, source: &mut R) -> io::Result<Option<Range<usize>>> {
        for _ in 0..u64::MAX {
            if let Some(feed) = self.feed() {
                return Ok(Some(self.fed(feed)));
            }
            if self.is_ended {
                break;
            }
            self.refill(source)?;
        }
        Ok(self.last())
    }

    // A line, unless its beginning was dropped. Of a remark whose beginning was dropped nothing is left.
    fn whole(&mut self, line: Option<Range<usize>>) -> Result<Option<Range<usize>>, LineError> {
        match mem::take(&mut self.cut) {
            None => Ok(line),
            Some(Cut::Remark) => Ok(Some(0..0)),
            Some(Cut::Line) => Err(LineError::TooLong),
        }
    }

    // The next line, or None at the end: the source is read, one read at a time, only while the buffer holds no whole line.
    pub fn next_line<R: Read>(&mut self, source: &mut R) -> Result<Option<&[u8]>, LineError> {
        let found = self.find(source).map_err(|e| LineError::Failed(e))?;
        let line = self.whole(found)?;
        let bytes = &self.bytes[..];
        Ok(line.and_then(|place| bytes.get(place)))
    }

    // The same, but of a line whose beginning was dropped, a remark too, it gives the end: what stands behind the last full buffer.
    pub fn next_end<R: Read>(&mut self, source: &mut R) -> io::Result<Option<&[u8]>>
        ensures { IfOk result (λ end. IfSome end (λ text. length text.now ≤ N)) }
    {
        let end = self.find(source)?;
        self.cut = None;
        let bytes = &self.bytes[..];
        Ok(end.and_then(|place| bytes.get(place)))
    }
}
