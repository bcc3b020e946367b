// A WAV file that grows. After every block its header says how many samples stand behind it, so that whatever ends the program leaves a file that opens, with all that was written.
use crate::floats::write_floats;
use crate::output::{Output, cut};
use std::io;
use std::io::{Seek, SeekFrom};
use std::os::unix::fs::FileExt;

#[derive(Drop)]
pub struct Wave {
    pub out: Output,
    pub rate: u64,
    pub samples: u64,
}

// The file emptied, with the header of no samples. The next bytes go behind it.
pub fn begin(out: Output, rate: u64) -> io::Result<Wave> {
    let mut wave = Wave {
        out,
        rate,
        samples: 0,
    };
    cut(&wave.out, 0)?;
    wave.put_header()?;
    let _ = wave.out.handle.seek(SeekFrom::Start(wav::HEADER as u64));
    Ok(wave)
}

impl Wave {
    // Where the next bytes go stays as it is. A header that goes out in part counts as a failure of the device.
    fn put_header(&self) -> io::Result<()> {
        let header = wav::header(self.rate, self.samples);
        match self.out.handle.write_at(&header, 0)? {
            wav::HEADER => Ok(()),
            _ => Err(io::Error::from(io::ErrorKind::WriteZero)),
        }
    }

    // More samples, and the header that counts them. Behind a write that failed, what it left of a sample goes; nothing more is to be written then.
    pub fn append(&mut self, floats: &[f64], bytes: &mut [u8; 16384]) -> io::Result<()> {
        let written = write_floats(&mut self.out, floats, bytes);
        let count = match written {
            Ok(()) => floats.len(),
            Err(unfinished) => unfinished.count / 8,
        };
        self.samples = self.samples.saturating_add(count as u64);
        if written.is_err() {
            let _ = cut(&self.out, wav::file_size(self.samples).cast_unsigned());
        }
        self.put_header()?;
        written.map_err(|unfinished| unfinished.error)
    }
}
