// What is written is kept until there is much of it. The row of bytes and how many are used stand side by side, since
// there is no heap for the library's BufWriter.
ghost use Rattle.answers.specs.declared.buffered.TheConstants.{ROOM};
ghost use Rattle.std.specs.Prelude.{◌≤◌};

use std::io;
use std::io::Write;

const ROOM: usize = 65536;

#[derive(Drop)]
pub struct Buffered<'a, P: Print> {
    to: &'a P,
    bytes: [u8; ROOM],
    size: usize,
    ghost within: { size ≤ ROOM },
}

impl<'a, P: Print> Buffered<'a, P> {
    pub fn new(to: &'a P) -> Buffered<'a, P> {
        Buffered {
            to,
            bytes: [0; ROOM],
            size: 0,
        }
    }
}

impl<P: Print> Write for Buffered<'_, P> {
    fn write(&mut self, bytes: &[u8]) -> io::Result<usize> {
        if self.size == ROOM {
            self.flush()?;
        }
        let size = self.size;
        let n = bytes.len().min(ROOM - size);
        self.bytes[size..size + n].copy_from_slice(&bytes[..n]);
        self.size = size + n;
        Ok(n)
    }

    // Most pieces are a few bytes long and have room. One that has none goes out behind what is kept.
    fn write_all(&mut self, bytes: &[u8]) -> io::Result<()> {
        let size = self.size;
        if ROOM - size < bytes.len() {
            self.flush()?;
            return self.to.write_all(bytes);
        }
        let end = size + bytes.len();
        self.bytes[size..end].copy_from_slice(bytes);
        self.size = end;
        Ok(())
    }

    fn flush(&mut self) -> io::Result<()> {
        self.to.write_all(&self.bytes[..self.size])?;
        self.size = 0;
        Ok(())
    }
}
