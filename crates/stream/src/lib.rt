// A program's input, read to its end: a read that fails is told apart from the end of the input. And which failures of
// its output are spoken of.
#![tactic(auto)]

ghost use Rattle.std.specs.Prelude.{◌≡◌};
ghost use Rattle.stream.specs.Stream.{Reads, heard, speaks_of};

use std::io;
use std::io::Read;

// What a read says by its answer: so many bytes more, or that the input is over.
#[tactic(auto, unfolding(crate::specs::Stream::heard))]
fn hear(got: io::Result<usize>) -> io::Result<Option<usize>>
    ensures { result ≡ heard got }
{
    match got {
        Ok(0) => Ok(None),
        Ok(more) => Ok(Some(more)),
        Err(error) => Err(error),
    }
}

// Reads until the buffer is full or the input is over; gives how many bytes of the input stand at the buffer's start.
// No `for` says it more plainly: how far a turn goes is known from the read alone.
pub fn read_whole<R: Read>(reader: &mut R, buf: &mut [u8]) -> io::Result<usize>
    ensures { Reads (R.remaining reader.old) (R.remaining reader.new) result buf.new }
{
    let mut size: usize = 0;
    while size < buf.len() {
        match hear(reader.read(&mut buf[size..]))? {
            Some(more) => size += more,
            None => break,
        }
    }
    Ok(size)
}

// Whether it is to be said that a program's output was not written; that nobody reads a pipe any further is no failure
// to speak of.
#[tactic(auto, unfolding(crate::specs::Stream::is_broken_pipe, crate::specs::Stream::speaks_of))]
pub fn speaks_of(written: io::Result<()>) -> bool
    ensures { result ≡ speaks_of written }
{
    match written {
        Ok(()) => false,
        Err(error) => !matches!(error.kind(), io::ErrorKind::BrokenPipe),
    }
}
