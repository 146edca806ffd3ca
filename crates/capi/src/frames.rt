// The frame reader and writer for C.
ghost use Rattle.std.specs.Prelude.{◌≡◌};
ghost use Rattle.frame.specs.Answer.{number_of};
ghost use Rattle.frame.specs.Frame.{read, write};
ghost use Rattle.capi.specs.Frames.{good_frame, bad_frame, frame_numbers, wrote, frame_written};

use super::GOOD;
use frame::{HostNumber, InstrumentNumber, Refusal};

#[repr(C)]
#[derive(Clone, Copy)]
pub struct SatvFrame {
    pub result: u16,
    pub next: u8,
    pub length: usize,
}

fn good(next: u8, length: usize) -> SatvFrame
    ensures { result ≡ good_frame length next }
{
    SatvFrame {
        result: GOOD,
        next,
        length,
    }
}

// A refused line leaves its caller's number as it was.
fn refused(why: Refusal, number: u8) -> SatvFrame
    ensures { result ≡ bad_frame (number_of why) number }
{
    SatvFrame {
        result: u8::from(why) as u16,
        next: number,
        length: 0,
    }
}

// Result 0, the next number and the content's length; or 01's number, the expected number as it was, and length 0.
#[unsafe(no_mangle)]
pub extern "C" fn satv_frame_read(line: &[u8], expected: u8) -> SatvFrame
    ensures { result ≡ frame_numbers expected (read line.now expected) }
{
    match frame::read_frame(line, InstrumentNumber::from_byte(expected)) {
        Ok((length, next)) => good(next.byte(), length),
        Err(why) => refused(why, expected),
    }
}

// Result 0, the next number and how many bytes were written; or 1 or 5, the number as it was, length 0, and the
// buffer as it was.
#[unsafe(no_mangle)]
pub extern "C" fn satv_frame_write(content: &[u8], number: u8, buffer: &mut [u8]) -> SatvFrame
    ensures { wrote result buffer.new
        ≡ frame_written number (write content.now number buffer.old) }
{
    match frame::write_frame(content, HostNumber::from_byte(number), buffer) {
        Ok((length, next)) => good(next.byte(), length),
        Err(why) => refused(why, number),
    }
}
