// The frame reader and writer.
use case_text::put::{put_hex, put_refusal};
use case_text::read::{bytes_of, hex2_of, number_of};
use frame::{HostNumber, InstrumentNumber, content, read_frame, write_frame};
use std::io;
use std::io::Write;

// The most bytes of a line, of content and of a lent buffer.
const MOST: usize = 4096;

// What a lent buffer holds, where the case's own text is too long to be laid in it.
const BEFORE: u8 = 165;

pub fn frame_read<W: Write>(case: &[u8], out: &mut W) -> io::Result<()> {
    let mut line = [0u8; MOST];
    let line = bytes_of(case, b"line=", &mut line);
    match read_frame(
        line,
        InstrumentNumber::from_byte(hex2_of(case, b"expected=")),
    ) {
        Ok((length, next)) => {
            put_hex(out, b"result=0\ncontent=", content(line, length))?;
            writeln!(out, "next={:02X}", next.byte())
        }
        Err(why) => put_refusal(out, u8::from(why), 0),
    }
}

fn write_lent<W: Write>(
    content_here: &[u8],
    host: HostNumber,
    lent: &mut [u8],
    out: &mut W,
) -> io::Result<()> {
    match write_frame(content_here, host, lent) {
        Ok((length, next)) => {
            put_hex(out, b"result=0\nbytes=", content(lent, length))?;
            writeln!(out, "host={:02X}", next.byte())?;
        }
        Err(why) => put_refusal(out, u8::from(why), 0)?,
    }
    put_hex(out, b"lent=", lent)
}

// The case's own text stands in the buffer that is lent, so that hardly a byte is like the next. Beside the answer, the
// number of the next frame and all that the buffer holds.
pub fn frame_write<W: Write>(case: &[u8], out: &mut W) -> io::Result<()> {
    let mut bytes = [0u8; MOST];
    let bytes = bytes_of(case, b"content=", &mut bytes);
    let host = HostNumber::from_byte(hex2_of(case, b"number="));
    let mut lent = [BEFORE; MOST];
    text::put_bytes(&mut lent, 0, case);
    let room = number_of(case, b"buffer=").min(MOST);
    write_lent(bytes, host, &mut lent[..room], out)
}
