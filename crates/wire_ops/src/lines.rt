// The reader of a reply's lines, and the content of a framed line.
ghost use Rattle.std.specs.Prelude.{◌≡◌};
ghost use Rattle.reply.specs.Lines.{next_line, place_after};

use case_text::put::{lay, lay_number, put_hex};
use case_text::read::{bytes_of, first, number_of};
use reply::NextLine;
use std::io;
use std::io::Write;

// The most bytes of a reply and of a line here.
const MOST: usize = 4096;

// Room for four keys, and three numbers of at most twenty digits.
const MOST_IN_FRONT: usize = 96;

// How often the reader is asked at the most: each byte may end a line, and once none is left it is asked once more.
const MOST_ASKED: usize = 4098;

// Where a new reader stands, what it serves from another place, and where it stands then.
#[derive(Clone, Copy)]
struct Served {
    start: usize,
    line: Option<NextLine>,
    at: usize,
}

fn serve(reply: &[u8], at: usize) -> Served
    ensures { (result.start ≡ 0) × ((result.line ≡ next_line reply.now at)
        × (result.at ≡ place_after (next_line reply.now at) at)) }
{
    let mut reader = reply::lines_of(reply);
    let start = reader.at;
    reader.at = at;
    let line = reader.next();
    Served {
        start,
        line,
        at: reader.at,
    }
}

// A line's places and its text. What stands in front of the text is laid down at once: a format, or a write for each
// number, takes half as much time again.
fn put_line<W: Write>(out: &mut W, line: NextLine, at: usize, text: &[u8]) -> io::Result<()> {
    let mut row = [0u8; MOST_IN_FRONT];
    let n = lay_number(&mut row, 0, b"start=", line.start);
    let n = lay_number(&mut row, n, b" end=", line.end);
    let n = lay_number(&mut row, n, b" at=", at);
    let n = lay(&mut row, n, b" line=");
    put_hex(out, first(&row, n), text)
}

fn put_lines<W: Write>(reply: &[u8], out: &mut W) -> io::Result<()> {
    let mut at = serve(reply, 0).start;
    writeln!(out, "at={at}")?;
    let mut over = false;
    for _ in 0..MOST_ASKED {
        let served = serve(reply, at);
        at = served.at;
        match served.line {
            Some(line) => {
                let text = reply.get(line.start..line.end).unwrap_or(&[]);
                put_line(out, line, at, text)?;
            }
            None => {
                writeln!(out, "none at={at}")?;
                if over {
                    return Ok(());
                }
                over = true;
            }
        }
    }
    Ok(())
}

// A reader over the bytes, asked until no line is left, and once more.
pub fn lines<W: Write>(case: &[u8], out: &mut W) -> io::Result<()> {
    let mut bytes = [0u8; MOST];
    put_lines(bytes_of(case, b"bytes=", &mut bytes), out)
}

// The content of a line, of any length.
pub fn content<W: Write>(case: &[u8], out: &mut W) -> io::Result<()> {
    let mut bytes = [0u8; MOST];
    let line = bytes_of(case, b"line=", &mut bytes);
    let content_here = frame::content(line, number_of(case, b"length="));
    put_hex(out, b"content=", content_here)
}
