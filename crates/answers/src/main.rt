// Answers cases of text: lines of `key=value`, each case ended by an empty line, and so is each answer. It reads blocks
// of 262,144 bytes, and no case goes on from one block to the next: whoever writes more fills each block up with a case
// of an op that is not known. That it is safe and ends is proved; what it says is compared.
//
// To add an op: write `pub fn NAME<W: Write>(case: &[u8], out: &mut W) -> io::Result<()>` in the file of its group,
// here or in `wire_ops`, which writes the answer to `out`, and add an arm to `answer`: the name, and spaces up to 16
// bytes.
#![tactic(auto)]

mod buffered;
mod runs;
mod scripts;

ghost use Rattle.std.specs.Prelude.{◌≡◌, length};

use buffered::Buffered;
use case_text::read::{before, find, first, past};
use std::io;
use std::io::{Read, Write};
use wire_ops::{frames, lines, packages, replies};

const MOST_BLOCKS: usize = 1000000000;

// The name of a case's op, filled up with spaces; all spaces where it is longer than any.
fn op_of(case: &[u8]) -> [u8; 16] {
    let op = before(find(case, b"op="), b'\n');
    let mut name = [b' '; 16];
    if op.len() <= name.len() {
        name[..op.len()].copy_from_slice(op);
    }
    name
}

fn answer<W: Write>(case: &[u8], out: &mut W) -> io::Result<()> {
    match &op_of(case) {
        b"frame_read      " => frames::frame_read(case, out),
        b"frame_write     " => frames::frame_write(case, out),
        b"package         " => packages::package(case, out),
        b"reply           " => replies::reply(case, out),
        b"row             " => replies::row(case, out),
        b"load            " => scripts::load(case, out),
        b"check           " => scripts::check(case, out),
        b"check_table     " => scripts::check_table(case, out),
        b"table           " => scripts::table(case, out),
        b"run             " => runs::run(case, out),
        b"run_table       " => runs::run_table(case, out),
        b"run_within      " => runs::run_within(case, out),
        b"run_safe        " => runs::run_safe(case, out),
        b"lines           " => lines::lines(case, out),
        b"content         " => lines::content(case, out),
        _ => writeln!(out, "not a case"),
    }
}

// For a block.
fn buffer() -> [u8; 262144]
    ensures { 262144 ≡ length result }
{
    [0; 262144]
}

fn is_end(pair: &[u8]) -> bool {
    matches!(pair, b"\n\n")
}

// Each case but the last takes two bytes or more.
fn answer_all<W: Write>(block: &[u8], out: &mut W) -> io::Result<()> {
    let mut rest = block;
    for _ in 0..block.len() {
        if rest.is_empty() {
            break;
        }
        let end = rest.windows(2).position(is_end).unwrap_or(rest.len());
        answer(first(rest, end), out)?;
        writeln!(out)?;
        rest = past(past(rest, end), 2);
    }
    out.flush()
}

// Answers a block; true where there may be another.
fn answer_block<R: Read, W: Write>(
    reader: &mut R,
    bytes: &mut [u8],
    out: &mut W,
) -> io::Result<bool> {
    let Ok(n) = stream::read_whole(reader, bytes) else {
        return Err(io::Error::other("standard input could not be read"));
    };
    answer_all(&bytes[..n], out)?;
    Ok(n == bytes.len())
}

fn main(rt: HostRuntime) -> io::Result<()> {
    let mut reader = rt.stdin();
    let mut bytes = buffer();
    let mut out = Buffered::new(&rt);
    for _ in 0..MOST_BLOCKS {
        if !answer_block(&mut reader, &mut bytes, &mut out)? {
            break;
        }
    }
    Ok(())
}
