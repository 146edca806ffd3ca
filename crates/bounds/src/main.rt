// The bounds of the rules, each met and each passed by one: content 127, 32 names, 128 items, 8 boxes.
#![tactic(auto)]

use frame::HostNumber;
use std::io;
use std::io::{Cursor, Write};

// A script as it is being written.
type Draft = Cursor<[u8; 4096]>;

fn empty() -> Draft {
    Cursor::new([0; 4096])
}

fn put_lines(draft: &mut Draft, line: &str, n: usize) -> io::Result<()> {
    for _ in 0..n {
        writeln!(draft, "{line}")?;
    }
    Ok(())
}

// The number of the refusal, 0 for an accepted script.
fn vetted(draft: &mut Draft) -> io::Result<u8> {
    writeln!(draft)?;
    let size = draft.position() as usize;
    let bytes = draft.get_ref();
    match vetting::vet(bytes.get(..size).unwrap_or(bytes)) {
        Ok(()) => Ok(0),
        Err((why, _)) => Ok(u8::from(why)),
    }
}

fn content(size: usize) -> u8 {
    let bytes = [b'x'; 128];
    let mut buf = [0u8; 160];
    match frame::write_frame(&bytes[..size.min(128)], HostNumber::first(), &mut buf) {
        Ok(_) => 0,
        Err(why) => u8::from(why),
    }
}

// var n00, var n01, ..
fn names(n: usize) -> io::Result<u8> {
    let mut draft = empty();
    for i in 0..n {
        writeln!(draft, "var n{i:02}")?;
    }
    vetted(&mut draft)
}

fn items(n: usize) -> io::Result<u8> {
    let mut draft = empty();
    put_lines(&mut draft, "cell_on", n)?;
    vetted(&mut draft)
}

fn boxes(n: usize) -> io::Result<u8> {
    let mut draft = empty();
    put_lines(&mut draft, "if 1 == 1", n)?;
    put_lines(&mut draft, "endif", n)?;
    vetted(&mut draft)
}

fn main(rt: HostRuntime) -> io::Result<()> {
    for n in [127, 128] {
        println!(rt; "content {n}: {}", content(n))?;
    }
    for n in [32, 33] {
        println!(rt; "names {n}: {}", names(n)?)?;
    }
    for n in [128, 129] {
        println!(rt; "items {n}: {}", items(n)?)?;
    }
    for n in [8, 9] {
        println!(rt; "boxes {n}: {}", boxes(n)?)?;
    }
    Ok(())
}
