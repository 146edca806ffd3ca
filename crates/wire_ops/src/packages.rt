// A package and its parts.
use case_text::put::put_refusal;
use case_text::read::{bytes_of, first};
use package::{Amount, Package, Part};
use std::io::Write;
use std::{fmt, io};

const MOST_BYTES: usize = 65537;

// What is put as the text of cases has it.
#[derive(Clone, Copy)]
struct Shown<T>(T);

impl fmt::Display for Shown<Amount> {
    fn fmt<W: fmt::Write>(&self, f: &mut fmt::Formatter<W>) -> fmt::Result {
        match self.0 {
            Amount::Number { whole, exponent } => write!(f, "f{whole}e{exponent}"),
            Amount::Integer(whole) => write!(f, "i{whole}"),
            Amount::Invalid => write!(f, "nan"),
        }
    }
}

impl fmt::Display for Shown<Option<u32>> {
    fn fmt<W: fmt::Write>(&self, f: &mut fmt::Formatter<W>) -> fmt::Result {
        match self.0 {
            Some(n) => write!(f, "{n}"),
            None => write!(f, "-"),
        }
    }
}

impl fmt::Display for Shown<Part> {
    fn fmt<W: fmt::Write>(&self, f: &mut fmt::Formatter<W>) -> fmt::Result {
        let part = self.0;
        write!(f, "type={:04X} value={}", part.letters, Shown(part.amount))?;
        write!(
            f,
            " status={} range={}",
            Shown(part.status),
            Shown(part.range)
        )?;
        write!(f, " noise={}", Shown(part.noise))
    }
}

// The parts are counted from 1.
fn put_package<W: Write>(out: &mut W, package: &Package) -> io::Result<()> {
    writeln!(out, "result=0\nparts={}", package.count)?;
    for (i, part) in first(&package.parts, package.count).iter().enumerate() {
        writeln!(out, "part={} {}", i + 1, Shown(*part))?;
    }
    Ok(())
}

// An empty place is of type 0, invalid, and without metadata.
fn is_empty(part: &Part) -> bool {
    part.letters == 0
        && matches!(part.amount, Amount::Invalid)
        && part.status.is_none()
        && part.range.is_none()
        && part.noise.is_none()
}

fn spare(package: &Package) -> usize {
    package
        .parts
        .iter()
        .skip(package.count)
        .filter(|part| !is_empty(part))
        .count()
}

fn put_both<W: Write>(bytes: &[u8], out: &mut W) -> io::Result<()> {
    let read = package::read_package(bytes);
    match &read {
        Ok(package) => put_package(out, package)?,
        Err((why, place)) => put_refusal(out, u8::from(*why), *place)?,
    }
    match package::judge_package(bytes) {
        Ok(()) => writeln!(out, "judged=0")?,
        Err((why, place)) => writeln!(out, "judged={} {place}", u8::from(why))?,
    }
    writeln!(out, "spare={}", read.map_or(0, |package| spare(&package)))
}

// Behind the answer, what the judge without parts says, and how many places past the parts hold something; a refused
// package has none.
pub fn package<W: Write>(case: &[u8], out: &mut W) -> io::Result<()> {
    let mut bytes = [0u8; MOST_BYTES];
    put_both(bytes_of(case, b"bytes=", &mut bytes), out)
}
