// What answers are made of.
use std::io::Write;
use std::{fmt, io};
use value::Value;

// How many bytes are put at a time, each by two digits.
const AT_A_TIME: usize = 32;

// A key and bytes, each by two hex digits, to the end of the line. A `Display` that puts digit by digit takes more than
// twice the time.
pub fn put_hex<W: Write>(out: &mut W, key: &[u8], bytes: &[u8]) -> io::Result<()> {
    out.write_all(key)?;
    let mut digits = [0u8; 2 * AT_A_TIME];
    for part in bytes.chunks(AT_A_TIME) {
        for (i, byte) in part.iter().enumerate() {
            text::put_hex2(&mut digits, i.wrapping_mul(2), *byte);
        }
        out.write_all(digits.get(..part.len().wrapping_mul(2)).unwrap_or(&[]))?;
    }
    out.write_all(b"\n")
}

// Lays bytes behind the n that a row holds, and says how many it holds then. A row without room stays as it is.
pub fn lay(row: &mut [u8], n: usize, bytes: &[u8]) -> usize {
    text::put_bytes(row, n, bytes);
    n.saturating_add(bytes.len())
}

// Likewise a key and a number, as `write!` would put it.
pub fn lay_number(row: &mut [u8], n: usize, key: &[u8], number: usize) -> usize {
    let n = lay(row, n, key);
    lay(row, n, text::decimal_of(number as u64).digits())
}

// A value: i with a whole number, f with a float of sixteen hex digits.
#[derive(Clone, Copy)]
pub struct Literal(pub Value);

impl fmt::Display for Literal {
    fn fmt<W: fmt::Write>(&self, f: &mut fmt::Formatter<W>) -> fmt::Result {
        match self.0 {
            Value::Whole(n) => write!(f, "i{n}"),
            Value::Real(x) => write!(f, "f{:016X}", value::bits_of(x)),
        }
    }
}

pub fn put_refusal<W: Write>(out: &mut W, number: u8, place: usize) -> io::Result<()> {
    write!(out, "result={number}\nplace={place}\n")
}
