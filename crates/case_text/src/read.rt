// Reads from a case. Every function reads what stands at the front of a text, and none can fail: what is not there is
// read as 0, or as no text.
ghost use Rattle.std.specs.Prelude.{◌≡◌, ◌-◌, ◌≤◌, drop, length, take};
ghost use Rattle.io.specs.Counts.{IsPrefixLen};

use value::Value;

// The bits of a float's pattern behind its sign. Those of a NaN are above those of the infinite.
const SIGN: u64 = 0x8000000000000000;

const INFINITE: u64 = 0x7FF0000000000000;

// ---- places

// What stands behind so many bytes.
pub fn past(s: &[u8], n: usize) -> &[u8]
    ensures { result.now ≡ drop n s.now }
{
    s.get(n..).unwrap_or(&[])
}

// What stands behind the next byte c.
pub fn behind(s: &[u8], c: u8) -> &[u8]
    ensures { result.now ≡ drop (length s.now - length result.now) s.now }
{
    match s.iter().position(|byte| *byte == c) {
        Some(i) => &s[i + 1..],
        None => &[],
    }
}

// What stands in front of the next byte c; all where there is none.
pub fn before(s: &[u8], c: u8) -> &[u8]
    ensures { result.now ≡ take (length result.now) s.now }
{
    match s.iter().position(|byte| *byte == c) {
        Some(i) => &s[..i],
        None => s,
    }
}

// The first n, all of them at most.
pub fn first<T>(s: &[T], n: usize) -> &[T]
    ensures { result.now ≡ take n s.now }
{
    s.get(..n).unwrap_or(s)
}

// The words of a text, each behind a space, wherever that stands; past the last, all are empty.
#[derive(Clone, Copy)]
pub struct Words<'a>(pub &'a [u8]);

impl<'a> Words<'a> {
    // The text from the next word on.
    pub fn next(&mut self) -> &'a [u8] {
        let here = self.0;
        self.0 = behind(here, b' ');
        here
    }
}

// The text behind the key, from the first line on that begins with it.
pub fn find<'a>(case: &'a [u8], key: &[u8]) -> &'a [u8]
    ensures { result.now ≡ drop (length case.now - length result.now) case.now }
{
    let mut rest = case;
    for _ in 0..case.len() {
        if let Some(value) = rest.strip_prefix(key) {
            return value;
        }
        rest = behind(rest, b'\n');
    }
    &[]
}

// ---- decimals

pub fn number(s: &[u8]) -> usize {
    text::decimal_at(s, 0).number as usize
}

pub fn number_of(case: &[u8], key: &[u8]) -> usize {
    number(find(case, key))
}

// ---- hex digits

pub fn hex4(s: &[u8]) -> u16 {
    match text::hex_at(s, 0, 4) {
        Some(n) => (n & 0xFFFF) as u16,
        None => 0,
    }
}

fn hex2(s: &[u8]) -> Option<u8> {
    text::hex_at(s, 0, 2).map(|n| (n & 0xFF) as u8)
}

pub fn hex2_of(case: &[u8], key: &[u8]) -> u8 {
    hex2(find(case, key)).unwrap_or(0)
}

// Bytes of two hex digits each; answers how many.
fn bytes(digits: &[u8], to: &mut [u8]) -> usize
    ensures { IsPrefixLen result to.new }
{
    for (n, byte) in to.iter_mut().enumerate() {
        match hex2(past(digits, n.wrapping_mul(2))) {
            Some(read) => *byte = read,
            None => return n,
        }
    }
    to.len()
}

// The bytes of a key, in the buffer that is lent, as far as it goes.
pub fn bytes_of<'a>(case: &[u8], key: &[u8], to: &'a mut [u8]) -> &'a [u8]
    ensures { length result.now ≤ length to.old }
{
    let n = bytes(find(case, key), to);
    &to[..n]
}

// ---- values

// The float of a pattern; every NaN is the same here.
fn float_of(n: u64) -> f64 {
    if INFINITE < n % SIGN {
        return 0.0 / 0.0;
    }
    f64::from_bits(n)
}

// Sixteen hex digits.
pub fn float(s: &[u8]) -> f64 {
    let mut bits: u64 = 0;
    for i in 0..4usize {
        bits = bits.wrapping_mul(65536) | u64::from(hex4(past(s, 4 * i)));
    }
    float_of(bits)
}

// Brought into range where there are more digits.
fn whole(s: &[u8]) -> i32 {
    match s {
        [b'-', digits @ ..] => match i32::try_from(number(digits)) {
            Ok(n) => -n,
            Err(_) => i32::MIN,
        },
        _ => i32::try_from(number(s)).unwrap_or(i32::MAX),
    }
}

// i with a whole number, or a float behind any other letter.
pub fn value(s: &[u8]) -> Value {
    match s {
        [b'i', digits @ ..] => Value::Whole(whole(digits)),
        _ => Value::Real(float(past(s, 1))),
    }
}
