// Words of a line: where the next one stands, names, types, small numbers, and words found in a table.
#![tactic(auto)]

ghost use Rattle.std.specs.Prelude.{◌≡◌, ◌+◌, ◌≤◌, length, drop};
ghost use Rattle.word.specs.Code.{Pushed, Eight, filled_from, KeyOf, FoundBy};
ghost use Rattle.word.specs.Word.{in_class, run, word_at, skipped, name_form, read_type, small_of};
ghost use Rattle.word.specs.Word.{part, padded, seek};

#[derive(Clone, Copy)]
pub enum Class {
    Blank,
    Solid,
    NameByte,
}

// A part of a line, from start up to end.
#[derive(Clone, Copy)]
pub struct Span {
    pub start: usize,
    pub end: usize,
}

// The most bytes of a name, and the width of a table of words.
const WIDTH: usize = 16;

fn of_class(class: Class, c: u8) -> bool
    ensures { result ≡ in_class class c }
{
    match class {
        Class::Blank => text::is_blank(c),
        Class::Solid => !text::is_blank(c),
        Class::NameByte => text::is_name_byte(c),
    }
}

// Where the bytes of a class that start at `at` stop.
pub fn run_from(s: &[u8], at: usize, class: Class) -> usize
    ensures { result ≡ at + run class (drop at s.now) }
{
    for i in at..s.len() {
        if !of_class(class, s[i]) {
            return i;
        }
    }
    at.max(s.len())
}

// The next word from `at` on; where there is none, an empty one at the end.
pub fn word_at(s: &[u8], at: usize) -> Span
    ensures { result ≡ word_at s.now at }
{
    let start = run_from(s, at, Class::Blank);
    let end = run_from(s, start, Class::Solid);
    Span { start, end }
}

// The bytes of a part of a line, as far as they are there.
pub fn part_of(line: &[u8], w: Span) -> &[u8]
    ensures { result.now ≡ part line.now w }
{
    let end = w.end.min(line.len());
    let start = w.start.min(end);
    &line[start..end]
}

// A line of blanks, or one whose first other byte is `#`.
pub fn is_skipped(line: &[u8]) -> bool
    ensures { result ≡ skipped line.now }
{
    let at = run_from(line, 0, Class::Blank);
    match line.get(at) {
        Some(c) => *c == b'#',
        None => true,
    }
}

// A word that has the form of a name, 1 to 16 bytes.
pub fn is_name(word: &[u8]) -> bool
    ensures { result ≡ name_form word.now }
{
    let n = word.len();
    if n == 0 {
        return false;
    }
    if WIDTH < n {
        return false;
    }
    if !text::starts_name(word[0]) {
        return false;
    }
    run_from(word, 0, Class::NameByte) == n
}

// A type's two small letters, the first times 256 and the second.
#[tactic(auto, unfolding(crate::specs::Word::read_type))]
pub fn read_type(word: &[u8]) -> Option<u16>
    ensures { result ≡ read_type word.now }
{
    if word.len() == 2 && text::is_lower(word[0]) && text::is_lower(word[1]) {
        Some(word[0] as u16 * 256 + word[1] as u16)
    } else {
        None
    }
}

// Digits of a number from 0 to 255.
pub fn read_small(word: &[u8]) -> Option<u8>
    ensures { result ≡ small_of word.now }
{
    let read = text::decimal_at(word, 0);
    if word.len() == 0 || read.next != word.len() {
        return None;
    }
    u8::try_from(read.number).ok()
}

// A word as a row of a table: filled up with spaces, and cut where it is too long.
pub fn pad(word: &[u8]) -> [u8; 16]
    ensures { result ≡ padded word.now }
{
    let mut b = [b' '; 16];
    let n = word.len().min(WIDTH);
    b[..n].copy_from_slice(&word[..n]);
    b
}

// ---- words looked up: a row is compared as two numbers, which need not be laid down in memory

// Sixteen bytes, eight to a number, the first the lowest.
#[derive(Clone, Copy, PartialEq, Eq)]
struct Key {
    low: u64,
    high: u64,
}

const EIGHT: usize = 8;

// Eight spaces as one number.
const SPACES: u64 = 2314885530818453536;

const BYTE: u64 = 256;

const SEVEN_BYTES: u64 = 72057594037927936;

// A byte, and behind it the first seven of eight.
fn push(c: u8, eight: u64) -> u64
    ensures { Pushed c eight result }
{
    c as u64 + BYTE * (eight % SEVEN_BYTES)
}

// Eight bytes of a row. Here and below by its place, from the last: a slice of the row with its ends as arguments made
// a script load in 1.12 of the time.
fn eight_at(row: [u8; 16], at: usize) -> u64
    requires { at ≤ 8 }
    ensures { Eight (drop at row) result }
{
    let mut eight: u64 = 0;
    for i in (at..at + EIGHT).rev() {
        eight = push(row[i], eight);
    }
    eight
}

// Eight bytes of a word, spaces for those that are not there.
fn eight_from(word: &[u8], from: usize) -> u64
    ensures { Eight (filled_from word.now from) result }
{
    let mut eight = SPACES;
    for i in (from..word.len()).rev() {
        eight = push(word[i], eight);
    }
    eight
}

fn row_key(row: [u8; 16]) -> Key
    ensures { KeyOf row result }
{
    Key {
        low: eight_at(row, 0),
        high: eight_at(row, EIGHT),
    }
}

fn word_key(word: &[u8]) -> Key
    requires { length word.now ≤ 16 }
    ensures { KeyOf (padded word.now) result }
{
    Key {
        low: eight_from(word, 0),
        high: eight_from(word, EIGHT),
    }
}

fn find(rows: &[[u8; 16]], key: Key) -> Option<usize>
    ensures { FoundBy key rows.now result }
{
    for (i, row) in rows.iter().enumerate() {
        if row_key(*row) == key {
            return Some(i);
        }
    }
    None
}

// The row of a table that is the word.
pub fn seek_word(rows: &[[u8; 16]], word: &[u8]) -> Option<usize>
    ensures { result ≡ seek rows.now word.now }
{
    if word.len() <= WIDTH {
        find(rows, word_key(word))
    } else {
        None
    }
}
