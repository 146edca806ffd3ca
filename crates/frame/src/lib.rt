// Framed lines: content, two hexadecimal digits of line number, four of CRC, newline.
#![tactic(auto)]

ghost use Rattle.std.specs.Prelude.{◌≡◌, ◌+◌, ◌≤◌, length, take};
ghost use Rattle.text.specs.Put.{put};
ghost use Rattle.frame.specs.Answer.{number_of, meaning_read, meaning_written};
ghost use Rattle.frame.specs.Frame.{next, contains, framed, right_crc, right_number, unfit, read, write, leaves};

const MOST_CONTENT: usize = 127;

const NUMBER_DIGITS: usize = 2;

const CRC_DIGITS: usize = 4;

const DIGITS: usize = 6;

const DIGITS_AND_NEWLINE: usize = 7;

const NEWLINE: u8 = b'\n';

// The number with which both sides begin.
const FIRST: u8 = 0;

// The number of a line that the host sends. It counts by itself: no number that was received becomes one. Its field is
// private, so outside this crate a number is a first one, one that the writer handed back, or one made of a byte by
// name. That there are two tuple structs alike, and no type for both, is the form that 01 names.
#[derive(Clone, Copy)]
pub struct HostNumber(u8);

// The number of a line that the instrument sends; outside this crate likewise.
#[derive(Clone, Copy)]
pub struct InstrumentNumber(u8);

#[derive(Clone, Copy)]
pub enum Refusal {
    BadContent,
    ShortLine,
    WrongCrc,
    WrongNumber,
    ShortBuffer,
}

impl HostNumber {
    // The number of the host's first line.
    pub fn first() -> HostNumber
        ensures { result.0 ≡ 0 }
    {
        HostNumber(FIRST)
    }

    // A number that was kept as a byte, by a program in C or in a text.
    pub fn from_byte(byte: u8) -> HostNumber
        ensures { result.0 ≡ byte }
    {
        HostNumber(byte)
    }

    // The byte to keep a number as.
    pub fn byte(self) -> u8
        ensures { result ≡ self.0 }
    {
        let HostNumber(sent) = self;
        sent
    }

    #[tactic(auto, unfolding(crate::specs::Frame::next))]
    fn next(self) -> HostNumber
        ensures { result.0 ≡ next self.0 }
    {
        HostNumber(self.0.wrapping_add(1))
    }
}

impl InstrumentNumber {
    // The number of the instrument's first line.
    pub fn first() -> InstrumentNumber
        ensures { result.0 ≡ 0 }
    {
        InstrumentNumber(FIRST)
    }

    // A number that was kept as a byte, by a program in C or in a text.
    pub fn from_byte(byte: u8) -> InstrumentNumber
        ensures { result.0 ≡ byte }
    {
        InstrumentNumber(byte)
    }

    // The byte to keep a number as.
    pub fn byte(self) -> u8
        ensures { result ≡ self.0 }
    {
        let InstrumentNumber(received) = self;
        received
    }

    #[tactic(auto, unfolding(crate::specs::Frame::next))]
    fn next(self) -> InstrumentNumber
        ensures { result.0 ≡ next self.0 }
    {
        InstrumentNumber(self.0.wrapping_add(1))
    }
}

// The number that the paper gives a refusal.
impl From<Refusal> for u8 {
    ghost from_gives = { λ why r. r ≡ number_of why };

    #[tactic(auto, unfolding(crate::specs::Answer::number_of))]
    fn from(why: Refusal) -> u8 {
        match why {
            Refusal::BadContent => 1,
            Refusal::ShortLine => 2,
            Refusal::WrongCrc => 3,
            Refusal::WrongNumber => 4,
            Refusal::ShortBuffer => 5,
        }
    }
}

fn has_newline(s: &[u8]) -> bool
    ensures { result ≡ contains 10 s.now }
{
    s.contains(&NEWLINE)
}

#[tactic(auto, unfolding(crate::specs::Frame::right_crc))]
fn right_crc(line: &[u8], k: usize) -> bool
    requires { k + 6 ≤ length line.now }
    ensures { result ≡ right_crc line.now k }
{
    if has_newline(line) {
        return false;
    }
    let m = k + NUMBER_DIGITS;
    // The sum is taken only where it has digits to be compared with.
    match text::hex_at(line, m, CRC_DIGITS) {
        Some(v) => v == crc::crc16(&line[..m]) as u32,
        None => false,
    }
}

#[tactic(auto, unfolding(crate::specs::Frame::right_number))]
fn right_number(line: &[u8], k: usize, expected: u8) -> bool
    ensures { result ≡ right_number line.now k expected }
{
    text::hex_at(line, k, NUMBER_DIGITS) == Some(expected as u32)
}

// Reads a line that came without its newline.
#[tactic(auto, unfolding(crate::specs::Frame::read, crate::specs::Answer::meaning_read))]
pub fn read_frame(
    line: &[u8],
    expected: InstrumentNumber,
) -> Result<(usize, InstrumentNumber), Refusal>
    ensures { meaning_read result ≡ read line.now expected.0 }
{
    if line.len() < DIGITS {
        return Err(Refusal::ShortLine);
    }
    let k = line.len() - DIGITS;
    if MOST_CONTENT < k {
        return Err(Refusal::BadContent);
    }
    if !right_crc(line, k) {
        return Err(Refusal::WrongCrc);
    }
    if !right_number(line, k, expected.0) {
        return Err(Refusal::WrongNumber);
    }
    Ok((k, expected.next()))
}

// The content of a line, of the length that was read: the caller's own bytes.
pub fn content(line: &[u8], length: usize) -> &[u8]
    ensures { result.now ≡ take length line.now }
{
    line.get(..length).unwrap_or(line)
}

#[tactic(auto, unfolding(crate::specs::Frame::unfit))]
fn unfit(content: &[u8]) -> bool
    ensures { result ≡ unfit content.now }
{
    MOST_CONTENT < content.len() || has_newline(content)
}

#[tactic(auto, using(crate::proofs::Writing::whole))]
fn put_frame(buf: &mut [u8], content: &[u8], number: u8)
    requires { length content.now + 7 ≤ length buf.old }
    ensures { buf.new ≡ put buf.old 0 (framed content.now number) }
{
    let k = content.len();
    text::put_bytes(buf, 0, content);
    text::put_hex2(buf, k, number);
    let m = k + NUMBER_DIGITS;
    let crc = crc::crc16(&buf[..m]);
    text::put_hex4(buf, m, crc);
    buf[k + DIGITS] = NEWLINE;
}

// Writes a framed line with its newline at the start of a buffer, or leaves the buffer alone.
#[tactic(auto, unfolding(crate::specs::Frame::write, crate::specs::Answer::meaning_written))]
pub fn write_frame(
    content: &[u8],
    number: HostNumber,
    buf: &mut [u8],
) -> Result<(usize, HostNumber), Refusal>
    ensures { leaves (meaning_written result) buf.new
        ≡ write content.now number.0 buf.old }
{
    if unfit(content) {
        return Err(Refusal::BadContent);
    }
    let n = content.len() + DIGITS_AND_NEWLINE;
    if buf.len() < n {
        return Err(Refusal::ShortBuffer);
    }
    put_frame(buf, content, number.0);
    Ok((n, number.next()))
}
