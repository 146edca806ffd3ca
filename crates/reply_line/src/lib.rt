// What one line of a reply is, by itself.
#![tactic(auto)]

ghost use Rattle.std.specs.Prelude.{◌≡◌, true};
ghost use Rattle.reply_line.specs.Line.{number_of, letter_of, ends_error, error_code, is_e, first_line};
ghost use Rattle.reply_line.specs.Line.{alone_in, mark_line, has_cycle, scan_line, package_line, later_error, line_at};
ghost use Rattle.reply_line.specs.Code.{later_by, of_package};
ghost use Rattle.package.specs.Package.{verdict_of, package_of};

// A letter and four digits.
const WITH_DIGITS: usize = 5;

// The kinds of rows: the script, the kinds of loops, and a scan of a measuring loop.
#[derive(Clone, Copy, PartialEq, Eq)]
pub enum RowKind {
    Script,
    Sweep,
    Loop,
    Scan,
}

#[derive(Clone, Copy)]
pub enum Refusal {
    BadPart,
    TooManyParts,
    NoEnding,
    UnknownLine,
    OutOfPlace,
    NinthOpen,
    ShortTable,
    TooLong,
}

// A refused line is a kind among the others: each first byte has one value in one table, `step_of` makes it an Err in
// one arm, and the second pass, which meets none, has no way out to write.
#[derive(Clone, Copy)]
pub enum Line {
    // Text, a single letter, or the first line's `e`.
    Quiet,
    Empty,
    Package,
    Opens(RowKind, u32),
    Closes(RowKind),
    Error(u32),
    Refused(Refusal),
}

// 01's number of a refusal.
impl From<Refusal> for u8 {
    ghost from_gives = { λ why result. result ≡ number_of why };

    #[tactic(auto, unfolding(crate::specs::Line::number_of))]
    fn from(why: Refusal) -> u8 {
        match why {
            Refusal::BadPart => 40,
            Refusal::TooManyParts => 41,
            Refusal::NoEnding => 50,
            Refusal::UnknownLine => 51,
            Refusal::OutOfPlace => 52,
            Refusal::NinthOpen => 53,
            Refusal::ShortTable => 54,
            Refusal::TooLong => 55,
        }
    }
}

// The letter of a row: S for the script, M for a measuring loop, L for a loop, C for a scan.
impl From<RowKind> for u8 {
    ghost from_gives = { λ kind result. result ≡ letter_of kind };

    #[tactic(auto, unfolding(crate::specs::Line::letter_of))]
    fn from(kind: RowKind) -> u8 {
        match kind {
            RowKind::Script => b'S',
            RowKind::Sweep => b'M',
            RowKind::Loop => b'L',
            RowKind::Scan => b'C',
        }
    }
}

// A package's refusal is that of its line.
impl From<package::Refusal> for Refusal {
    ghost from_gives = { λ why result. result ≡ of_package why };

    #[tactic(auto, unfolding(crate::specs::Code::of_package))]
    fn from(why: package::Refusal) -> Refusal {
        match why {
            package::Refusal::BadPart => Refusal::BadPart,
            package::Refusal::TooManyParts => Refusal::TooManyParts,
        }
    }
}

// After the four digits of an error line: nothing, or a colon and a space.
#[tactic(auto, unfolding(crate::specs::Line::ends_error))]
fn ends_error(s: &[u8]) -> bool
    ensures { result ≡ ends_error s.now }
{
    s.len() <= 6 || s[6] == b':' && 8 <= s.len() && s[7] == b' '
}

#[tactic(auto, unfolding(crate::specs::Line::error_code, crate::specs::Line::non_zero))]
fn error_code(s: &[u8]) -> Option<u32>
    ensures { result ≡ error_code s.now }
{
    if s.len() < 6 || s[0] != b'e' || s[1] != b'!' || !ends_error(s) {
        return None;
    }
    let code = text::hex_at(s, 2, 4)?;
    if code == 0 { None } else { Some(code) }
}

#[tactic(auto, unfolding(crate::specs::Line::is_e))]
fn is_e(s: &[u8]) -> bool
    ensures { result ≡ is_e s.now }
{
    s.len() == 1 && s[0] == b'e'
}

// The first line, to which row 0 of the n rows belongs.
#[tactic(auto, unfolding(crate::specs::Line::first_line, crate::specs::Line::with_row))]
fn first_line(s: &[u8], n: usize) -> Line
    ensures { result ≡ first_line n s.now }
{
    if is_e(s) {
        if 0 < n {
            return Line::Quiet;
        }
        return Line::Refused(Refusal::ShortTable);
    }
    match error_code(s) {
        Some(v) => {
            if 0 < n {
                Line::Error(v)
            } else {
                Line::Refused(Refusal::ShortTable)
            }
        }
        None => Line::Refused(Refusal::UnknownLine),
    }
}

// What a single byte means, where nothing follows it.
#[tactic(auto, unfolding(crate::specs::Line::alone_in))]
fn alone(s: &[u8], l: Line) -> Line
    ensures { result ≡ alone_in s.now l }
{
    if s.len() == 1 {
        l
    } else {
        Line::Refused(Refusal::UnknownLine)
    }
}

#[tactic(auto, unfolding(crate::specs::Line::mark_line, crate::specs::Line::mark_of))]
fn mark_line(s: &[u8]) -> Line
    ensures { result ≡ mark_line s.now }
{
    if s.len() == WITH_DIGITS {
        match text::hex_at(s, 1, 4) {
            Some(v) => Line::Opens(RowKind::Sweep, v),
            None => Line::Refused(Refusal::UnknownLine),
        }
    } else {
        Line::Refused(Refusal::UnknownLine)
    }
}

// The number that the instrument prints behind a scan's letter: four decimal digits.
#[tactic(auto, using(crate::proofs::Lines::cycle_next), unfolding(crate::specs::Line::has_cycle))]
fn has_cycle(s: &[u8]) -> bool
    ensures { result ≡ has_cycle s.now }
{
    s.len() == WITH_DIGITS && text::decimal_at(s, 1).next == WITH_DIGITS
}

#[tactic(auto, unfolding(crate::specs::Line::scan_line))]
fn scan_line(s: &[u8]) -> Line
    ensures { result ≡ scan_line s.now }
{
    if has_cycle(s) {
        return Line::Opens(RowKind::Scan, 0);
    }
    alone(s, Line::Opens(RowKind::Scan, 0))
}

fn package_line(s: &[u8]) -> Line
    ensures { result ≡ package_line (verdict_of (package_of s.now)) }
{
    match package::judge_package(s) {
        Ok(_) => Line::Package,
        Err((why, _)) => Line::Refused(Refusal::from(why)),
    }
}

#[tactic(auto, unfolding(crate::specs::Line::later_error))]
fn error_line(s: &[u8]) -> Line
    ensures { result ≡ later_error (error_code s.now) }
{
    match error_code(s) {
        Some(v) => Line::Error(v),
        None => Line::Refused(Refusal::UnknownLine),
    }
}

// A line after the first. Where the reply is known to be good, its packages are not read again.
#[tactic(auto, unfolding(crate::specs::Code::later_by, crate::specs::Code::package_by, crate::specs::Line::by_first))]
fn later_line(s: &[u8], known: bool) -> Line
    ensures { result ≡ later_by known s.now }
{
    if 1 <= s.len() {
        match s[0] {
            b'M' => mark_line(s),
            b'*' => alone(s, Line::Closes(RowKind::Sweep)),
            b'L' => alone(s, Line::Opens(RowKind::Loop, 0)),
            b'+' => alone(s, Line::Closes(RowKind::Loop)),
            b'P' => {
                if known {
                    Line::Package
                } else {
                    package_line(s)
                }
            }
            b'T' => Line::Quiet,
            // Four arms: joined by `|` they tell the proof nothing of the byte.
            b'h' => alone(s, Line::Quiet),
            b'H' => alone(s, Line::Quiet),
            b'Y' => alone(s, Line::Quiet),
            b'Z' => alone(s, Line::Quiet),
            b'e' => error_line(s),
            b'C' => scan_line(s),
            b'-' => alone(s, Line::Closes(RowKind::Scan)),
            _ => Line::Refused(Refusal::UnknownLine),
        }
    } else {
        Line::Empty
    }
}

// Line k of a reply, from 1, for a table of n rows.
#[tactic(auto, using(crate::proofs::Lines::judged), unfolding(crate::specs::Line::line_at))]
pub fn line_at(s: &[u8], k: usize, n: usize) -> Line
    ensures { result ≡ line_at n k s.now }
{
    if k == 1 {
        first_line(s, n)
    } else {
        later_line(s, false)
    }
}

// A line after the first, of a reply that is known to be good.
pub fn known_line(s: &[u8]) -> Line
    ensures { result ≡ later_by true s.now }
{
    later_line(s, true)
}
