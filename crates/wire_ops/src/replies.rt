// Replies, read into a lent part of 1,024 rows, and one row by its number.
ghost use Rattle.std.specs.Prelude.{◌≡◌, ◌-◌, ◌≤◌};
ghost use Rattle.reply.specs.Reply.{meaning, outcome_of};

use case_text::read::{bytes_of, first, number_of};
use reply::{Read, Row, RowTable};
use reply_line::{Refusal, RowKind};
use std::io::Write;
use std::{fmt, io};

const MOST_BYTES: usize = 65537;

const ROWS: usize = 1024;

// What every row holds before it is lent; no reply makes such a row.
const BEFORE: Row = Row {
    kind: RowKind::Loop,
    mark: 999,
    parent: 77,
    packages: 99,
};

// The refusal of a row that is not there.
const NO_ROW: u8 = 56;

// Of 1,024 rows those from one place to another are lent.
fn lend_part(reply: &[u8], from: usize, to: usize) -> RowTable
    requires { (from ≤ to) × (to ≤ 1024) }
    ensures { meaning result.answer ≡ outcome_of (to - from) reply.now }
{
    let mut rows = [BEFORE; ROWS];
    let answer = reply::read_reply(reply, &mut rows[from..to]);
    RowTable { rows, answer }
}

fn is_before(row: &Row) -> bool {
    row.kind == BEFORE.kind
        && row.mark == BEFORE.mark
        && row.parent == BEFORE.parent
        && row.packages == BEFORE.packages
}

// How many of the rows hold what they held before.
fn kept(rows: &[Row]) -> usize {
    rows.iter().filter(|row| is_before(row)).count()
}

// Four hex digits; what has more is put as a number.
#[derive(Clone, Copy)]
struct Mark(u32);

impl fmt::Display for Mark {
    fn fmt<W: fmt::Write>(&self, f: &mut fmt::Formatter<W>) -> fmt::Result {
        let mark = self.0;
        if mark > 0xFFFF {
            write!(f, "{mark}")
        } else {
            write!(f, "{mark:04X}")
        }
    }
}

fn put_row<W: Write>(out: &mut W, row: &Row) -> io::Result<()> {
    writeln!(out, "kind={}", char::from(u8::from(row.kind)))?;
    writeln!(out, "mark={}", Mark(row.mark))?;
    writeln!(out, "parent={}\npackages={}", row.parent, row.packages)
}

fn put_refused<W: Write>(out: &mut W, number: u8, line: usize) -> io::Result<()> {
    write!(out, "result={number}\nline={line}\n")
}

// The rows are those from the first that was lent on.
fn put_listing<W: Write>(
    out: &mut W,
    answer: Result<Read, (Refusal, usize)>,
    rows: &[Row],
) -> io::Result<()> {
    match answer {
        Ok(read) => {
            writeln!(out, "result=0\ncode={}", Mark(read.code))?;
            writeln!(out, "used={}\nrows={}", read.used, read.rows)?;
            for (i, row) in first(rows, read.rows).iter().enumerate() {
                writeln!(out, "row={i}")?;
                put_row(out, row)?;
            }
            Ok(())
        }
        Err((why, line)) => put_refused(out, u8::from(why), line),
    }
}

// Which part of the rows is lent differs from case to case: the reply's length says how many stand in front of it.
// Behind the answer, how many of those and how many of the others hold what they held before.
fn put_lent<W: Write>(reply: &[u8], lent: usize, out: &mut W) -> io::Result<()> {
    let count = lent.min(ROWS);
    let from = (reply.len() % ROWS).min(ROWS - count);
    let table = lend_part(reply, from, from + count);
    let rows = &table.rows;
    put_listing(out, table.answer, &rows[from..])?;
    writeln!(out, "kept={} {}", kept(&rows[..from]), kept(&rows[from..]))
}

pub fn reply<W: Write>(case: &[u8], out: &mut W) -> io::Result<()> {
    let mut bytes = [0u8; MOST_BYTES];
    let reply_here = bytes_of(case, b"bytes=", &mut bytes);
    put_lent(reply_here, number_of(case, b"rows="), out)
}

pub fn row<W: Write>(case: &[u8], out: &mut W) -> io::Result<()> {
    let mut bytes = [0u8; MOST_BYTES];
    let table = reply::read_table(bytes_of(case, b"bytes=", &mut bytes));
    let at = number_of(case, b"row=");
    match table.answer {
        Ok(read) if at < read.rows => {
            writeln!(out, "result=0")?;
            put_row(out, &reply::row_of(table, at))
        }
        Ok(_) => put_refused(out, NO_ROW, 0),
        Err((why, line)) => put_refused(out, u8::from(why), line),
    }
}
