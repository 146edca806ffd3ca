// The reply reader for C: the result of a reply, all its rows as numbers, and one row by its number.
ghost use Rattle.std.specs.Prelude.{◌≡◌};
ghost use Rattle.reply.specs.Reply.{meaning, outcome_of};
ghost use Rattle.capi.specs.Replies.{reply_numbers, RowsNumbered, no_row, row_fields, row_numbers};

use super::GOOD;
use reply::{Read, Row};
use reply_line::Refusal;

// The table of a caller who lends none.
const MOST_ROWS: usize = 1024;

// Four for each of those rows.
const NUMBERS: usize = 4096;

// The number of 01 for a row that is not there.
const NO_SUCH_ROW: u16 = 56;

#[repr(C)]
#[derive(Clone, Copy)]
pub struct SatvReply {
    pub result: u16,
    pub code: u32,
    pub line: usize,
    pub used: usize,
    pub rows: usize,
}

#[repr(C)]
#[derive(Clone, Copy)]
pub struct SatvRow {
    pub result: u16,
    pub kind: u8,
    pub mark: u32,
    pub line: usize,
    pub parent: usize,
    pub packages: usize,
}

fn told(answer: Result<Read, (Refusal, usize)>) -> SatvReply
    ensures { result ≡ reply_numbers (meaning answer) }
{
    match answer {
        Ok(read) => SatvReply {
            result: GOOD,
            code: read.code,
            line: 0,
            used: read.used,
            rows: read.rows,
        },
        Err((why, line)) => SatvReply {
            result: u8::from(why) as u16,
            code: 0,
            line,
            used: 0,
            rows: 0,
        },
    }
}

// What a reply comes to with 1,024 rows, none of them kept.
#[unsafe(no_mangle)]
pub extern "C" fn satv_reply_read(reply: &[u8]) -> SatvReply
    ensures { result ≡ reply_numbers (outcome_of 1024 reply.now) }
{
    told(reply::judge_reply(reply, MOST_ROWS))
}

// A row is four of the lent numbers: the letter of its kind, its mark, its parent row, its packages.
#[unsafe(no_mangle)]
pub extern "C" fn satv_reply_rows(reply: &[u8], numbers: &mut [u32]) -> SatvReply
    ensures { RowsNumbered reply.now numbers.old result numbers.new }
{
    told(reply::numbers::read_numbers(reply, numbers))
}

fn no_row(res: u16, line: usize) -> SatvRow
    ensures { result ≡ no_row res line }
{
    SatvRow {
        result: res,
        kind: 0,
        mark: 0,
        line,
        parent: 0,
        packages: 0,
    }
}

fn row_told(row: Row) -> SatvRow
    ensures { result ≡ row_fields row }
{
    SatvRow {
        result: GOOD,
        kind: u8::from(row.kind),
        mark: row.mark,
        line: 0,
        parent: row.parent,
        packages: row.packages,
    }
}

// One row of a reply by its number, for 1,024 rows: the refusals of the reader first, 56 last at place 0.
#[unsafe(no_mangle)]
pub extern "C" fn satv_reply_row(reply: &[u8], row: usize) -> SatvRow
    ensures { result ≡ row_numbers reply.now row }
{
    let mut numbers = [0u32; NUMBERS];
    match reply::numbers::read_numbers(reply, &mut numbers) {
        Ok(read) => {
            if row < read.rows {
                row_told(reply::numbers::row_in(&numbers, row))
            } else {
                no_row(NO_SUCH_ROW, 0)
            }
        }
        Err((why, line)) => no_row(u8::from(why) as u16, line),
    }
}
