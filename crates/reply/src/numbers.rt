// The rows of a reply as numbers, four a row, put in front of numbers that the caller lends.
ghost use Rattle.std.specs.Prelude.{◌≡◌, ◌+◌, ◌*◌, ◌≤◌, length};
ghost use Rattle.reply.specs.Numbers.{ReadNumbers, kind_of, room_in, row_at, row_in, same_room};
ghost use Rattle.reply.specs.Code.{low, put_row};

use super::{Keep, Read, Row};
use reply_line::{Refusal, RowKind};

// The letter of its kind, its mark, its parent row, its packages.
const NUMBERS_A_ROW: usize = 4;

const OVER_32_BITS: usize = 4294967296;

// The kind that has a letter; any other letter is the script's. A TryFrom would have an error that nobody reads.
#[tactic(auto, unfolding(crate::specs::Numbers::kind_of))]
fn kind_of(letter: u32) -> RowKind
    ensures { result ≡ kind_of letter }
{
    if letter == u8::from(RowKind::Sweep) as u32 {
        return RowKind::Sweep;
    }
    if letter == u8::from(RowKind::Loop) as u32 {
        return RowKind::Loop;
    }
    if letter == u8::from(RowKind::Scan) as u32 {
        return RowKind::Scan;
    }
    RowKind::Script
}

#[tactic(auto, unfolding(crate::specs::Numbers::row_at))]
fn row_at(numbers: &[u32], at: usize) -> Row
    requires { at * 4 + 4 ≤ length numbers.now }
    ensures { result ≡ row_at numbers.now at }
{
    let first = at * NUMBERS_A_ROW;
    Row {
        kind: kind_of(numbers[first]),
        mark: numbers[first + 1],
        parent: numbers[first + 2] as usize,
        packages: numbers[first + 3] as usize,
    }
}

// The row whose numbers stand at a place, or the script's where there is no such place.
#[tactic(auto, unfolding(crate::specs::Numbers::row_in))]
pub fn row_in(numbers: &[u32], at: usize) -> Row
    ensures { result ≡ row_in numbers.now at }
{
    if at < numbers.len() / NUMBERS_A_ROW {
        row_at(numbers, at)
    } else {
        super::SCRIPT_ROW
    }
}

// A count in 32 bits; no reply has so many rows or packages that a bit is lost.
fn low(count: usize) -> u32
    ensures { result ≡ low count }
{
    (count % OVER_32_BITS) as u32
}

#[tactic(auto, using(text::proofs::Put::stores4), unfolding(crate::specs::Code::put_row, crate::specs::Code::cut_row))]
fn put_row(numbers: &mut [u32], at: usize, row: Row)
    requires { at * 4 + 4 ≤ length numbers.old }
    ensures { numbers.new ≡ put_row numbers.old at row }
{
    let first = at * NUMBERS_A_ROW;
    numbers[first] = u8::from(row.kind) as u32;
    numbers[first + 1] = row.mark;
    numbers[first + 2] = low(row.parent);
    numbers[first + 3] = low(row.packages);
}

impl Keep for u32 {
    ghost room = { λ numbers. room_in numbers };

    ghost got = { λ numbers at. row_in numbers at };

    ghost put = { λ numbers at row. put_row numbers at row };

    ghost keeps_room = { λ xs ys same. same_room xs ys same };

    fn room(lent: &[u32]) -> usize {
        lent.len() / NUMBERS_A_ROW
    }

    fn row_in(lent: &[u32], at: usize) -> Row {
        row_in(lent, at)
    }

    fn put_row(lent: &mut [u32], at: usize, row: Row) {
        put_row(lent, at, row);
    }
}

// As `read_reply`, into as many rows as the numbers have room for.
pub fn read_numbers(reply: &[u8], numbers: &mut [u32]) -> Result<Read, (Refusal, usize)>
    ensures { ReadNumbers reply.now numbers.old result numbers.new }
{
    super::read_into(reply, numbers)
}
