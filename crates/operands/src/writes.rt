// What is written into the row of names.
ghost use Rattle.std.specs.Prelude.{◌≡◌};
ghost use Rattle.operands.specs.Code as code;

use super::{Written, reads};
use state::Cell;
use table::NAMES;

// Where a write stands in the row of names; the first place where it writes none of them.
pub fn write_place(write: Written) -> usize
    ensures { result ≡ code.write_place write }
{
    match write {
        None => 0,
        Some((n, _)) => reads::in_row(n),
    }
}

fn put_in(n: usize, c: Cell, v: Cell) -> Cell
    ensures { result ≡ code.put_in n c v }
{
    if n < NAMES { c } else { v }
}

// What stands at the place of a write behind it, where v stood there.
pub fn write_over(write: Written, v: Cell) -> Cell
    ensures { result ≡ code.write_over write v }
{
    match write {
        None => v,
        Some((n, c)) => put_in(n, c, v),
    }
}
