// What an item reads: its operands, where they stand in the row of names, and what they hold.
ghost use Rattle.std.specs.Prelude.{◌≡◌};
ghost use Rattle.operands.specs.Code as code;

use super::{Cells, Four, Operands, Places};
use state::Cell;
use table::{Act, Branch, Condition, Head, Item, NAMES, Operand, Pack, Sweep};
use value::Value;

fn no_operand() -> Operand
    ensures { result ≡ code.no_operand }
{
    Operand::Literal(Value::Whole(0))
}

fn two_operands(a: Operand, b: Operand) -> Operands
    ensures { result ≡ code.two_operands a b }
{
    Four {
        a,
        b,
        c: no_operand(),
        d: no_operand(),
    }
}

fn one_operand(a: Operand) -> Operands
    ensures { result ≡ code.one_operand a }
{
    two_operands(a, no_operand())
}

fn no_operands() -> Operands
    ensures { result ≡ code.no_operands }
{
    one_operand(no_operand())
}

fn condition_operands(c: Condition) -> Operands
    ensures { result ≡ code.condition_operands c }
{
    two_operands(c.left, c.right)
}

fn sweep_operands(w: Sweep) -> Operands
    ensures { result ≡ code.sweep_operands w }
{
    Four {
        a: w.begin,
        b: w.end,
        c: w.step,
        d: w.rate,
    }
}

fn act_operands(a: Act) -> Operands
    ensures { result ≡ code.act_operands a }
{
    match a {
        Act::Copy(n, _) => one_operand(Operand::Name(n)),
        Act::Calc(_, n, x) => two_operands(Operand::Name(n), x),
        Act::Meas(x, _, _) | Act::Wait(x) | Act::SetE(x) => one_operand(x),
        Act::Var(_) | Act::Store(_, _, _) | Act::TimerGet(_) | Act::SendString(_) => no_operands(),
        Act::SetMode(_) | Act::TimerStart | Act::CellOn | Act::CellOff | Act::Abort =>
            no_operands(),
    }
}

fn pack_operands(p: Pack) -> Operands
    ensures { result ≡ code.pack_operands p }
{
    match p {
        Pack::Add(n) => one_operand(Operand::Name(n)),
        Pack::Start | Pack::End => no_operands(),
    }
}

fn head_operands(h: Head) -> Operands
    ensures { result ≡ code.head_operands h }
{
    match h {
        Head::If(c) | Head::Loop(c) => condition_operands(c),
        Head::Sweep(w) => sweep_operands(w),
    }
}

fn branch_operands(b: Branch) -> Operands
    ensures { result ≡ code.branch_operands b }
{
    match b {
        Branch::ElseIf(c) => condition_operands(c),
        Branch::Else => no_operands(),
    }
}

// The operands that an item reads.
pub fn operands_of(item: Item) -> Operands
    ensures { result ≡ code.operands_of item }
{
    match item {
        Item::Act(a) => act_operands(a),
        Item::Pack(p) => pack_operands(p),
        Item::Open(h) => head_operands(h),
        Item::Branch(b) => branch_operands(b),
        Item::Close(_) | Item::Break | Item::Tag => no_operands(),
    }
}

pub(crate) fn in_row(n: usize) -> usize
    ensures { result ≡ code.in_row n }
{
    if n < NAMES { n } else { 0 }
}

fn place_of(x: Operand) -> usize
    ensures { result ≡ code.place_of x }
{
    match x {
        Operand::Name(n) => in_row(n),
        Operand::Literal(_) => 0,
    }
}

// Where operands stand in the row of names; the first place where they are none of them.
pub fn places_of(operands: Operands) -> Places
    ensures { result ≡ code.places_of operands }
{
    Four {
        a: place_of(operands.a),
        b: place_of(operands.b),
        c: place_of(operands.c),
        d: place_of(operands.d),
    }
}

fn cell_in(n: usize, v: Cell) -> Cell
    ensures { result ≡ code.cell_in n v }
{
    if n < NAMES { v } else { None }
}

// What an operand holds, where v stands at its place; a literal as if a name held it.
fn cell_of(x: Operand, v: Cell) -> Cell
    ensures { result ≡ code.cell_of x v }
{
    match x {
        Operand::Name(n) => cell_in(n, v),
        Operand::Literal(l) => Some((l, 0)),
    }
}

// What operands hold, where these stand at their places.
pub fn cells_of(operands: Operands, at: Cells) -> Cells
    ensures { result ≡ code.cells_of operands at.a at.b at.c at.d }
{
    Four {
        a: cell_of(operands.a, at.a),
        b: cell_of(operands.b, at.b),
        c: cell_of(operands.c, at.c),
        d: cell_of(operands.d, at.d),
    }
}
