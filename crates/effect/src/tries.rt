// The mates that a false condition tries.
ghost use Rattle.std.specs.Prelude.{◌≡◌};
ghost use Rattle.effect.specs.Code as code;

use super::{Chosen, Need, spots};
use operands::Cells;
use state::Fault;
use table::{Branch, Condition, Head, Item};

pub(crate) fn holds(c: Condition, k: Cells) -> bool
    ensures { result ≡ code.holds c k }
{
    value::compare(c.by, state::cell_value(k.a), state::cell_value(k.b))
}

fn try_holding(holding: bool, at: usize) -> Option<Chosen>
    ensures { result ≡ code.try_holding holding at }
{
    if holding {
        return Some(Chosen::Into(spots::after(at)));
    }
    None
}

// An elseif, with the fault of what it reads.
fn try_unless(t: Option<Fault>, holding: bool, at: usize) -> Option<Chosen>
    ensures { result ≡ code.try_unless t holding at }
{
    match t {
        None => try_holding(holding, at),
        Some(f) => Some(Chosen::Bad(f)),
    }
}

fn try_condition(c: Condition, k: Cells, at: usize) -> Option<Chosen>
    ensures { result ≡ code.try_condition c k at }
{
    try_unless(Need::Alike.fault(k), holds(c, k), at)
}

fn try_branch(b: Branch, k: Cells, at: usize) -> Option<Chosen>
    ensures { result ≡ code.try_branch b k at }
{
    match b {
        Branch::ElseIf(c) => try_condition(c, k, at),
        Branch::Else => Some(Chosen::Into(spots::after(at))),
    }
}

// What a mate of an if leads to, where it is tried; at is its place.
pub fn try_mate(item: Item, cells: Cells, at: usize) -> Option<Chosen>
    ensures { result ≡ code.try_mate item cells at }
{
    match item {
        Item::Branch(b) => try_branch(b, cells, at),
        Item::Close(_) => Some(Chosen::Beyond(spots::after(at))),
        _ => None,
    }
}

fn try_head(h: Head, k: Cells, at: usize) -> Option<Chosen>
    ensures { result ≡ code.try_head h k at }
{
    match h {
        Head::If(c) => try_holding(holds(c, k), at),
        Head::Loop(_) | Head::Sweep(_) => Some(Chosen::Into(0)),
    }
}

// Where the item at which the run stands leads, where that needs no mate.
pub fn try_first(item: Item, cells: Cells, at: usize) -> Option<Chosen>
    ensures { result ≡ code.try_first item cells at }
{
    match item {
        Item::Open(h) => try_head(h, cells, at),
        _ => Some(Chosen::Into(0)),
    }
}

// Whether one more of n items is to be tried, from at on.
pub fn tries_on(tried: Option<Chosen>, at: usize, n: usize) -> bool
    ensures { result ≡ code.tries_on tried at n }
{
    tried.is_none() && at < n
}

// With no mate left, a fault.
pub fn chosen_by(tried: Option<Chosen>) -> Chosen
    ensures { result ≡ code.chosen_by tried }
{
    tried.unwrap_or(Chosen::Bad(Fault::Box))
}

pub(crate) fn chosen_fault(c: Chosen) -> Option<Fault>
    ensures { result ≡ code.chosen_fault c }
{
    match c {
        Chosen::Bad(f) => Some(f),
        Chosen::Into(_) | Chosen::Beyond(_) => None,
    }
}
