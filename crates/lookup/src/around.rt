// What the marks say where a run stands. A struct of marks and spot would be made for the calls of this file alone.
ghost use Rattle.std.specs.Prelude.{◌≡◌, ◌≤◌};
ghost use Rattle.state.specs.Meaning.{tops};
ghost use Rattle.lookup.specs.Lookup.{held_in, sweeps, to_loop, leave_of, alone, around_open, around_mark};
ghost use Rattle.lookup.specs.Lookup.{around_break, around_in, tried_in, up_to};

use effect::{Around, Chosen, Spot};
use mates::Marks;
use operands::Cells;
use state::{BOXES, LoopSort, What};
use table::Item;

// Whether a measuring loop is open.
fn any_sweep(marks: &Marks, s: Spot) -> bool
    ensures { result ≡ sweeps marks.now.at (held_in s) }
{
    for k in (0..s.depth.min(BOXES)).rev() {
        if mates::sweep_at(marks, s.boxes[k]) {
            return true;
        }
    }
    false
}

// The place of the innermost open loop in the row of boxes.
fn loop_depth(marks: &Marks, s: Spot) -> Option<usize>
    ensures { (up_to result ≤ 8) × (to_loop marks.now.at (held_in s) ≡ tops s.boxes (up_to result)) }
{
    for k in (0..s.depth.min(BOXES)).rev() {
        if mates::loop_at(marks, s.boxes[k]) {
            return Some(k);
        }
    }
    None
}

// The mark that leaving the box at p hands out, where it is a loop's.
#[tactic(auto, unfolding(crate::specs::Lookup::leave_of))]
pub fn leave_mark(marks: &Marks, p: usize) -> What
    ensures { result ≡ leave_of marks.now.at p }
{
    if mates::sweep_at(marks, p) {
        return What::Leave(LoopSort::Sweep);
    }
    if mates::loop_at(marks, p) {
        return What::Leave(LoopSort::Loop);
    }
    What::Nothing
}

// Around an item that is about no box, or whose mark is astray.
fn around_none(sweeping: bool, stray: bool) -> Around
    ensures { result ≡ alone sweeping stray }
{
    Around {
        sweeping,
        stray,
        close: 0,
        sweep: false,
        outside: 0,
    }
}

#[tactic(auto, using(mates::proofs::Placed::behinds))]
fn around_open(marks: &Marks, sweeping: bool, s: Spot) -> Around
    ensures { result ≡ around_open marks.now.at sweeping s.at }
{
    let close = mates::close_of(marks, s.at);
    Around {
        close: close.unwrap_or(0),
        ..around_none(sweeping, close.is_none())
    }
}

// Around a branch or closing mark.
#[tactic(auto, using(mates::proofs::Placed::behinds))]
fn around_mark(marks: &Marks, sweeping: bool, s: Spot) -> Around
    ensures { result ≡ around_mark marks.now.at sweeping s.at (held_in s) }
{
    let d = s.depth.min(BOXES);
    if d == 0 {
        return around_none(sweeping, true);
    }
    let p = s.boxes[d - 1];
    Around {
        close: mates::close_of(marks, p).unwrap_or(0),
        sweep: mates::sweep_at(marks, p),
        ..around_none(sweeping, !mates::belongs_to(marks, s.at, p))
    }
}

#[tactic(auto, using(mates::proofs::Placed::behinds))]
fn around_break(marks: &Marks, sweeping: bool, s: Spot) -> Around
    ensures { result ≡ around_break marks.now.at sweeping (to_loop marks.now.at (held_in s)) }
{
    match loop_depth(marks, s) {
        Some(k) => Around {
            close: mates::close_of(marks, s.boxes[k]).unwrap_or(0),
            sweep: mates::sweep_at(marks, s.boxes[k]),
            outside: k,
            ..around_none(sweeping, false)
        },
        None => around_none(sweeping, true),
    }
}

// What the marks say around the item x, where the run stands at it.
#[tactic(auto, unfolding(crate::specs::Lookup::around_in))]
pub fn around_of(marks: &Marks, s: Spot, x: Item) -> Around
    ensures { result ≡ around_in marks.now.at s x }
{
    let sweeping = any_sweep(marks, s);
    match x {
        Item::Act(_) | Item::Pack(_) | Item::Tag => around_none(sweeping, false),
        Item::Open(_) => around_open(marks, sweeping, s),
        Item::Branch(_) | Item::Close(_) => around_mark(marks, sweeping, s),
        Item::Break => around_break(marks, sweeping, s),
    }
}

// What the item x at j leads to, tried where it belongs to the box that opens at p.
#[tactic(auto, unfolding(crate::specs::Lookup::tried_in))]
pub fn try_at(marks: &Marks, x: Item, k: Cells, p: usize, j: usize) -> Option<Chosen>
    ensures { result ≡ tried_in marks.now.at x k p j }
{
    if mates::belongs_to(marks, j, p) {
        return effect::try_mate(x, k, j);
    }
    None
}
