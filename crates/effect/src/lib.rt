// What one step makes of a run: an effect, from what was looked up of the text and of the names. No table and no row of
// names comes here. Every function is total.
#![tactic(auto)]

use operands::{Cells, Written};
use state::{Answer, Fault, Status, What};
use table::Item;

mod acts;
mod boxes;
mod effects;
mod faults;
mod marks;
mod spots;
mod step;
mod tries;

pub use boxes::boxes_left;
pub use step::effect_of;
pub use tries::{chosen_by, tries_on, try_first, try_mate};

// Where a run stands: all of it but its names and its status. There is no heap, so the open boxes are a row with a
// count.
#[derive(Clone, Copy)]
pub struct Spot {
    pub at: usize,
    pub boxes: [usize; 8],
    pub depth: usize,
    pub pending: bool,
    pub skip: bool,
    pub packed: bool,
}

// What a step makes of a run: where it stands, its status; what it answers; what it hands out, at most two things, or
// the marks of all open boxes as they are left; and the names that it writes, at most two. The two things are laid out
// whatever they are, so that no branch stands between them: nothing is a thing of its own.
#[derive(Clone, Copy)]
pub struct Effect {
    pub spot: Spot,
    pub status: Status,
    pub answer: Answer,
    pub one: What,
    pub two: What,
    pub leaves: bool,
    pub first: Written,
    pub second: Written,
}

// Where an if leads: into a branch, past endif, or to a fault of the elseif tried. The step goes all three ways alike;
// a result would hold an enum of the other two.
#[derive(Clone, Copy)]
pub enum Chosen {
    Into(usize),
    Beyond(usize),
    Bad(Fault),
}

// What the text's marks say of the open boxes, and of the box that the item is about: whether a measuring loop is open;
// whether the item's mark is astray; past that box's closing mark; whether it is a measuring loop; how many boxes stay
// open outside it. An item may be about no box, about a box, or astray with or without one, so that no option holds the
// last three.
#[derive(Clone, Copy)]
pub struct Around {
    pub sweeping: bool,
    pub stray: bool,
    pub close: usize,
    pub sweep: bool,
    pub outside: usize,
}

#[derive(Clone, Copy)]
pub struct Looked {
    pub item: Item,
    pub cells: Cells,
    pub chosen: Chosen,
    pub tag: usize,
    pub count: usize,
    pub around: Around,
}

// What a step reads: nothing, one cell of any kind, two of one kind, one float, or four.
#[derive(Clone, Copy)]
pub enum Need {
    Nothing,
    Any,
    Alike,
    Float,
    Four,
}
