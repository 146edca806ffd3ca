// What an item reads of the row of names, and what is written into it. Every function is total.
#![tactic(auto)]

use state::Cell;
use table::Operand;

mod reads;
mod writes;

pub use reads::{cells_of, operands_of, places_of};
pub use writes::{write_over, write_place};

// One of each operand that an item may read.
#[derive(Clone, Copy)]
pub struct Four<T> {
    pub a: T,
    pub b: T,
    pub c: T,
    pub d: T,
}

// The operands that an item reads, a literal past the last.
pub type Operands = Four<Operand>;

// Where they stand in the row of names. What is no name stands at the first place, so that four cells are read, and two
// written, with no branch.
pub type Places = Four<usize>;

// What they hold.
pub type Cells = Four<Cell>;

// A name that is written.
pub type Written = Option<(usize, Cell)>;
