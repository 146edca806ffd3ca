// What is looked up for one step, in marks and state.
#![tactic(auto)]

pub use around::{around_of, leave_mark, try_at};
use mates::Marks;
pub use pieces::{at_most, cells_at, lay, put, spot_of, state_after, things_in};
pub use shape::{sizes_ok, state_ok, survey_of};

mod around;
mod pieces;
mod shape;

// What is known of a table before any step: how many items are looked at, their marks, the first tag's place, and
// whether it is in shape for a script of so many bytes.
#[derive(Clone, Copy)]
pub struct Survey {
    pub count: usize,
    pub marks: Marks,
    pub tag: usize,
    pub sound: bool,
}
