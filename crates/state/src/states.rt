// The state as a whole: at the beginning, with the flags of a control, with nothing left over.
ghost use Rattle.std.specs.Prelude.{◌≡◌, ◌-◌, replicate};
ghost use Rattle.std.proofs.lemmas.List.Edits.{sets};
ghost use Rattle.state.specs.State.{flagged};
ghost use Rattle.state.specs.Meaning.{state_of, Starts, Neatened, Becomes};

use super::{BOXES, State, Status};

// A run that has not begun.
pub fn fresh() -> State
    ensures { Starts result }
{
    State {
        at: 0,
        boxes: [0; 8],
        depth: 0,
        vars: [None; 32],
        pending: false,
        skip: false,
        packed: false,
        status: Status::Live,
    }
}

// The two flags that a control sets.
pub fn with_flags(m: State, pending: bool, skip: bool) -> State
    ensures { Becomes m (flagged (state_of m) pending skip) result }
{
    State { pending, skip, ..m }
}

// The row with 0 from d on.
fn zero_boxes(boxes: [usize; 8], d: usize) -> [usize; 8]
    ensures { result ≡ sets boxes d (replicate (8 - d) 0) }
{
    let mut t = boxes;
    t[d.min(BOXES)..].fill(0);
    t
}

// The same run, with nothing left past the open boxes.
pub fn neat_state(m: State) -> State
    ensures { Neatened m result }
{
    State {
        boxes: zero_boxes(m.boxes, m.depth),
        ..m
    }
}
