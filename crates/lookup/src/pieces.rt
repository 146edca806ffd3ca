// The state's parts: where it stands, what is put together after steps, and how many there are of something.
ghost use Rattle.std.specs.Prelude.{◌≡◌};
ghost use Rattle.laws.specs.Least.{least};
ghost use Rattle.steps.specs.Code.{count_of, wrote, LeftAs};
ghost use Rattle.lookup.specs.Lookup.{spot_of, cells_at, Lays};

use effect::Spot;
use operands::{Cells, Four, Written};
use state::{Cell, State, Status, What};
use table::Item;

// The lesser of the two.
#[tactic(auto, using(laws::proofs::Least::least_min))]
pub fn at_most(n: usize, most: usize) -> usize
    ensures { result ≡ least n most }
{
    n.min(most)
}

// Where the run of a state stands. It is no `From`, which would have to stand in `effect`, away from its way back.
pub fn spot_of(m: State) -> Spot
    ensures { result ≡ spot_of m }
{
    let boxes = m.boxes;
    Spot {
        at: m.at,
        boxes,
        depth: m.depth,
        pending: m.pending,
        skip: m.skip,
        packed: m.packed,
    }
}

// The state after steps: where none of them took an item, the one before them with the flags that controls set.
pub fn state_after(stayed: bool, before: State, s: Spot, status: Status, vars: [Cell; 32]) -> State
    ensures { LeftAs stayed before s status vars result }
{
    if stayed {
        return state::with_flags(before, s.pending, s.skip);
    }
    let boxes = s.boxes;
    state::neat_state(State {
        at: s.at,
        boxes,
        depth: s.depth,
        vars,
        pending: s.pending,
        skip: s.skip,
        packed: s.packed,
        status,
    })
}

// Whether it is a thing, counted: 1, or 0 where it is none.
pub fn things_in(w: What) -> usize
    ensures { result ≡ count_of w }
{
    match w {
        What::Nothing => 0,
        _ => 1,
    }
}

// What an item reads of the row of names.
pub fn cells_at(item: Item, vars: &[Cell; 32]) -> Cells
    ensures { result ≡ cells_at item vars.now }
{
    let operands = operands::operands_of(item);
    let places = operands::places_of(operands);
    let stand = Four {
        a: vars[places.a],
        b: vars[places.b],
        c: vars[places.c],
        d: vars[places.d],
    };
    operands::cells_of(operands, stand)
}

// What is written goes into the row of names. A place past the row writes back what stands at its first place, so that
// nothing branches.
pub fn put(vars: &mut [Cell; 32], w: Written)
    ensures { vars.new ≡ wrote w vars.old }
{
    let p = operands::write_place(w);
    vars[p] = operands::write_over(w, vars[p]);
}

// Lays a thing behind the n that stand in the row, and says how many stand there then. A row that is full stays.
pub fn lay(things: &mut [What], n: usize, w: What) -> usize
    ensures { Lays things.old n w things.new result }
{
    if n < things.len() {
        things[n] = w;
        n + things_in(w)
    } else {
        n
    }
}
