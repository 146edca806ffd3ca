// What the names hold.
ghost use Rattle.std.specs.Prelude.{◌≡◌};
ghost use Rattle.state.specs.State.{cell_value, cell_type, cell_ok, cells_ok};
ghost use Rattle.state.specs.Meaning.{state_of};

use super::{Cell, State};
use value::Value;

// What a name holds; a name that is not written reads as the whole number 0.
pub fn cell_value(c: Cell) -> Value
    ensures { result ≡ cell_value c }
{
    match c {
        None => Value::Whole(0),
        Some((v, _)) => v,
    }
}

// The type of what a name holds; 01 has 0 for that of a name that is not written.
pub fn cell_type(c: Cell) -> u16
    ensures { result ≡ cell_type c }
{
    match c {
        None => 0,
        Some((_, t)) => t,
    }
}

// Whether a float is finite, if a name holds one.
fn cell_ok(c: Cell) -> bool
    ensures { result ≡ cell_ok c }
{
    match c {
        None => true,
        Some((v, _)) => value::is_finite(v),
    }
}

// Whether every float that a name holds is finite.
pub fn cells_ok(m: State) -> bool
    ensures { result ≡ cells_ok (state_of m).vars }
{
    m.vars.iter().all(|c| cell_ok(*c))
}
