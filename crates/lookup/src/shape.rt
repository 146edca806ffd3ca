// The state's shape, and the sizes that are allowed.
ghost use Rattle.std.specs.Prelude.{◌≡◌, ◌≤◌};
ghost use Rattle.state.specs.Meaning.{tops};
ghost use Rattle.lookup.specs.Lookup.{box_in, opens_in, state_in, sizes_ok, Surveys};

use super::{Survey, at_most};
use mates::{Marks, Role};
use state::{BOXES, State};
use table::{ITEMS, NAMES, Table};

// Whether a table may have so many items and names.
pub fn sizes_ok(items: usize, names: usize) -> bool
    ensures { result ≡ sizes_ok items names }
{
    items <= ITEMS && names <= NAMES
}

// A box at an opening item, one of n, with a closing mate.
#[tactic(auto, using(mates::proofs::Placed::behinds))]
fn box_ok(marks: &Marks, n: usize, p: usize) -> bool
    ensures { result ≡ box_in marks.now.at n p }
{
    p < n && mates::open_at(marks, p) && mates::close_of(marks, p).is_some()
}

fn opens_ok(marks: &Marks, n: usize, m: State) -> bool
    requires { m.depth ≤ 8 }
    ensures { result ≡ opens_in marks.now.at n (tops m.boxes m.depth) }
{
    for k in (0..m.depth).rev() {
        if !box_ok(marks, n, m.boxes[k]) {
            return false;
        }
    }
    true
}

// Whether the state is in shape, for a text of n items.
#[tactic(auto, unfolding(crate::specs::Lookup::state_in))]
pub fn state_ok(marks: &Marks, n: usize, m: State) -> bool
    ensures { result ≡ state_in marks.now.at n m }
{
    m.at <= n && m.depth <= BOXES && opens_ok(marks, n, m) && state::cells_ok(m)
}

// One pass over a table's items, for a script of so many bytes.
pub fn survey_of(size: usize, table: &Table) -> Survey
    ensures { Surveys size table.now result }
{
    let count = at_most(table.count, ITEMS);
    let mut sound = sizes_ok(table.count, table.names);
    let mut roles = [Role::Tag; ITEMS];
    for m in 0..count {
        let x = table.items[m].item;
        roles[m] = mates::role_of(x);
        sound &= table::item_ok(table.names, size, x);
    }
    let marks = mates::marks_of(roles, count);
    Survey {
        count,
        marks,
        tag: mates::first_tag(&marks, count),
        sound,
    }
}
