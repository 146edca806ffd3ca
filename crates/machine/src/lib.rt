// The machine's step: what it needs of table and names is looked up here, the crate `effect` says what the step makes
// of it, and the names are written here.
#![tactic(auto)]

ghost use Rattle.std.specs.Prelude.{length};
ghost use Rattle.machine.specs.Exact.{Exact};

use effect::Looked;
use lookup::Survey;
use state::{Control, Offer, State, Stepped, What};
use table::Table;

const LAST_ITEM: usize = 127;

// One step: the script's bytes, its table, the state, a control and an offer.
pub fn step(text: &[u8], table: Table, state: State, control: Control, offer: Offer) -> Stepped
    ensures { Exact (length text.now) table state control offer result }
{
    let Survey {
        count,
        marks,
        tag,
        sound,
    } = lookup::survey_of(text.len(), &table);
    let shaped = sound & lookup::state_ok(&marks, count, state);
    let mut vars = state.vars;
    let spot = lookup::spot_of(state);
    let status = state.status;
    let at = spot.at;
    let here = at.min(LAST_ITEM);
    let item = table.items[here].item;
    let cells = lookup::cells_at(item, &vars);
    let mut found = effect::try_first(item, cells, at);
    let mut j = at;
    // The definition's own test says whether it goes on, which is no count.
    while effect::tries_on(found, j, count) {
        let x = table.items[j].item;
        let tested = lookup::cells_at(x, &vars);
        found = lookup::try_at(&marks, x, tested, at, j);
        j += 1;
    }
    let looked = Looked {
        item,
        cells,
        chosen: effect::chosen_by(found),
        tag,
        count,
        around: lookup::around_of(&marks, spot, item),
    };
    let e = effect::effect_of(shaped, spot, status, looked, control, offer);
    lookup::put(&mut vars, e.first);
    lookup::put(&mut vars, e.second);
    let mut things = state::no_things();
    let mut handed: usize = 0;
    let from = handed;
    handed = lookup::lay(&mut things, handed, e.one);
    handed = lookup::lay(&mut things, handed, e.two);
    let left = effect::boxes_left(e.leaves, spot.depth, handed - from);
    for k in (0..left).rev() {
        let w = lookup::leave_mark(&marks, spot.boxes[k]);
        handed = lookup::lay(&mut things, handed, w);
    }
    let stayed = state::stays(status, e.answer);
    Stepped {
        state: lookup::state_after(stayed, state, e.spot, e.status, vars),
        answer: e.answer,
        things,
        count: handed,
    }
}
