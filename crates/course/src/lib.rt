// Steps one after the other. A step from a state in shape leaves one in shape, so that table and state are judged once;
// each step is that of the crate `machine`.
#![tactic(auto)]

ghost use Rattle.std.specs.Prelude.{length, take};
ghost use Rattle.course.specs.Course.{steps_of, ExactRun};

use effect::Looked;
use lookup::Survey;
use state::{Answer, Control, Offer, State, What};
use table::Table;

const LAST_ITEM: usize = 127;

const MOST_STEPS: usize = 64;

// What one step takes.
#[derive(Clone, Copy)]
pub struct Told {
    pub control: Control,
    pub offer: Offer,
}

// There is no heap: rows of a fixed length, here and in `Ran`, have their counts beside them.
#[derive(Clone, Copy)]
pub struct Steps {
    pub at: [Told; 64],
    pub count: usize,
}

// A step's answer, and how many things it handed out.
#[derive(Clone, Copy)]
pub struct Said {
    pub answer: Answer,
    pub things: usize,
}

// The state after the last step, each step's answer, and all the things handed out, in order.
#[derive(Clone, Copy)]
pub struct Ran {
    pub state: State,
    pub answers: [Said; 64],
    pub count: usize,
    pub things: [What; 512],
    pub handed: usize,
}

// The first steps of those told, as many as the budget allows. The names' row and the spot stay locals of the loop.
// The turn is that of `machine::step`: what it looks up, writes and lays are functions of `lookup`. The whole of it is
// no function: what it answers no definition says exactly but that of a step.
pub fn run(text: &[u8], table: Table, state: State, steps: Steps, budget: usize) -> Ran
    ensures { ExactRun (length text.now) table state (take budget (steps_of steps)) result }
{
    let n = budget.min(steps.count).min(MOST_STEPS);
    let Survey {
        count,
        marks,
        tag,
        sound,
    } = lookup::survey_of(text.len(), &table);
    let shaped = sound & lookup::state_ok(&marks, count, state);
    let mut answers = [Said {
        answer: Answer::Running,
        things: 0,
    }; 64];
    let mut things = [What::Nothing; 512];
    let mut handed: usize = 0;
    let mut vars = state.vars;
    let mut spot = lookup::spot_of(state);
    let mut status = state.status;
    let mut stayed = true;
    for i in 0..n {
        let told = steps.at[i];
        let at = spot.at;
        let here = at.min(LAST_ITEM);
        let item = table.items[here].item;
        let cells = lookup::cells_at(item, &vars);
        let mut found = effect::try_first(item, cells, at);
        let mut j = at;
        // The definition's own test says whether it goes on, which is no count.
        while effect::tries_on(found, j, count) {
            let x = table.items[j].item;
            let tested = lookup::cells_at(x, &vars);
            found = lookup::try_at(&marks, x, tested, at, j);
            j += 1;
        }
        let looked = Looked {
            item,
            cells,
            chosen: effect::chosen_by(found),
            tag,
            count,
            around: lookup::around_of(&marks, spot, item),
        };
        let e = effect::effect_of(shaped, spot, status, looked, told.control, told.offer);
        lookup::put(&mut vars, e.first);
        lookup::put(&mut vars, e.second);
        let from = handed;
        handed = lookup::lay(&mut things, handed, e.one);
        handed = lookup::lay(&mut things, handed, e.two);
        let left = effect::boxes_left(e.leaves, spot.depth, handed - from);
        for k in (0..left).rev() {
            let w = lookup::leave_mark(&marks, spot.boxes[k]);
            handed = lookup::lay(&mut things, handed, w);
        }
        answers[i] = Said {
            answer: e.answer,
            things: handed - from,
        };
        stayed &= state::stays(status, e.answer);
        spot = e.spot;
        status = e.status;
    }
    Ran {
        state: lookup::state_after(stayed, state, spot, status, vars),
        answers,
        count: n,
        things,
        handed,
    }
}
