// What holds where the checker stands, surely written names above all, and what holds after an item.
ghost use Rattle.std.specs.Prelude.{◌≡◌, cond, ◌<◌};
ghost use Rattle.sets.specs.Names.{everything, both, names_of};
ghost use Rattle.rules.specs.Check.{after_box};
ghost use Rattle.rules.specs.Code.{holds_of, box_of, packs_in, moved, sort_in, Deeper, entered};
ghost use Rattle.rules.specs.Code.{Outside, Starts};

use super::briefs::{Form, Step};
use sets::NameSet;
use table::Sort;

// What is around a row of items: how many boxes are open; of the innermost its sort and what held before it; whether
// any is a loop, and whether any is a measuring loop. It lasts through the row, and what holds changes with each item:
// so the two stay two structs, though most rules ask both.
#[derive(Clone, Copy)]
pub struct Around {
    pub depth: usize,
    pub sort: Sort,
    pub before: NameSet,
    pub looped: bool,
    pub swept: bool,
}

// What holds where the checker stands in the row: the names surely written; what holds at the end of every branch so
// far, and whether else was seen; whether a package is open, and whether the tag was seen.
#[derive(Clone, Copy)]
pub struct Held {
    pub sure: NameSet,
    pub every_end: NameSet,
    pub else_seen: bool,
    pub packed: bool,
    pub tagged: bool,
}

// ---- at the start

// No box is around the whole.
pub(crate) fn outside() -> Around
    ensures { Outside result }
{
    Around {
        depth: 0,
        sort: Sort::If,
        before: NameSet::none(),
        looped: false,
        swept: false,
    }
}

pub(crate) fn start() -> Held
    ensures { Starts result }
{
    Held {
        sure: NameSet::none(),
        every_end: NameSet::none(),
        else_seen: false,
        packed: false,
        tagged: false,
    }
}

// ---- after an item that opens no box

fn packed_after(step: Step, packed: bool) -> bool
    ensures { result ≡ packs_in step packed }
{
    match step {
        Step::Start => true,
        Step::Add => packed,
        Step::End => false,
    }
}

// A missing else is an empty branch.
fn after_if(ends: NameSet, sure: NameSet, seen: bool, held: NameSet) -> NameSet
    ensures { names_of result ≡ both (both (names_of ends) (names_of sure)) (cond seen everything (names_of held)) }
{
    let met = ends.in_both(sure);
    if seen {
        met.in_both(NameSet::all())
    } else {
        met.in_both(held)
    }
}

fn after_box(a: Around, h: Held) -> NameSet
    ensures { names_of result ≡ after_box a.sort (box_of a (holds_of h)) (names_of h.sure) }
{
    match a.sort {
        Sort::If => after_if(h.every_end, h.sure, h.else_seen, a.before),
        Sort::Loop | Sort::Sweep => a.before,
    }
}

#[tactic(auto, unfolding(crate::specs::Code::moved))]
pub(crate) fn after_item(a: Around, h: Held, writes: NameSet, form: Form) -> Held
    ensures { holds_of result ≡ moved a (holds_of h) (names_of writes) form }
{
    match form {
        Form::Wrong | Form::Open(_) | Form::Twice | Form::Break => h,
        Form::Act => Held {
            sure: h.sure.in_either(writes),
            ..h
        },
        Form::Pack(step) => Held {
            packed: packed_after(step, h.packed),
            ..h
        },
        Form::Branch(e) => Held {
            sure: a.before,
            every_end: h.every_end.in_both(h.sure),
            else_seen: e,
            ..h
        },
        Form::Close(_) => Held {
            sure: after_box(a, h),
            ..h
        },
        Form::Tag => Held {
            sure: NameSet::none(),
            tagged: true,
            ..h
        },
    }
}

// ---- in a box that an item opens

pub(crate) fn sort_in(form: Form) -> Sort
    ensures { result ≡ sort_in form }
{
    match form {
        Form::Open(s) => s,
        Form::Twice => Sort::Sweep,
        _ => Sort::If,
    }
}

pub(crate) fn deeper(a: Around, h: Held, form: Form) -> Around
    requires { a.depth < 8 }
    ensures { Deeper a h form result }
{
    let sort = sort_in(form);
    Around {
        depth: a.depth + 1,
        sort,
        before: h.sure,
        looped: table::is_loop(sort) || a.looped,
        swept: table::is_sweep(sort) || a.swept,
    }
}

// A box starts with what held before it, plus what its mark writes.
pub(crate) fn enter(h: Held, writes: NameSet) -> Held
    ensures { holds_of result ≡ entered (holds_of h) (names_of writes) }
{
    Held {
        sure: h.sure.in_either(writes),
        every_end: NameSet::all(),
        else_seen: false,
        ..h
    }
}
