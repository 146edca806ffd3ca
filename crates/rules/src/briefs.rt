// What the walk over the boxes has to know of an item: the names that it reads, those that it writes, and its form.
ghost use Rattle.std.specs.Prelude.{◌≡◌};
ghost use Rattle.rules.specs.Code.{kinds_in, step_of, head_form, plain_form, form_by, Briefs};

use super::kinds::Sorted;
use sets::NameSet;
use table::{Branch, Close, Head, Item, Pack, Sort, Sweep};

// pck_start, pck_add, pck_end. With the name that pck_add sends a form would be 16 bytes and not 2, and a row of briefs
// so much longer: a check of 16 items then took a fifth more time.
#[derive(Clone, Copy)]
pub enum Step {
    Start,
    Add,
    End,
}

// An item that breaks 19 is nothing but wrong. A measuring loop that has the same name twice is a form of its own; a
// branch mark says whether it is else. `Wrong` is no error: the walk judges it with the other rules, as 19.
#[derive(Clone, Copy)]
pub enum Form {
    Wrong,
    Act,
    Pack(Step),
    Open(Sort),
    Twice,
    Branch(bool),
    Close(Close),
    Break,
    Tag,
}

#[derive(Clone, Copy)]
pub struct Brief {
    pub reads: NameSet,
    pub writes: NameSet,
    pub form: Form,
}

// 25: the same name twice in meas_loop_lsv.
fn sweep_form(sweep: Sweep) -> Form
    ensures { result ≡ head_form (Head.Sweep sweep) }
{
    if sweep.potential == sweep.current {
        Form::Twice
    } else {
        Form::Open(Sort::Sweep)
    }
}

fn head_form(head: Head) -> Form
    ensures { result ≡ head_form head }
{
    match head {
        Head::If(_) => Form::Open(Sort::If),
        Head::Loop(_) => Form::Open(Sort::Loop),
        Head::Sweep(w) => sweep_form(w),
    }
}

fn step_of(pack: Pack) -> Step
    ensures { result ≡ step_of pack }
{
    match pack {
        Pack::Start => Step::Start,
        Pack::Add(_) => Step::Add,
        Pack::End => Step::End,
    }
}

fn plain_form(item: Item) -> Form
    ensures { result ≡ plain_form item }
{
    match item {
        Item::Act(_) => Form::Act,
        Item::Pack(p) => Form::Pack(step_of(p)),
        Item::Open(h) => head_form(h),
        Item::Branch(b) => Form::Branch(matches!(b, Branch::Else)),
        Item::Close(c) => Form::Close(c),
        Item::Break => Form::Break,
        Item::Tag => Form::Tag,
    }
}

fn form_by(wrong: bool, item: Item) -> Form
    ensures { result ≡ form_by wrong item }
{
    if wrong { Form::Wrong } else { plain_form(item) }
}

pub(crate) fn brief_of(kinds: Sorted, item: Item) -> Brief
    ensures { Briefs (kinds_in kinds) item result }
{
    let reads = table::reads_of(item);
    let writes = table::writes_of(item);
    Brief {
        reads: NameSet::none().with_read(reads),
        writes: NameSet::none().with_written(writes),
        form: form_by(kinds.wrong_kinds(reads, writes), item),
    }
}
