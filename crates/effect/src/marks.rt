// What opening and closing marks do.
ghost use Rattle.std.specs.Prelude.{◌≡◌};
ghost use Rattle.effect.specs.Code as code;

use super::{Around, Chosen, Effect, Looked, Spot, effects, spots, tries};
use operands::Written;
use state::{Cell, LoopSort, Offer, Point, Stop, What};
use table::{Close, Head, Sweep};
use value::Value;

// A type is its first letter times 256, and its second.
const TYPE_DA: u16 = 25697;

const TYPE_BA: u16 = 25185;

// Into a loop: its mark where it is entered first.
fn enter_loop(s: Spot, sort: LoopSort, first: Written, second: Written) -> Effect
    ensures { result ≡ code.enter_loop s sort first second }
{
    if s.is_inside() {
        return effects::acting(s.go_on(), What::Nothing, What::Nothing, first, second);
    }
    effects::acting(
        s.push().go_on(),
        What::Enter(sort),
        What::Nothing,
        first,
        second,
    )
}

// Past a loop: both marks where it is found empty.
fn leave_loop(s: Spot, sort: LoopSort, close: usize) -> Effect
    ensures { result ≡ code.leave_loop s sort close }
{
    let sweep = state::measures(sort);
    if s.is_inside() {
        return effects::saying(
            s.leave_to(spots::below(s.depth), close, sweep),
            What::Leave(sort),
        );
    }
    effects::acting(
        s.leave_to(s.depth, close, sweep),
        What::Enter(sort),
        What::Leave(sort),
        None,
        None,
    )
}

fn run_loop(s: Spot, holding: bool, close: usize) -> Effect
    ensures { result ≡ code.run_loop s holding close }
{
    if holding {
        return enter_loop(s, LoopSort::Loop, None, None);
    }
    leave_loop(s, LoopSort::Loop, close)
}

fn run_point(s: Spot, w: Sweep, p: Point) -> Effect
    ensures { result ≡ code.run_point s w p }
{
    let potential = Value::Real(p.potential);
    let current = Value::Real(p.current);
    if value::is_finite(potential) && value::is_finite(current) {
        return enter_loop(
            s,
            LoopSort::Sweep,
            Some((w.potential, Some((potential, TYPE_DA)))),
            Some((w.current, Some((current, TYPE_BA)))),
        );
    }
    effects::stop_by(s, Stop::NotFinite)
}

fn run_sweep(s: Spot, w: Sweep, close: usize, o: Offer) -> Effect
    ensures { result ≡ code.run_sweep s w close o }
{
    match o {
        Offer::Point(p) => run_point(s, w, p),
        Offer::Nothing | Offer::Float(_) | Offer::Done => leave_loop(s, LoopSort::Sweep, close),
    }
}

fn run_chosen(s: Spot, c: Chosen) -> Effect
    ensures { result ≡ code.run_chosen s c }
{
    match c {
        Chosen::Into(i) => effects::running(s.push().go_to(i)),
        Chosen::Beyond(i) => effects::running(s.go_to(i)),
        Chosen::Bad(f) => effects::fault_by(s, f),
    }
}

pub(crate) fn run_head(s: Spot, h: Head, looked: Looked, o: Offer) -> Effect
    ensures { result ≡ code.run_head s h looked.cells looked.chosen looked.around.close o }
{
    match h {
        Head::If(_) => run_chosen(s, looked.chosen),
        Head::Loop(q) => run_loop(s, tries::holds(q, looked.cells), looked.around.close),
        Head::Sweep(w) => run_sweep(s, w, looked.around.close, o),
    }
}

// Out of an if.
pub(crate) fn leave_if(s: Spot, to: usize) -> Effect
    ensures { result ≡ code.leave_if s to }
{
    effects::running(s.leave_to(spots::below(s.depth), to, false))
}

// An endloop leaves its measuring loop where an abort is pending or a skip is set.
fn run_endloop(s: Spot, sweep: bool) -> Effect
    ensures { result ≡ code.run_endloop s sweep }
{
    if sweep && (s.pending || s.skip) {
        return effects::saying(
            s.leave_to(spots::below(s.depth), spots::after(s.at), true),
            What::Leave(LoopSort::Sweep),
        );
    }
    effects::running(s.go_to(s.top()))
}

pub(crate) fn run_close(s: Spot, e: Close, sweep: bool) -> Effect
    ensures { result ≡ code.run_close s e sweep }
{
    match e {
        Close::EndIf => leave_if(s, spots::after(s.at)),
        Close::EndLoop => run_endloop(s, sweep),
    }
}

fn loop_sort(sweep: bool) -> LoopSort
    ensures { result ≡ code.loop_sort sweep }
{
    if sweep {
        LoopSort::Sweep
    } else {
        LoopSort::Loop
    }
}

// A breakloop leaves its loop, and the boxes inside it.
pub(crate) fn run_break(s: Spot, around: Around) -> Effect
    ensures { result ≡ code.run_break s around }
{
    effects::saying(
        s.leave_to(around.outside, around.close, around.sweep),
        What::Leave(loop_sort(around.sweep)),
    )
}
