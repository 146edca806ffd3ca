// The faults of an item where the run stands: what it reads, then its mark.
ghost use Rattle.std.specs.Prelude.{◌≡◌};
ghost use Rattle.effect.specs.Code as code;

use super::{Looked, Need, Spot};
use operands::Cells;
use state::{BOXES, Cell, Fault};
use table::{Act, Head, Item, Pack};
use value::Value;

fn act_need(a: Act) -> Need
    ensures { result ≡ code.act_need a }
{
    match a {
        Act::Copy(_, _) => Need::Any,
        Act::Calc(_, _, _) => Need::Alike,
        Act::Meas(_, _, _) | Act::Wait(_) | Act::SetE(_) => Need::Float,
        _ => Need::Nothing,
    }
}

fn pack_need(p: Pack) -> Need
    ensures { result ≡ code.pack_need p }
{
    match p {
        Pack::Add(_) => Need::Any,
        Pack::Start | Pack::End => Need::Nothing,
    }
}

fn head_need(h: Head) -> Need
    ensures { result ≡ code.head_need h }
{
    match h {
        Head::If(_) | Head::Loop(_) => Need::Alike,
        Head::Sweep(_) => Need::Four,
    }
}

// What an item reads where the run stands at it: an elseif reads nothing there.
fn need_of(x: Item) -> Need
    ensures { result ≡ code.need_of x }
{
    match x {
        Item::Act(a) => act_need(a),
        Item::Pack(p) => pack_need(p),
        Item::Open(h) => head_need(h),
        Item::Branch(_) | Item::Close(_) | Item::Break | Item::Tag => Need::Nothing,
    }
}

fn is_gone(c: Cell) -> bool
    ensures { result ≡ code.is_gone c }
{
    c.is_none()
}

fn is_whole(c: Cell) -> bool
    ensures { result ≡ code.is_whole c }
{
    matches!(c, Some((Value::Whole(_), _)))
}

fn is_real(c: Cell) -> bool
    ensures { result ≡ code.is_real c }
{
    matches!(c, Some((Value::Real(_), _)))
}

fn kinds_differ(a: Cell, b: Cell) -> bool
    ensures { result ≡ code.kinds_differ a b }
{
    (is_whole(a) && is_real(b)) || (is_real(a) && is_whole(b))
}

impl Need {
    // 60
    fn is_missing(self, k: Cells) -> bool
        ensures { result ≡ code.cells_missing self k }
    {
        match self {
            Need::Nothing => false,
            Need::Any | Need::Float => is_gone(k.a),
            Need::Alike => is_gone(k.a) || is_gone(k.b),
            Need::Four => is_gone(k.d) || is_gone(k.c) || is_gone(k.b) || is_gone(k.a),
        }
    }

    // 61
    fn is_wrong(self, k: Cells) -> bool
        ensures { result ≡ code.cells_wrong self k }
    {
        match self {
            Need::Nothing | Need::Any => false,
            Need::Alike => kinds_differ(k.a, k.b),
            Need::Float => is_whole(k.a),
            Need::Four => is_whole(k.d) || is_whole(k.c) || is_whole(k.b) || is_whole(k.a),
        }
    }

    // The fault of what a step reads.
    pub(crate) fn fault(self, k: Cells) -> Option<Fault>
        ensures { result ≡ code.need_fault self k }
    {
        read_fault(self.is_missing(k), self.is_wrong(k))
    }
}

// 63 of an opening mark.
fn ninth_box(s: Spot, h: Head) -> bool
    ensures { result ≡ code.ninth_box s h }
{
    match h {
        Head::If(_) => true,
        Head::Loop(_) | Head::Sweep(_) => !s.is_inside(),
    }
}

fn depth_fault(s: Spot, x: Item) -> bool
    ensures { result ≡ code.depth_fault' s x }
{
    if s.depth < BOXES {
        return false;
    }
    match x {
        Item::Open(h) => ninth_box(s, h),
        _ => false,
    }
}

fn read_fault(missing: bool, wrong: bool) -> Option<Fault>
    ensures { result ≡ code.read_fault missing wrong }
{
    if missing {
        return Some(Fault::Unwritten);
    }
    if wrong {
        return Some(Fault::Kind);
    }
    None
}

fn mark_fault(stray: bool, ninth: bool, order: bool) -> Option<Fault>
    ensures { result ≡ code.mark_fault stray ninth order }
{
    if stray {
        return Some(Fault::Box);
    }
    if ninth {
        return Some(Fault::Depth);
    }
    if order {
        return Some(Fault::Package);
    }
    None
}

// The first fault of the item at which the run stands.
pub(crate) fn fault_of(s: Spot, looked: Looked) -> Option<Fault>
    ensures { result ≡ code.fault_of s looked.item looked.cells looked.around.stray }
{
    let x = looked.item;
    let mark = mark_fault(
        looked.around.stray,
        depth_fault(s, x),
        table::breaks_order(x, s.packed),
    );
    need_of(x).fault(looked.cells).or(mark)
}
