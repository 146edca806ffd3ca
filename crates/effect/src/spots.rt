// The spot anew: on to an item, with what a control says, into a box and out of it.
ghost use Rattle.std.specs.Prelude.{◌≡◌};
ghost use Rattle.effect.specs.Code as code;

use super::Spot;
use state::{BOXES, Control};
use table::ITEMS;

pub(crate) fn after(at: usize) -> usize
    ensures { result ≡ code.after at }
{
    if at < ITEMS { at + 1 } else { at }
}

pub(crate) fn below(d: usize) -> usize
    ensures { result ≡ code.below d }
{
    d.saturating_sub(1)
}

impl Spot {
    pub(crate) fn go_to(self, to: usize) -> Spot
        ensures { result ≡ code.go_to self to }
    {
        Spot { at: to, ..self }
    }

    pub(crate) fn go_on(self) -> Spot
        ensures { result ≡ code.go_on self }
    {
        self.go_to(after(self.at))
    }

    pub(crate) fn with_pending(self) -> Spot
        ensures { result ≡ code.with_pending self }
    {
        Spot {
            pending: true,
            ..self
        }
    }

    pub(crate) fn with_packed(self, packed: bool) -> Spot
        ensures { result ≡ code.with_packed self packed }
    {
        Spot { packed, ..self }
    }

    fn with_skip(self, skip: bool) -> Spot
        ensures { result ≡ code.with_skip self skip }
    {
        Spot { skip, ..self }
    }

    // The control, where sweeping says whether a measuring loop is open.
    pub(crate) fn take_control(self, c: Control, sweeping: bool) -> Spot
        ensures { result ≡ code.take_control self c sweeping }
    {
        match c {
            Control::None => self,
            Control::Z => self.with_pending(),
            Control::Y => self.with_skip(self.skip || sweeping),
        }
    }

    // The boxes inside the first d closed; at item i; the skip is dropped where a measuring loop is left.
    pub(crate) fn leave_to(self, d: usize, i: usize, sweep: bool) -> Spot
        ensures { result ≡ code.leave_to self d i sweep }
    {
        Spot {
            at: i,
            depth: d,
            skip: self.skip && !sweep,
            ..self
        }
    }

    // The box of the item at which the run stands opened.
    pub(crate) fn push(self) -> Spot
        ensures { result ≡ code.push self }
    {
        let mut t = self;
        if self.depth < BOXES {
            t.boxes[self.depth] = self.at;
            t.depth += 1;
        }
        t
    }

    // All boxes closed, at item i.
    pub(crate) fn clear(self, i: usize) -> Spot
        ensures { result ≡ code.clear self i }
    {
        Spot {
            at: i,
            depth: 0,
            pending: false,
            skip: false,
            ..self
        }
    }

    // The innermost open box.
    pub(crate) fn top(self) -> usize
        ensures { result ≡ code.top_of self }
    {
        let d = below(self.depth);
        if d < BOXES { self.boxes[d] } else { 0 }
    }

    // The box of the item at which the run stands is the innermost.
    pub(crate) fn is_inside(self) -> bool
        ensures { result ≡ code.is_inside self }
    {
        self.depth != 0 && self.top() == self.at
    }
}
