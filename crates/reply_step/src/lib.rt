// What a line of a reply does: to what is open, to the count of rows, and to the reading.
#![tactic(auto)]

ghost use Rattle.std.specs.Prelude.{◌≡◌, get_or};
ghost use Rattle.reply_step.specs.Step.{innermost, may_open, closes};
ghost use Rattle.reply_step.specs.Meaning.{not_open, kinds, bare, Steps};
ghost use Rattle.reply_step.specs.Code.{end_in, open_in, close_in};

use reply_line::{Line, Refusal, RowKind};

// The most that may be open at once.
const MOST_OPEN: usize = 8;

// The kinds of what is open, innermost last, and how many rows there are. The array and its depth are fixed memory.
#[derive(Clone, Copy)]
pub struct Open {
    pub around: [RowKind; MOST_OPEN],
    pub depth: usize,
    pub rows: usize,
}

// Where a line leads: on, with what is open then; or to the end of the reply, with a code.
#[derive(Clone, Copy)]
pub enum Step {
    On(Open),
    Ends(u32),
}

// Before the first line: nothing is open, and there is the script's row.
pub fn nothing_open() -> Open
    ensures { result ≡ bare }
{
    Open {
        around: [RowKind::Script; MOST_OPEN],
        depth: 0,
        rows: 1,
    }
}

impl Open {
    // The kind of what is open at a place; past the array, the script's.
    fn kind_at(self, at: usize) -> RowKind
        ensures { result ≡ get_or self.around at not_open }
    {
        if at < MOST_OPEN {
            self.around[at]
        } else {
            RowKind::Script
        }
    }

    // The kind of the innermost that is open; the script's where nothing is.
    #[tactic(auto, using(crate::proofs::Loops::innermost_none, crate::proofs::Loops::innermost_top))]
    fn innermost(self) -> RowKind
        ensures { result ≡ innermost (kinds self) }
    {
        if self.depth == 0 {
            return RowKind::Script;
        }
        self.kind_at(self.depth - 1)
    }

    // Whether a mark may open here: a scan only directly inside a measuring loop, nothing inside a scan.
    #[tactic(auto, unfolding(crate::specs::Step::may_open))]
    fn may_open(self, kind: RowKind) -> bool
        ensures { result ≡ may_open kind (kinds self) }
    {
        let inside = self.innermost();
        if kind == RowKind::Scan {
            return inside == RowKind::Sweep;
        }
        inside != RowKind::Scan
    }

    // Whether a mark closes the innermost that is open.
    #[tactic(auto, using(crate::proofs::Loops::closes_none, crate::proofs::Loops::closes_top))]
    fn closes(self, kind: RowKind) -> bool
        ensures { result ≡ closes kind (kinds self) }
    {
        if self.depth == 0 {
            return false;
        }
        let inside = self.innermost();
        inside == kind
    }

    // An empty line ends the reply where nothing is open.
    fn end(self) -> Result<Step, Refusal>
        ensures { result ≡ end_in self }
    {
        if 1 <= self.depth {
            Err(Refusal::OutOfPlace)
        } else {
            Ok(Step::Ends(0))
        }
    }

    // An opening mark, with n rows to write.
    fn open(self, kind: RowKind, n: usize) -> Result<Step, Refusal>
        ensures { result ≡ open_in n kind self }
    {
        if !self.may_open(kind) {
            return Err(Refusal::OutOfPlace);
        }
        if MOST_OPEN <= self.depth {
            return Err(Refusal::NinthOpen);
        }
        if n <= self.rows {
            return Err(Refusal::ShortTable);
        }
        let mut inner = self;
        inner.around[self.depth] = kind;
        inner.depth += 1;
        inner.rows += 1;
        Ok(Step::On(inner))
    }

    // A closing mark.
    #[tactic(auto, using(crate::proofs::Loops::closes_some))]
    fn close(self, kind: RowKind) -> Result<Step, Refusal>
        ensures { result ≡ close_in kind self }
    {
        if self.closes(kind) {
            let mut outer = self;
            outer.depth -= 1;
            Ok(Step::On(outer))
        } else {
            Err(Refusal::OutOfPlace)
        }
    }
}

// What a line does, with n rows to write.
pub fn step_of(line: Line, st: Open, n: usize) -> Result<Step, Refusal>
    ensures { Steps n line st result }
{
    match line {
        Line::Quiet | Line::Package => Ok(Step::On(st)),
        Line::Empty => st.end(),
        Line::Opens(kind, _) => st.open(kind, n),
        Line::Closes(kind) => st.close(kind),
        Line::Error(code) => Ok(Step::Ends(code)),
        Line::Refused(why) => Err(why),
    }
}
