// A box holds a row of items, and an item may itself be a box.
ghost use Rattle.std.specs.Prelude.{◌≡◌, ◌≤◌, ◌<◌, length};
ghost use Rattle.rules.specs.Code.{is_close, left_by, back_by, Went, Took};

use super::briefs::{Brief, Form};
use super::written::{Around, Held};
use super::{Refusal, refusals, written};
use sets::NameSet;

// Past an item: where, whether the item closed the row's box, and what holds.
#[derive(Clone, Copy)]
pub struct Walk {
    pub at: usize,
    pub closed: bool,
    pub held: Held,
}

// Out of a row: where, and what holds.
#[derive(Clone, Copy)]
pub struct Out {
    pub at: usize,
    pub sure: NameSet,
    pub packed: bool,
    pub tagged: bool,
}

fn is_close(form: Form) -> bool
    ensures { result ≡ is_close form }
{
    matches!(form, Form::Close(_))
}

// Back in the row around a box.
fn back(out: Out, h: Held) -> Walk
    ensures { result ≡ back_by out h }
{
    Walk {
        at: out.at,
        closed: false,
        held: Held {
            sure: out.sure,
            packed: out.packed,
            tagged: out.tagged,
            ..h
        },
    }
}

fn leave(walk: Walk) -> Out
    ensures { result ≡ left_by walk }
{
    Out {
        at: walk.at,
        sure: walk.held.sure,
        packed: walk.held.packed,
        tagged: walk.held.tagged,
    }
}

// An item, and where it opens a box, what is in the box up to its closing mark. A refusal comes with the item's place.
#[cycle(check_block_check_item)]
fn check_item(briefs: &[Brief], at: usize, a: Around, h: Held) -> Result<Walk, (Refusal, usize)>
    requires { at < length briefs.now }
    ensures { Took briefs.now at a h result }
{
    let brief = briefs[at];
    if let Some(refusal) = refusals::judge(a, h, brief.reads, brief.form) {
        return Err((refusal, at));
    }
    if refusals::is_open(brief.form) {
        let out = check_block(
            briefs,
            at + 1,
            written::deeper(a, h, brief.form),
            written::enter(h, brief.writes),
        )?;
        return Ok(back(out, h));
    }
    Ok(Walk {
        at: at + 1,
        closed: is_close(brief.form),
        held: written::after_item(a, h, brief.writes, brief.form),
    })
}

// A row of items, its branches among them, up to and with the closing mark of the box around it.
#[cycle(check_block_check_item)]
pub(crate) fn check_block(
    briefs: &[Brief],
    from: usize,
    a: Around,
    h: Held,
) -> Result<Out, (Refusal, usize)>
    requires { from ≤ length briefs.now }
    ensures { Went briefs.now from a h result }
{
    let mut at = from;
    let mut held = h;
    // The place moves past whole boxes, so this is no loop over the items.
    while at < briefs.len() {
        let walk = check_item(briefs, at, a, held)?;
        if walk.closed {
            return Ok(leave(walk));
        }
        at = walk.at;
        held = walk.held;
    }
    match refusals::judge_end(a.depth, held.packed) {
        Some(refusal) => Err((refusal, at)),
        None => Ok(Out {
            at,
            sure: held.sure,
            packed: held.packed,
            tagged: held.tagged,
        }),
    }
}
