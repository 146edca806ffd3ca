// Which rules an item breaks where the checker stands: 19 to 26.
ghost use Rattle.std.specs.Prelude.{◌≡◌, not, ◌&&◌, ◌||◌, leb, eqb};
ghost use Rattle.table.specs.Item.{is_sweep};
ghost use Rattle.table.specs.ReadWrite.{lowest};
ghost use Rattle.sets.specs.Names.{outside, names_of};
ghost use Rattle.rules.specs.Code.{is_open, is_tag, sort_in, in_if, in_loop};
ghost use Rattle.rules.specs.Code.{holds_of, base_in, mark_in, order_in, rows_in, rows_at_end};
ghost use Rattle.rules.specs.Verdict.{found};

use super::briefs::{Form, Step};
use super::written::{Around, Held};
use super::{Refusal, written};
use sets::NameSet;
use table::Close;

const BOXES: usize = 8;

// Whether the innermost box is an if; below, a loop. One function that takes which of the two would say less.
fn in_if(a: Around) -> bool
    ensures { result ≡ in_if a }
{
    a.depth != 0 && !table::is_loop(a.sort)
}

fn in_loop(a: Around) -> bool
    ensures { result ≡ in_loop a }
{
    a.depth != 0 && table::is_loop(a.sort)
}

// What an item's reads are judged by: a branch condition by what held before its if.
fn base_of(a: Around, h: Held, form: Form) -> NameSet
    ensures { names_of result ≡ base_in a (holds_of h) form }
{
    if matches!(form, Form::Branch(_)) && in_if(a) {
        a.before
    } else {
        h.sure
    }
}

fn unwritten(a: Around, h: Held, reads: NameSet, form: Form) -> bool
    ensures { result ≡ outside (names_of reads) (base_in a (holds_of h) form) }
{
    reads.any_outside(base_of(a, h, form))
}

#[tactic(auto, unfolding(crate::specs::Code::mark_in))]
fn misplaced_mark(a: Around, h: Held, form: Form) -> bool
    ensures { result ≡ mark_in a (holds_of h) form }
{
    match form {
        Form::Branch(_) => !in_if(a) || h.else_seen,
        Form::Close(Close::EndIf) => !in_if(a),
        Form::Close(Close::EndLoop) => !in_loop(a),
        Form::Break => !a.looped,
        _ => false,
    }
}

pub(crate) fn is_open(form: Form) -> bool
    ensures { result ≡ is_open form }
{
    matches!(form, Form::Open(_) | Form::Twice)
}

fn ninth_box(depth: usize, form: Form) -> bool
    ensures { result ≡ (is_open form && leb 8 depth) }
{
    is_open(form) && BOXES <= depth
}

fn breaks_order(packed: bool, form: Form) -> bool
    ensures { result ≡ order_in packed form }
{
    match form {
        Form::Wrong | Form::Act => false,
        Form::Pack(Step::Add | Step::End) => !packed,
        _ => packed,
    }
}

fn misplaced_tag(depth: usize, tagged: bool, form: Form) -> bool
    ensures { result ≡ (is_tag form && (tagged || not (eqb depth 0))) }
{
    matches!(form, Form::Tag) && (tagged || depth != 0)
}

fn nested_sweep(swept: bool, form: Form) -> bool
    ensures { result ≡ (is_sweep (sort_in form) && swept) }
{
    table::is_sweep(written::sort_in(form)) && swept
}

// The lowest rule that the item breaks.
pub(crate) fn judge(a: Around, h: Held, reads: NameSet, form: Form) -> Option<Refusal>
    ensures { found result ≡ lowest (rows_in a (holds_of h) (names_of reads) form) }
{
    if matches!(form, Form::Wrong) {
        Some(Refusal::Kinds)
    } else if unwritten(a, h, reads, form) {
        Some(Refusal::Unwritten)
    } else if misplaced_mark(a, h, form) {
        Some(Refusal::Mark)
    } else if ninth_box(a.depth, form) {
        Some(Refusal::Ninth)
    } else if breaks_order(h.packed, form) {
        Some(Refusal::Package)
    } else if misplaced_tag(a.depth, h.tagged, form) {
        Some(Refusal::Tag)
    } else if matches!(form, Form::Twice) {
        Some(Refusal::SameName)
    } else if nested_sweep(a.swept, form) {
        Some(Refusal::Nested)
    } else {
        None
    }
}

pub(crate) fn judge_end(depth: usize, packed: bool) -> Option<Refusal>
    ensures { found result ≡ lowest (rows_at_end depth packed) }
{
    if depth != 0 {
        Some(Refusal::Mark)
    } else if packed {
        Some(Refusal::Package)
    } else {
        None
    }
}
