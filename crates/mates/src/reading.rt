// What the marks say: where a box opens, which marks belong to it, where it closes, where a tag stands.
ghost use Rattle.std.specs.Prelude.{◌≡◌, get_or};
ghost use Rattle.table.specs.Item.{is_loop, is_sweep};
ghost use Rattle.mates.specs.Mates.{behind};
ghost use Rattle.mates.specs.Code.{no_mark, always, opens_at, belongs_with, belongs_in, closes_with, close_in, tag_in};

use super::{Mark, Marks, NO_MARK, Role};
use table::{ITEMS, Sort};

fn mark_at(marks: &Marks, p: usize) -> Mark
    ensures { result ≡ get_or marks.now.at p no_mark }
{
    marks.at.get(p).copied().unwrap_or(NO_MARK)
}

// Whether a measuring loop opens at an item.
#[tactic(auto, unfolding(crate::specs::Code::opens_at))]
pub fn sweep_at(marks: &Marks, p: usize) -> bool
    ensures { result ≡ opens_at is_sweep marks.now.at p }
{
    matches!(mark_at(marks, p).role, Role::Open(Sort::Sweep))
}

// Whether a loop opens at an item, measuring or not.
#[tactic(auto, unfolding(crate::specs::Code::opens_at))]
pub fn loop_at(marks: &Marks, p: usize) -> bool
    ensures { result ≡ opens_at is_loop marks.now.at p }
{
    matches!(mark_at(marks, p).role, Role::Open(Sort::Loop | Sort::Sweep))
}

// Whether a box opens at an item.
#[tactic(auto, unfolding(crate::specs::Code::opens_at))]
pub fn open_at(marks: &Marks, p: usize) -> bool
    ensures { result ≡ opens_at always marks.now.at p }
{
    matches!(mark_at(marks, p).role, Role::Open(_))
}

// A mark belongs to the box that opens at p.
fn belongs_with(mark: Mark, p: usize) -> bool
    ensures { result ≡ belongs_with mark p }
{
    match mark.opening {
        Some(opening) => opening as usize == p,
        None => false,
    }
}

// The mark at j belongs to the box that opens at p.
#[tactic(auto, unfolding(crate::specs::Code::belongs_in))]
pub fn belongs_to(marks: &Marks, j: usize, p: usize) -> bool
    ensures { result ≡ belongs_in marks.now.at j p }
{
    belongs_with(mark_at(marks, j), p)
}

fn closes_with(mark: Mark, p: usize) -> bool
    ensures { result ≡ closes_with mark p }
{
    matches!(mark.role, Role::Close(_)) && belongs_with(mark, p)
}

// Past the closing mark of the box that opens at p.
#[tactic(auto, using(crate::proofs::Placed::closing), unfolding(crate::specs::Code::closes_in))]
pub fn close_of(marks: &Marks, p: usize) -> Option<usize>
    ensures { result ≡ behind (close_in marks.now.at p) }
{
    for j in p..ITEMS {
        if closes_with(marks.at[j], p) {
            return Some(j + 1);
        }
    }
    None
}

// The place of the first tag among the first n marks, or n; past the marks every place has a tag's.
#[tactic(auto, using(crate::proofs::Placed::tagging))]
pub fn first_tag(marks: &Marks, n: usize) -> usize
    ensures { result ≡ tag_in marks.now.at n }
{
    let end = n.min(ITEMS);
    for j in 0..end {
        if let Role::Tag = marks.at[j].role {
            return j;
        }
    }
    end
}
