// The checker's rules over a script table: 30, then 19 to 26.
#![tactic(auto)]

ghost use Rattle.std.specs.Prelude.{◌≡◌, length};
ghost use Rattle.table.specs.Shape.{items_of};
ghost use Rattle.rules.specs.Check.{begin, walk, line_of, verdict};
ghost use Rattle.rules.specs.Code.{kinds_in, Reached, outcome};
ghost use Rattle.rules.specs.Verdict.{number_of, meaning};

use boxes::Out;
use briefs::{Brief, Form};
use kinds::Sorted;
use sets::NameSet;
use table::{ITEMS, Table};

mod boxes;
mod briefs;
mod kinds;
mod refusals;
mod written;

// What a refusal says is broken: 19 to 26, and 30 for the table's shape.
#[derive(Clone, Copy)]
pub enum Refusal {
    Kinds,
    Unwritten,
    Mark,
    Ninth,
    Package,
    Tag,
    SameName,
    Nested,
    Shape,
}

// 01's number of a refusal.
impl From<Refusal> for u8 {
    ghost from_gives = { λ why r. r ≡ number_of why };

    fn from(why: Refusal) -> u8 {
        match why {
            Refusal::Kinds => 19,
            Refusal::Unwritten => 20,
            Refusal::Mark => 21,
            Refusal::Ninth => 22,
            Refusal::Package => 23,
            Refusal::Tag => 24,
            Refusal::SameName => 25,
            Refusal::Nested => 26,
            Refusal::Shape => 30,
        }
    }
}

// The script is a row of items that no box is around. The table is read in place, and the walk gets what it has to know
// of each item: handed to a function by value the table would be copied whole.
fn check_row(table: Table, kinds: Sorted) -> Result<Out, (Refusal, usize)>
    requires { Reached table }
    ensures { outcome result ≡ walk (kinds_in kinds) 0 begin (items_of table) }
{
    let mut briefs = [Brief {
        reads: NameSet::none(),
        writes: NameSet::none(),
        form: Form::Act,
    }; ITEMS];
    for i in 0..table.count {
        briefs[i] = briefs::brief_of(kinds, table.items[i].item);
    }
    boxes::check_block(
        &briefs[..table.count],
        0,
        written::outside(),
        written::start(),
    )
}

// The line of an item, or the ending line.
fn line_of(table: Table, at: usize) -> usize
    ensures { result ≡ line_of table at }
{
    if at < table.count {
        table::slot_at(table, at).line
    } else {
        table.end
    }
}

// The verdict on any table, beside its script's bytes.
#[tactic(auto, using(crate::proofs::Way::deciding))]
pub fn check(text: &[u8], table: Table) -> Result<(), (Refusal, usize)>
    ensures { meaning result ≡ verdict (length text.now) table }
{
    if !table::in_shape(text, table) {
        return Err((Refusal::Shape, 0));
    }
    match check_row(table, kinds::kinds_of(table)) {
        Ok(_) => Ok(()),
        Err((refusal, at)) => Err((refusal, line_of(table, at))),
    }
}
