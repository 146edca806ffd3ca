// Whether a table is in shape: at most 128 items and 32 names, its names, literals and texts as they may be.
ghost use Rattle.std.specs.Prelude.{◌≡◌, [], ◌∷◌, length};
ghost use Rattle.std.specs.List.{list_all};
ghost use Rattle.table.specs.Code.{all_reads, all_writes};
ghost use Rattle.table.specs.Shape.{slot_at, operand_ok, reads_ok, writes_ok, inside, own_ok, item_ok, in_shape};

use super::read_write::{reads_of, writes_of};
use super::{Act, ITEMS, Item, NAMES, Operand, Read, Reads, Slot, Table, Text, Write, Writes};

const NO_SLOT: Slot = Slot {
    item: Item::Act(Act::Var(0)),
    line: 0,
};

// The slot at a place, and an empty one past the last.
pub fn slot_at(table: Table, i: usize) -> Slot
    ensures { result ≡ slot_at table i }
{
    table.items.get(i).copied().unwrap_or(NO_SLOT)
}

fn operand_ok(names: usize, x: Operand) -> bool
    ensures { result ≡ operand_ok names x }
{
    match x {
        Operand::Name(n) => n < names,
        Operand::Literal(l) => value::is_finite(l),
    }
}

fn one_read_ok(names: usize, read: Read) -> bool
    ensures { result ≡ reads_ok names (read ∷ []) }
{
    match read {
        Read::Any(x) | Read::Float(x) => operand_ok(names, x),
        Read::Alike(x, y) => operand_ok(names, x) && operand_ok(names, y),
    }
}

fn reads_ok(names: usize, reads: Reads) -> bool
    ensures { result ≡ reads_ok names (all_reads reads) }
{
    match reads {
        Reads::Nothing => true,
        Reads::One(w) => one_read_ok(names, w),
        Reads::FourFloats(a, b, c, d) => {
            operand_ok(names, d)
                && operand_ok(names, c)
                && operand_ok(names, b)
                && operand_ok(names, a)
        }
    }
}

fn one_write_ok(names: usize, write: Write) -> bool
    ensures { result ≡ writes_ok names (write ∷ []) }
{
    match write {
        Write::Like(n, x) => n < names && operand_ok(names, x),
        Write::Float(n) => n < names,
    }
}

fn writes_ok(names: usize, writes: Writes) -> bool
    ensures { result ≡ writes_ok names (all_writes writes) }
{
    match writes {
        Writes::Nothing => true,
        Writes::One(g) => one_write_ok(names, g),
        Writes::TwoFloats(a, b) => b < names && a < names,
    }
}

fn is_inside(text: Text, size: usize) -> bool
    ensures { result ≡ inside text size }
{
    text.start <= text.end && text.end <= size
}

// Beside the names and literals that the item reads and writes. The count of names and the size of the script are two
// numbers of the caller's: a struct of both would be made at each call, and would say no more.
fn own_ok(names: usize, size: usize, item: Item) -> bool
    ensures { result ≡ own_ok names size item }
{
    match item {
        Item::Act(Act::Var(v)) => v < names,
        Item::Act(Act::SendString(t)) => is_inside(t, size),
        _ => true,
    }
}

// Whether an item is in shape: its names are below the count, its texts inside the script, its literals finite.
pub fn item_ok(names: usize, size: usize, item: Item) -> bool
    ensures { result ≡ item_ok names size item }
{
    own_ok(names, size, item)
        && reads_ok(names, reads_of(item))
        && writes_ok(names, writes_of(item))
}

fn slots_ok(names: usize, size: usize, slots: &[Slot]) -> bool
    ensures { result ≡ list_all (λ slot. item_ok names size slot.item) slots.now }
{
    slots.iter().all(|slot| item_ok(names, size, slot.item))
}

// Whether the table is in shape beside its script's bytes.
#[tactic(auto, using(crate::proofs::Judged::judging))]
pub fn in_shape(text: &[u8], table: Table) -> bool
    ensures { result ≡ in_shape (length text.now) table }
{
    if ITEMS < table.count || NAMES < table.names {
        return false;
    }
    slots_ok(table.names, text.len(), &table.items[..table.count])
}
