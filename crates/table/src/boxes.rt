// The sorts of boxes; the package order.
ghost use Rattle.std.specs.Prelude.{◌≡◌};
ghost use Rattle.table.specs.Item.{is_loop, is_sweep};
ghost use Rattle.table.specs.ReadWrite.{breaks_order};

use super::{Item, Pack, Sort};

// A loop, measuring or not.
pub fn is_loop(sort: Sort) -> bool
    ensures { result ≡ is_loop sort }
{
    matches!(sort, Sort::Loop | Sort::Sweep)
}

// A measuring loop.
pub fn is_sweep(sort: Sort) -> bool
    ensures { result ≡ is_sweep sort }
{
    matches!(sort, Sort::Sweep)
}

// The package order, of which 23 and 64 speak.
pub fn breaks_order(item: Item, packed: bool) -> bool
    ensures { result ≡ breaks_order item packed }
{
    match item {
        Item::Act(_) => false,
        Item::Pack(Pack::Add(_) | Pack::End) => !packed,
        _ => packed,
    }
}
