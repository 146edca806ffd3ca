// The pass over a row of roles: the marks of the items, found with a row of the boxes that are open.
ghost use Rattle.std.specs.Prelude.{◌≡◌, ◌<◌};
ghost use Rattle.table.specs.Item.{sort_of};
ghost use Rattle.mates.specs.Code.{narrowed, role_of, fits_role, fits_in, depth_past, owner_of, sort_in, marks_of};

use super::{Mark, Marks, NO_MARK, Open, Role};
use table::{Close, Head, ITEMS, Item, Sort};

// An item of this role is a branch or closing mark of a box of this sort.
fn fits_role(role: Role, sort: Sort) -> bool
    ensures { result ≡ fits_role role sort }
{
    match role {
        Role::Tag | Role::Plain | Role::Open(_) => false,
        Role::Branch | Role::Close(Close::EndIf) => !table::is_loop(sort),
        Role::Close(Close::EndLoop) => table::is_loop(sort),
    }
}

// Whether an item of this role belongs to the innermost of d open boxes.
fn fits_top(role: Role, d: usize, innermost: Open) -> bool
    ensures { result ≡ fits_in role d innermost }
{
    d != 0 && fits_role(role, innermost.sort)
}

// How many boxes are open past an item, of d before it; fits says whether it belongs to the innermost.
fn depth_past(role: Role, d: usize, fits: bool) -> usize
    requires { d < 128 }
    ensures { result ≡ depth_past role d fits }
{
    match role {
        Role::Open(_) => d + 1,
        Role::Close(_) => { if fits { d.saturating_sub(1) } else { d } }
        Role::Tag | Role::Plain | Role::Branch => d,
    }
}

// A place in a byte.
fn narrow(at: usize) -> Option<u8>
    ensures { result ≡ narrowed at }
{
    u8::try_from(at).ok()
}

// The sort of the box that an opening mark opens.
fn sort_of(head: Head) -> Sort
    ensures { result ≡ sort_of head }
{
    match head {
        Head::If(_) => Sort::If,
        Head::Loop(_) => Sort::Loop,
        Head::Sweep(_) => Sort::Sweep,
    }
}

// What an item is to the boxes.
pub fn role_of(x: Item) -> Role
    ensures { result ≡ role_of x }
{
    match x {
        Item::Act(_) | Item::Pack(_) | Item::Break => Role::Plain,
        Item::Open(h) => Role::Open(sort_of(h)),
        Item::Branch(_) => Role::Branch,
        Item::Close(e) => Role::Close(e),
        Item::Tag => Role::Tag,
    }
}

// The place of the box that an item belongs to.
fn owner_of(fits: bool, innermost: Open) -> Option<u8>
    ensures { result ≡ owner_of fits innermost }
{
    if fits { narrow(innermost.at) } else { None }
}

// The sort of the box that an item of this role opens; of any other nothing is asked.
fn sort_in(role: Role) -> Sort
    ensures { result ≡ sort_in role }
{
    match role {
        Role::Open(sort) => sort,
        Role::Tag | Role::Plain | Role::Branch | Role::Close(_) => Sort::If,
    }
}

// The marks of the items whose roles are the first n, in one pass; past the last item a tag's.
pub fn marks_of(roles: [Role; ITEMS], n: usize) -> Marks
    ensures { result ≡ marks_of roles n }
{
    let mut boxes = [Open {
        at: 0,
        sort: Sort::If,
    }; ITEMS];
    let mut depth: usize = 0;
    let mut at = [NO_MARK; ITEMS];
    for j in 0..n.min(ITEMS) {
        let role = roles[j];
        let innermost = boxes[depth.saturating_sub(1)];
        let fits = fits_top(role, depth, innermost);
        at[j] = Mark {
            opening: owner_of(fits, innermost),
            role,
        };
        boxes[depth] = Open {
            at: j,
            sort: sort_in(role),
        };
        depth = depth_past(role, depth, fits);
    }
    Marks { at }
}
