// The loader: a script's text becomes a table of items, or is refused by a number and a line.
#![tactic(auto)]

ghost use Rattle.std.specs.Prelude.{◌≡◌};
ghost use Rattle.loader.specs.Code.{taken_of};
ghost use Rattle.loader.specs.Load.{empty_table, declares, taken_by, name_row};
ghost use Rattle.loader.specs.Load.{meaning, loaded};

use argument::Refusal;
use table::{Act, Item, Slot, Table};

const MOST_BYTES: usize = 8192;

const MOST_IN_LINE: usize = 127;

const MOST_ITEMS: usize = 128;

fn empty() -> Table
    ensures { result ≡ empty_table }
{
    let items = [Slot {
        item: Item::Act(Act::Var(0)),
        line: 0,
    }; 128];
    Table {
        items,
        count: 0,
        names: 0,
        end: 0,
    }
}

// Whether an item declares a name, as `var` alone does.
fn item_declares(item: Item) -> bool
    ensures { result ≡ declares item }
{
    matches!(item, Item::Act(Act::Var(_)))
}

// One line that is not the ending one, which stands from `at` up to the end of `upto`.
#[tactic(auto, unfolding(argument::specs::Refusal::number_of, line::specs::Line::meaning))]
fn take_line(
    count: usize,
    line: &[u8],
    upto: &[u8],
    at: usize,
    names: &[[u8; 16]],
) -> Result<Option<Item>, Refusal>
    ensures { taken_of result ≡ taken_by count names.now line.now upto.now at }
{
    if MOST_IN_LINE < line.len() {
        return Err(Refusal::LongLine);
    }
    if word::is_skipped(line) {
        return Ok(None);
    }
    if MOST_ITEMS <= count {
        return Err(Refusal::TooManyItems);
    }
    Ok(Some(line::judge_line(upto, at, names)?))
}

// The second word of a line as a row of the table of names.
#[tactic(auto, unfolding(crate::specs::Load::name_row))]
fn name_row(line: &[u8]) -> [u8; 16]
    ensures { result ≡ name_row line.now }
{
    let c = word::word_at(line, 0);
    let w = word::word_at(line, c.end);
    word::pad(word::part_of(line, w))
}

// A script in, its table out; or the number and line of the first refusal, within a line the lowest.
pub fn load(text: &[u8]) -> Result<Table, (Refusal, usize)>
    ensures { meaning result ≡ loaded text.now }
{
    let size = text.len();
    if MOST_BYTES < size {
        return Err((Refusal::TooLong, 0));
    }
    // The table stays where it is, and so do the names: copied line by line they would cost more than all the reading.
    let mut table = empty();
    let mut names = [[b' '; 16]; 32];
    let mut at: usize = 0;
    let mut number: usize = 1;
    // No walk over the lines alone: an item's text is a range of the whole script, so each line's place goes along.
    while at < size {
        let stop = text::next_byte(text, at, b'\n');
        if size <= stop {
            return Err((Refusal::NoEnd, number));
        }
        if stop == at {
            table.end = number;
            return Ok(table);
        }
        let line = &text[at..stop];
        let count = table.count;
        let n = table.names;
        let here = number;
        let taken = take_line(count, line, &text[0..stop], at, &names[..n]);
        at = stop + 1;
        number += 1;
        match taken {
            Err(refusal) => return Err((refusal, here)),
            Ok(Some(item)) => {
                table.items[count] = Slot { item, line: here };
                table.count = count + 1;
                if item_declares(item) {
                    let row = name_row(line);
                    names[n] = row;
                    table.names = n + 1;
                }
            }
            Ok(None) => {}
        }
    }
    Err((Refusal::NoEnd, number))
}
