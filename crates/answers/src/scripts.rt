// The loader and the checker.
use case_text::put::put_refusal;
use case_text::read::{bytes_of, first, number_of};
use script_text::{put_table, table_at};
use std::io;
use std::io::Write;
use table::{Act, Item, Slot, Table};

pub const MOST_SCRIPT: usize = 8193;

// The longest script of which only the length matters.
pub const MOST_LENGTH: usize = 65536;

fn put_verdict<W: Write>(
    out: &mut W,
    verdict: Result<(), (rules::Refusal, usize)>,
) -> io::Result<()> {
    match verdict {
        Ok(()) => writeln!(out, "result=0"),
        Err((why, line)) => put_refusal(out, u8::from(why), line),
    }
}

// An empty place of a table declares name 0 on line 0.
fn is_empty(slot: &Slot) -> bool {
    slot.line == 0 && matches!(slot.item, Item::Act(Act::Var(0)))
}

// How many of the places past the items hold something.
fn spare(table: &Table) -> usize {
    table
        .items
        .iter()
        .skip(table.count)
        .filter(|slot| !is_empty(slot))
        .count()
}

// Behind the answer, how many places past the items hold something; a refused text has no table.
pub fn load<W: Write>(case: &[u8], out: &mut W) -> io::Result<()> {
    let mut bytes = [0u8; MOST_SCRIPT];
    match loader::load(bytes_of(case, b"script=", &mut bytes)) {
        Ok(table) => {
            writeln!(out, "result=0")?;
            put_table(out, &table)?;
            writeln!(out, "spare={}", spare(&table))
        }
        Err((why, line)) => {
            put_refusal(out, u8::from(why), line)?;
            writeln!(out, "spare=0")
        }
    }
}

pub fn check<W: Write>(case: &[u8], out: &mut W) -> io::Result<()> {
    let mut bytes = [0u8; MOST_SCRIPT];
    let text = bytes_of(case, b"script=", &mut bytes);
    match loader::load(text) {
        Ok(table) => put_verdict(out, rules::check(text, table)),
        Err((why, line)) => put_refusal(out, u8::from(why), line),
    }
}

// Of a script beside its table only the length matters.
pub fn check_table<W: Write>(case: &[u8], out: &mut W) -> io::Result<()> {
    let bytes = [0u8; MOST_LENGTH];
    let text = first(&bytes, number_of(case, b"length="));
    put_verdict(out, rules::check(text, table_at(case)))
}

// A table, read and put again.
pub fn table<W: Write>(case: &[u8], out: &mut W) -> io::Result<()> {
    put_table(out, &table_at(case))
}
