// A script's table and its items as the text of cases has them, read and put.
#![tactic(auto)]

use case_text::put::Literal;
use case_text::read::{Words, before, behind, find, hex4, number, number_of, past, value};
use std::io::Write;
use std::{fmt, io};
use table::{
    Act, Branch, Close, Condition, Head, ITEMS, Item, Operand, Pack, Slot, Sweep, Table, Text,
};
use value::{Comparison, Operation};

// What stands where no line says an item, and no table has it there.
const NO_SLOT: Slot = Slot {
    item: Item::Break,
    line: 0,
};

// ---- read

fn name(word: &[u8]) -> usize {
    number(past(word, 1))
}

fn letters(word: &[u8]) -> u16 {
    hex4(past(word, 1))
}

fn mode(word: &[u8]) -> u8 {
    (number(past(word, 1)) & 0xFF) as u8
}

fn operand(word: &[u8]) -> Operand {
    match word {
        [b'v', ..] => Operand::Name(name(word)),
        _ => Operand::Literal(value(word)),
    }
}

fn text_of(word: &[u8]) -> Text {
    let start = past(word, 1);
    Text {
        start: number(start),
        end: number(behind(start, b':')),
    }
}

// One of the six with a space behind it; what is none is read as `o>=`.
fn comparison(word: &[u8]) -> Comparison {
    match word {
        [b'o', b'=', b'=', b' ', ..] => Comparison::Equal,
        [b'o', b'!', b'=', b' ', ..] => Comparison::Unequal,
        [b'o', b'<', b' ', ..] => Comparison::Less,
        [b'o', b'<', b'=', b' ', ..] => Comparison::AtMost,
        [b'o', b'>', b' ', ..] => Comparison::Greater,
        _ => Comparison::AtLeast,
    }
}

fn condition(words: &mut Words) -> Condition {
    Condition {
        left: operand(words.next()),
        by: comparison(words.next()),
        right: operand(words.next()),
    }
}

fn sweep(words: &mut Words) -> Sweep {
    Sweep {
        potential: name(words.next()),
        current: name(words.next()),
        begin: operand(words.next()),
        end: operand(words.next()),
        step: operand(words.next()),
        rate: operand(words.next()),
    }
}

fn calculation(by: Operation, words: &mut Words) -> Act {
    Act::Calc(by, name(words.next()), operand(words.next()))
}

// A command that is none is read as `on_finished:`.
fn item(words: &mut Words) -> Item {
    match before(words.next(), b' ') {
        b"var" => Item::Act(Act::Var(name(words.next()))),
        b"store_var" => Item::Act(Act::Store(
            name(words.next()),
            value(words.next()),
            letters(words.next()),
        )),
        b"copy_var" => Item::Act(Act::Copy(name(words.next()), name(words.next()))),
        b"add_var" => Item::Act(calculation(Operation::Add, words)),
        b"sub_var" => Item::Act(calculation(Operation::Sub, words)),
        b"mul_var" => Item::Act(calculation(Operation::Mul, words)),
        b"div_var" => Item::Act(calculation(Operation::Div, words)),
        b"meas" => Item::Act(Act::Meas(
            operand(words.next()),
            name(words.next()),
            letters(words.next()),
        )),
        b"timer_get" => Item::Act(Act::TimerGet(name(words.next()))),
        b"send_string" => Item::Act(Act::SendString(text_of(words.next()))),
        b"wait" => Item::Act(Act::Wait(operand(words.next()))),
        b"set_e" => Item::Act(Act::SetE(operand(words.next()))),
        b"set_pgstat_mode" => Item::Act(Act::SetMode(mode(words.next()))),
        b"timer_start" => Item::Act(Act::TimerStart),
        b"cell_on" => Item::Act(Act::CellOn),
        b"cell_off" => Item::Act(Act::CellOff),
        b"abort" => Item::Act(Act::Abort),
        b"pck_start" => Item::Pack(Pack::Start),
        b"pck_add" => Item::Pack(Pack::Add(name(words.next()))),
        b"pck_end" => Item::Pack(Pack::End),
        b"if" => Item::Open(Head::If(condition(words))),
        b"loop" => Item::Open(Head::Loop(condition(words))),
        b"meas_loop_lsv" => Item::Open(Head::Sweep(sweep(words))),
        b"elseif" => Item::Branch(Branch::ElseIf(condition(words))),
        b"else" => Item::Branch(Branch::Else),
        b"endif" => Item::Close(Close::EndIf),
        b"endloop" => Item::Close(Close::EndLoop),
        b"breakloop" => Item::Break,
        _ => Item::Tag,
    }
}

// An item: the number of its line in the script, its command and its arguments. Any line but `item=` is read as none.
fn slot(line: &[u8]) -> Slot {
    let Some(said) = line.strip_prefix(b"item=".as_slice()) else {
        return NO_SLOT;
    };
    let mut words = Words(said);
    Slot {
        line: number(words.next()),
        item: item(&mut words),
    }
}

// The items stand in the lines behind `items=`.
pub fn table_at(case: &[u8]) -> Table {
    let mut items = [NO_SLOT; ITEMS];
    let head = find(case, b"items=");
    let lines = behind(head, b'\n').split(|byte| *byte == b'\n');
    for (slot_here, line) in items.iter_mut().zip(lines) {
        *slot_here = slot(line);
    }
    Table {
        items,
        count: number(head),
        names: number_of(case, b"names="),
        end: number_of(case, b"end="),
    }
}

// ---- put

// What is put as the text of cases has it.
#[derive(Clone, Copy)]
struct Shown<T>(T);

impl fmt::Display for Shown<Operand> {
    fn fmt<W: fmt::Write>(&self, f: &mut fmt::Formatter<W>) -> fmt::Result {
        match self.0 {
            Operand::Name(n) => write!(f, "v{n}"),
            Operand::Literal(value) => write!(f, "{}", Literal(value)),
        }
    }
}

impl fmt::Display for Shown<Comparison> {
    fn fmt<W: fmt::Write>(&self, f: &mut fmt::Formatter<W>) -> fmt::Result {
        match self.0 {
            Comparison::Equal => write!(f, "o=="),
            Comparison::Unequal => write!(f, "o!="),
            Comparison::Less => write!(f, "o<"),
            Comparison::AtMost => write!(f, "o<="),
            Comparison::Greater => write!(f, "o>"),
            Comparison::AtLeast => write!(f, "o>="),
        }
    }
}

impl fmt::Display for Shown<Condition> {
    fn fmt<W: fmt::Write>(&self, f: &mut fmt::Formatter<W>) -> fmt::Result {
        let Condition { left, by, right } = self.0;
        write!(f, "{} {} {}", Shown(left), Shown(by), Shown(right))
    }
}

impl fmt::Display for Shown<Sweep> {
    fn fmt<W: fmt::Write>(&self, f: &mut fmt::Formatter<W>) -> fmt::Result {
        let sweep = self.0;
        write!(f, "v{} v{}", sweep.potential, sweep.current)?;
        write!(f, " {} {}", Shown(sweep.begin), Shown(sweep.end))?;
        write!(f, " {} {}", Shown(sweep.step), Shown(sweep.rate))
    }
}

impl fmt::Display for Shown<Operation> {
    fn fmt<W: fmt::Write>(&self, f: &mut fmt::Formatter<W>) -> fmt::Result {
        match self.0 {
            Operation::Add => write!(f, "add_var"),
            Operation::Sub => write!(f, "sub_var"),
            Operation::Mul => write!(f, "mul_var"),
            Operation::Div => write!(f, "div_var"),
        }
    }
}

impl fmt::Display for Shown<Text> {
    fn fmt<W: fmt::Write>(&self, f: &mut fmt::Formatter<W>) -> fmt::Result {
        write!(f, "{}:{}", self.0.start, self.0.end)
    }
}

impl fmt::Display for Shown<Act> {
    fn fmt<W: fmt::Write>(&self, f: &mut fmt::Formatter<W>) -> fmt::Result {
        match self.0 {
            Act::Var(n) => write!(f, "var v{n}"),
            Act::Store(n, value, letters) => {
                write!(f, "store_var v{n} {} t{letters:04X}", Literal(value))
            }
            Act::Copy(from, to) => write!(f, "copy_var v{from} v{to}"),
            Act::Calc(by, n, x) => write!(f, "{} v{n} {}", Shown(by), Shown(x)),
            Act::Meas(x, n, letters) => write!(f, "meas {} v{n} t{letters:04X}", Shown(x)),
            Act::TimerGet(n) => write!(f, "timer_get v{n}"),
            Act::SendString(text) => write!(f, "send_string s{}", Shown(text)),
            Act::Wait(x) => write!(f, "wait {}", Shown(x)),
            Act::SetE(x) => write!(f, "set_e {}", Shown(x)),
            Act::SetMode(mode) => write!(f, "set_pgstat_mode n{mode}"),
            Act::TimerStart => write!(f, "timer_start"),
            Act::CellOn => write!(f, "cell_on"),
            Act::CellOff => write!(f, "cell_off"),
            Act::Abort => write!(f, "abort"),
        }
    }
}

impl fmt::Display for Shown<Item> {
    fn fmt<W: fmt::Write>(&self, f: &mut fmt::Formatter<W>) -> fmt::Result {
        match self.0 {
            Item::Act(act) => write!(f, "{}", Shown(act)),
            Item::Pack(Pack::Start) => write!(f, "pck_start"),
            Item::Pack(Pack::Add(n)) => write!(f, "pck_add v{n}"),
            Item::Pack(Pack::End) => write!(f, "pck_end"),
            Item::Open(Head::If(test)) => write!(f, "if {}", Shown(test)),
            Item::Open(Head::Loop(test)) => write!(f, "loop {}", Shown(test)),
            Item::Open(Head::Sweep(sweep)) => write!(f, "meas_loop_lsv {}", Shown(sweep)),
            Item::Branch(Branch::ElseIf(test)) => write!(f, "elseif {}", Shown(test)),
            Item::Branch(Branch::Else) => write!(f, "else"),
            Item::Close(Close::EndIf) => write!(f, "endif"),
            Item::Close(Close::EndLoop) => write!(f, "endloop"),
            Item::Break => write!(f, "breakloop"),
            Item::Tag => write!(f, "on_finished:"),
        }
    }
}

pub fn put_table<W: Write>(out: &mut W, table: &Table) -> io::Result<()> {
    write!(out, "names={}\nend={}\n", table.names, table.end)?;
    writeln!(out, "items={}", table.count)?;
    for slot in table.items.iter().take(table.count) {
        writeln!(out, "item={} {}", slot.line, Shown(slot.item))?;
    }
    Ok(())
}
