// Runs: step by step, at one asking, and of an accepted script. Behind each answer, how many places past a count hold
// something.
use crate::scripts::{MOST_LENGTH, MOST_SCRIPT};
use case_text::put::put_refusal;
use case_text::read::{behind, bytes_of, find, first, number, number_of};
use course::Ran;
use run_text::runs::{put_ran, put_step, state_at, steps_at, told_by};
use run_text::spare;
use script_text::table_at;
use state::State;
use std::io;
use std::io::Write;
use table::Table;

// One step after the other, by the lines behind `steps=`.
fn steps<W: Write>(
    case: &[u8],
    text: &[u8],
    table: Table,
    fresh: State,
    out: &mut W,
) -> io::Result<()> {
    let head = find(case, b"steps=");
    let mut rest = behind(head, b'\n');
    let mut m = fresh;
    let mut spare: usize = 0;
    for k in 0..number(head) {
        let told = told_by(rest);
        rest = behind(rest, b'\n');
        let stepped = machine::step(text, table, m, told.control, told.offer);
        m = stepped.state;
        put_step(out, k + 1, &stepped)?;
        spare = spare.wrapping_add(spare::in_step(&stepped));
    }
    writeln!(out, "spare={spare}")
}

pub fn run<W: Write>(case: &[u8], out: &mut W) -> io::Result<()> {
    let mut bytes = [0u8; MOST_SCRIPT];
    let text = bytes_of(case, b"script=", &mut bytes);
    match loader::load(text) {
        Ok(table) => steps(case, text, table, state::fresh(), out),
        Err((why, line)) => put_refusal(out, u8::from(why), line),
    }
}

// Of a script beside its table only the length matters.
pub fn run_table<W: Write>(case: &[u8], out: &mut W) -> io::Result<()> {
    let bytes = [0u8; MOST_LENGTH];
    let text = first(&bytes, number_of(case, b"length="));
    steps(case, text, table_at(case), state_at(case), out)
}

fn put_all<W: Write>(out: &mut W, ran: &Ran) -> io::Result<()> {
    put_ran(out, ran)?;
    writeln!(out, "spare={}", spare::in_run(ran))
}

pub fn run_within<W: Write>(case: &[u8], out: &mut W) -> io::Result<()> {
    let bytes = [0u8; MOST_LENGTH];
    let text = first(&bytes, number_of(case, b"length="));
    let budget = number_of(case, b"budget=");
    let ran = course::run(text, table_at(case), state_at(case), steps_at(case), budget);
    put_all(out, &ran)
}

pub fn run_safe<W: Write>(case: &[u8], out: &mut W) -> io::Result<()> {
    let mut bytes = [0u8; MOST_SCRIPT];
    let text = bytes_of(case, b"script=", &mut bytes);
    match safety::run(text, steps_at(case)) {
        Ok(ran) => put_all(out, &ran),
        Err((why, line)) => put_refusal(out, u8::from(why), line),
    }
}
