// rows: reads a reply from standard input into 1,024 rows, and writes the listing. Where input or output fails, it says
// so on standard error and stops.
#![tactic(auto)]

ghost use Rattle.std.specs.Prelude.{◌≡◌, length};

use reply::{Row, RowTable};
use std::io;

// One byte more than the longest reply, so that a longer one is known.
fn buffer() -> [u8; 65537]
    ensures { 65537 ≡ length result }
{
    [0; 65537]
}

// A code and a mark have four upper-case digits.
fn four(code: u32) -> u16 {
    (code & 0xFFFF) as u16
}

fn put_row(out: &impl Print, at: usize, row: &Row) -> io::Result<()> {
    let letter = char::from(u8::from(row.kind));
    println!(out; "row={at}\nkind={letter}\nmark={:04X}", four(row.mark))?;
    println!(out; "parent={}\npackages={}", row.parent, row.packages)
}

fn put_table(out: &impl Print, table: &RowTable) -> io::Result<()> {
    match table.answer {
        Ok(read) => {
            println!(out; "result=0\ncode={:04X}", four(read.code))?;
            println!(out; "used={}\nrows={}", read.used, read.rows)?;
            for (at, row) in table.rows.iter().take(read.rows).enumerate() {
                put_row(out, at, row)?;
            }
            Ok(())
        }
        Err((why, line)) => println!(out; "result={}\nline={line}", u8::from(why)),
    }
}

fn list(out: &impl Print, reply: &[u8]) -> io::Result<()> {
    put_table(out, &reply::read_table(reply))
}

fn say(err: &impl Eprint, text: &str) {
    let _ = err.eprintln(text);
}

fn main(rt: HostRuntime) {
    let mut bytes = buffer();
    match stream::read_whole(&mut rt.stdin(), &mut bytes) {
        Ok(n) => {
            if stream::speaks_of(list(&rt, &bytes[..n])) {
                say(&rt, "rows: standard output could not be written");
            }
        }
        Err(_) => say(&rt, "rows: standard input could not be read"),
    }
}
