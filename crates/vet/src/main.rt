// vet: judges a script from standard input. It writes `result=0`, or `result=` and `line=` with the refusal's number
// and line. Where input or output fails, it says so on standard error and stops.
#![tactic(auto)]

ghost use Rattle.std.specs.Prelude.{◌≡◌, length};

use std::io;

fn judge(out: &impl Print, text: &[u8]) -> io::Result<()> {
    match vetting::vet(text) {
        Ok(()) => println!(out; "result=0"),
        Err((why, line)) => println!(out; "result={}\nline={line}", u8::from(why)),
    }
}

// One byte more than the longest script, so that a longer one is known.
fn buffer() -> [u8; 8193]
    ensures { 8193 ≡ length result }
{
    [0; 8193]
}

fn say(err: &impl Eprint, text: &str) {
    let _ = err.eprintln(text);
}

fn main(rt: HostRuntime) {
    let mut bytes = buffer();
    match stream::read_whole(&mut rt.stdin(), &mut bytes) {
        Ok(n) => {
            if stream::speaks_of(judge(&rt, &bytes[..n])) {
                say(&rt, "vet: standard output could not be written");
            }
        }
        Err(_) => say(&rt, "vet: standard input could not be read"),
    }
}
