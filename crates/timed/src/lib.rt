// What the benches time: bytes go in, and a number comes back that hangs on the work.
#![tactic(auto)]

use course::{Steps, Told};
use frame::InstrumentNumber;
use state::{Control, Offer, Point, State};
use table::Table;

const MOST_STEPS: usize = 64;

#[unsafe(no_mangle)]
pub extern "C" fn timed_crc(bytes: &[u8]) -> u16 {
    crc::crc16(bytes)
}

// One more than the number of so many digits at a place; 0 where one is bad, since C takes a number.
fn one_more(bytes: &[u8], at: usize, digits: usize) -> u32 {
    match text::hex_at(bytes, at, digits) {
        Some(v) => v.wrapping_add(1),
        None => 0,
    }
}

#[unsafe(no_mangle)]
pub extern "C" fn timed_four(bytes: &[u8], at: usize) -> u32 {
    one_more(bytes, at, 4)
}

#[unsafe(no_mangle)]
pub extern "C" fn timed_seven(bytes: &[u8], at: usize) -> u32 {
    one_more(bytes, at, 7)
}

// Whether a line is good.
#[unsafe(no_mangle)]
pub extern "C" fn timed_frame(line: &[u8], expected: u8) -> bool {
    frame::read_frame(line, InstrumentNumber::from_byte(expected)).is_ok()
}

// Whether a package is good.
#[unsafe(no_mangle)]
pub extern "C" fn timed_package(bytes: &[u8]) -> bool {
    package::judge_package(bytes).is_ok()
}

// How many bytes a reply takes, none where it is refused.
#[unsafe(no_mangle)]
pub extern "C" fn timed_reply(bytes: &[u8]) -> usize {
    match reply::read_table(bytes).answer {
        Ok(read) => read.used,
        Err(_) => 0,
    }
}

// How many items a script has, none where it is refused.
#[unsafe(no_mangle)]
pub extern "C" fn timed_load(text: &[u8]) -> usize {
    match loader::load(text) {
        Ok(table) => table.count,
        Err(_) => 0,
    }
}

// How often a script is accepted, loaded once and checked so many times; of one that has not the form, the empty one.
// Here and below the ending line differs from turn to turn, so that each turn is done.
#[unsafe(no_mangle)]
pub extern "C" fn timed_check(text: &[u8], times: usize) -> usize {
    let Ok(mut table) = loader::load(text).or_else(|_| loader::load(b"\n")) else {
        return 0;
    };
    let mut accepted: usize = 0;
    for i in 0..times {
        table.end = i;
        accepted = accepted.wrapping_add(usize::from(rules::check(text, table).is_ok()));
    }
    accepted
}

fn point(potential: f64) -> Offer {
    Offer::Point(Point {
        potential,
        current: 0.5,
    })
}

// `f` is a float, `p` a point, `i` a point that is infinite, `d` done; any other letter is nothing.
fn offer_of(letter: u8) -> Offer {
    match letter {
        b'f' => Offer::Float(0.25),
        b'p' => point(0.25),
        b'i' => point(1.0 / 0.0),
        b'd' => Offer::Done,
        _ => Offer::Nothing,
    }
}

fn told(letter: u8) -> Told {
    Told {
        control: Control::None,
        offer: offer_of(letter),
    }
}

// What the first 64 letters tell.
fn steps_of(letters: &[u8]) -> Steps {
    let mut at = [told(b' '); MOST_STEPS];
    for (step, letter) in at.iter_mut().zip(letters) {
        *step = told(*letter);
    }
    Steps {
        at,
        count: letters.len(),
    }
}

// A run after its first steps. That `course::run` is called from here too keeps it whole: within its one caller the
// compiler would leave out the answers, which nobody reads.
fn begun(text: &[u8], table: Table, first: &[u8]) -> State {
    course::run(text, table, state::fresh(), steps_of(first), MOST_STEPS).state
}

// How many things a run hands out behind its first steps, in so many steps as 64 letters tell over and over.
#[unsafe(no_mangle)]
pub extern "C" fn timed_steps(text: &[u8], first: &[u8], letters: &[u8], times: usize) -> usize {
    let Ok(mut table) = loader::load(text) else {
        return 0;
    };
    let row = steps_of(letters);
    let mut m = begun(text, table, first);
    let mut handed: usize = 0;
    for i in 0..times {
        table.end = i;
        let told = row.at[i % MOST_STEPS];
        let stepped = machine::step(text, table, m, told.control, told.offer);
        m = stepped.state;
        handed = handed.wrapping_add(stepped.count);
    }
    handed
}

// The same by `course::run`, so many times the 64 letters.
#[unsafe(no_mangle)]
pub extern "C" fn timed_runs(text: &[u8], first: &[u8], letters: &[u8], times: usize) -> usize {
    let Ok(mut table) = loader::load(text) else {
        return 0;
    };
    let row = steps_of(letters);
    let mut m = begun(text, table, first);
    let mut handed: usize = 0;
    for i in 0..times {
        table.end = i;
        let ran = course::run(text, table, m, row, MOST_STEPS);
        m = ran.state;
        handed = handed.wrapping_add(ran.handed);
    }
    handed
}
