// A run: its state, what each step is told, its answers and the things it hands out, read and put.
use case_text::put::Literal;
use case_text::read::{Words, behind, find, first, float, hex4, number, past, value};
use course::{Ran, Said, Steps, Told};
use state::{
    Answer, BOXES, Cell, Control, Fault, Offer, Point, State, Status, Stepped, Stop, What,
};
use std::io::Write;
use std::{fmt, io};
use table::NAMES;
use thing_text::put_thing;

// More bytes than the text of any thing has.
const MOST_TEXT: usize = 64;

// What a place past the open boxes holds before a run: it stays where a step takes no item.
const LEFT_OVER: usize = 77;

// ---- read

// The open boxes, the first eight of them, and how many there are, nine where there are more.
fn boxes_in(list: &[u8]) -> ([usize; BOXES], usize) {
    let mut boxes = [LEFT_OVER; BOXES];
    let mut rest = list;
    for depth in 0..=BOXES {
        if !rest.first().is_some_and(|byte| text::is_digit(*byte)) {
            return (boxes, depth);
        }
        let read = text::decimal_at(rest, 0);
        if depth < BOXES {
            boxes[depth] = read.number as usize;
        }
        rest = past(past(rest, read.next), 1);
    }
    (boxes, BOXES + 1)
}

// A name, what it holds and the type of that, as `3:i10:6461`.
fn vars_in(list: &[u8]) -> [Cell; NAMES] {
    let mut vars = [None; NAMES];
    let mut rest = list;
    for _ in 0..NAMES {
        let read = text::decimal_at(rest, 0);
        let [b':', held @ ..] = past(rest, read.next) else {
            break;
        };
        vars[read.number as usize % NAMES] = Some((value(held), hex4(behind(held, b':'))));
        rest = behind(held, b',');
    }
    vars
}

// By the number that a case's text says.
fn fault_of(number: usize) -> Fault {
    match number {
        60 => Fault::Unwritten,
        61 => Fault::Kind,
        62 => Fault::Box,
        63 => Fault::Depth,
        _ => Fault::Package,
    }
}

// By the answer with which a run has ended; any other is that of a run that goes on.
fn status_of(ended: &[u8]) -> Status {
    if ended.starts_with(b"finished") {
        Status::Finished
    } else if ended.starts_with(b"stopped:0028") {
        Status::Stopped(Stop::ByZero)
    } else if ended.starts_with(b"stopped:") {
        Status::Stopped(Stop::NotFinite)
    } else if ended.starts_with(b"fault:") {
        Status::Fault(fault_of(number(behind(ended, b':'))))
    } else {
        Status::Live
    }
}

// The value of a word, as 1 in `abort=1`.
fn said(word: &[u8]) -> &[u8] {
    behind(word, b'=')
}

fn flag(word: &[u8]) -> bool {
    said(word).starts_with(b"1")
}

// The lines `state=` and `ended=`.
pub fn state_at(case: &[u8]) -> State {
    let mut words = Words(find(case, b"state="));
    let at = number(words.next());
    let (boxes, depth) = boxes_in(said(words.next()));
    State {
        at,
        boxes,
        depth,
        pending: flag(words.next()),
        skip: flag(words.next()),
        packed: flag(words.next()),
        vars: vars_in(said(words.next())),
        status: status_of(find(case, b"ended=")),
    }
}

fn control_of(word: &[u8]) -> Control {
    match word {
        [b'Z', ..] => Control::Z,
        [b'Y', ..] => Control::Y,
        _ => Control::None,
    }
}

fn offer_of(words: &mut Words) -> Offer {
    match words.next() {
        [b'f', ..] => Offer::Float(float(words.next())),
        [b'p', ..] => Offer::Point(Point {
            potential: float(words.next()),
            current: float(words.next()),
        }),
        [b'd', ..] => Offer::Done,
        _ => Offer::Nothing,
    }
}

// What a text says that begins with a line `do=`.
pub fn told_by(text: &[u8]) -> Told {
    let mut words = Words(said(text));
    Told {
        control: control_of(words.next()),
        offer: offer_of(&mut words),
    }
}

// The first 64 of the lines `do=` behind `steps=`, and how many it says there are.
pub fn steps_at(case: &[u8]) -> Steps {
    let mut at = [Told {
        control: Control::None,
        offer: Offer::Nothing,
    }; 64];
    let head = find(case, b"steps=");
    let mut rest = behind(head, b'\n');
    for told in at.iter_mut() {
        *told = told_by(rest);
        rest = behind(rest, b'\n');
    }
    Steps {
        at,
        count: number(head),
    }
}

// ---- lists

// What a list has in it, put as the text of cases has it.
trait Entry {
    fn put<W: fmt::Write>(&self, f: &mut fmt::Formatter<W>) -> fmt::Result;
}

// With a comma between the entries, `-` for none.
#[derive(Clone, Copy)]
struct List<'a, T>(&'a [T]);

impl<T: Entry> fmt::Display for List<'_, T> {
    fn fmt<W: fmt::Write>(&self, f: &mut fmt::Formatter<W>) -> fmt::Result {
        if self.0.is_empty() {
            return write!(f, "-");
        }
        for (i, entry) in self.0.iter().enumerate() {
            if i > 0 {
                write!(f, ",")?;
            }
            entry.put(f)?;
        }
        Ok(())
    }
}

impl Entry for usize {
    fn put<W: fmt::Write>(&self, f: &mut fmt::Formatter<W>) -> fmt::Result {
        write!(f, "{self}")
    }
}

// As the library writes it.
impl Entry for What {
    fn put<W: fmt::Write>(&self, f: &mut fmt::Formatter<W>) -> fmt::Result {
        let mut bytes = [0u8; MOST_TEXT];
        let n = put_thing(&mut bytes, *self).unwrap_or(0);
        for byte in first(&bytes, n) {
            f.write_char(char::from(*byte))?;
        }
        Ok(())
    }
}

#[derive(Clone, Copy)]
struct Answered(Answer);

impl fmt::Display for Answered {
    fn fmt<W: fmt::Write>(&self, f: &mut fmt::Formatter<W>) -> fmt::Result {
        match self.0 {
            Answer::Running => write!(f, "running"),
            Answer::Waiting => write!(f, "waiting"),
            Answer::Finished => write!(f, "finished"),
            Answer::Stopped(stop) => write!(f, "stopped:{:04X}", state::code_of_stop(stop)),
            Answer::Fault(fault) => write!(f, "fault:{}", u8::from(fault)),
            Answer::Refused(refusal) => write!(f, "refused:{}", u8::from(refusal)),
        }
    }
}

// An answer and how many things came with it.
impl Entry for Said {
    fn put<W: fmt::Write>(&self, f: &mut fmt::Formatter<W>) -> fmt::Result {
        write!(f, "{}/{}", Answered(self.answer), self.things)
    }
}

// ---- states

// What the names hold.
#[derive(Clone, Copy)]
struct Vars<'a>(&'a [Cell]);

impl fmt::Display for Vars<'_> {
    fn fmt<W: fmt::Write>(&self, f: &mut fmt::Formatter<W>) -> fmt::Result {
        let mut none = true;
        for (name, var) in self.0.iter().enumerate() {
            if let Some((value, letters)) = *var {
                if !none {
                    write!(f, ",")?;
                }
                none = false;
                write!(f, "{name}:{}:{letters:04X}", Literal(value))?;
            }
        }
        if none {
            write!(f, "-")?;
        }
        Ok(())
    }
}

// How a run has ended; nothing where it goes on.
#[derive(Clone, Copy)]
struct Ended(Status);

impl fmt::Display for Ended {
    fn fmt<W: fmt::Write>(&self, f: &mut fmt::Formatter<W>) -> fmt::Result {
        match self.0 {
            Status::Live => Ok(()),
            Status::Finished => write!(f, " status=finished"),
            Status::Stopped(stop) => write!(f, " status=stopped:{:04X}", state::code_of_stop(stop)),
            Status::Fault(fault) => write!(f, " status=fault:{}", u8::from(fault)),
        }
    }
}

// The line of a state that a run goes on from, or of what is kept of one that has ended. Where there are more open
// boxes than places for them, it says so.
fn put_state<W: Write>(out: &mut W, m: &State) -> io::Result<()> {
    let key = if matches!(m.status, Status::Live) {
        "state"
    } else {
        "keeps"
    };
    let more = if m.depth > BOXES { ",more" } else { "" };
    let boxes = List(first(&m.boxes, m.depth));
    write!(out, "{key}={} boxes={boxes}{more}", m.at)?;
    let pending = u8::from(m.pending);
    let skip = u8::from(m.skip);
    let packed = u8::from(m.packed);
    write!(out, " abort={pending} skip={skip} package={packed}")?;
    writeln!(out, " values={}{}", Vars(&m.vars), Ended(m.status))
}

// ---- steps and runs

// The lines of a step, which is counted from 1.
pub fn put_step<W: Write>(out: &mut W, k: usize, stepped: &Stepped) -> io::Result<()> {
    write!(out, "step={k} answer={}", Answered(stepped.answer))?;
    writeln!(
        out,
        " things={}",
        List(first(&stepped.things, stepped.count))
    )?;
    put_state(out, &stepped.state)
}

// The answers of a whole run, all that it handed out, and its last state.
pub fn put_ran<W: Write>(out: &mut W, ran: &Ran) -> io::Result<()> {
    writeln!(out, "answers={}", List(first(&ran.answers, ran.count)))?;
    writeln!(out, "things={}", List(first(&ran.things, ran.handed)))?;
    put_state(out, &ran.state)
}
