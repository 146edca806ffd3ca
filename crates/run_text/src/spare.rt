// How many places past a count hold something: none should, but in a state that a step gives back as it was.
use course::{Ran, Said};
use state::{Answer, State, Stepped, What};

// An empty place says that a step is running, and hands out nothing.
fn in_said(said: &Said) -> bool {
    !matches!(said.answer, Answer::Running) || said.things != 0
}

fn things(row: &[What], count: usize) -> usize {
    row.iter()
        .skip(count)
        .filter(|thing| !matches!(thing, What::Nothing))
        .count()
}

fn boxes(m: &State) -> usize {
    m.boxes
        .iter()
        .skip(m.depth)
        .filter(|place| **place != 0)
        .count()
}

fn answers(ran: &Ran) -> usize {
    ran.answers
        .iter()
        .skip(ran.count)
        .filter(|said| in_said(said))
        .count()
}

pub fn in_step(stepped: &Stepped) -> usize {
    boxes(&stepped.state).wrapping_add(things(&stepped.things, stepped.count))
}

pub fn in_run(ran: &Ran) -> usize {
    boxes(&ran.state)
        .wrapping_add(answers(ran))
        .wrapping_add(things(&ran.things, ran.handed))
}
