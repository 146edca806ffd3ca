// What a step answers and hands out, with the numbers of faults, codes and refusals.
ghost use Rattle.std.specs.Prelude.{◌≡◌, replicate};
ghost use Rattle.state.specs.State as rules;
ghost use Rattle.state.specs.State.{is_held};
ghost use Rattle.state.specs.Meaning.{fault_number, code_of, refusal_number, status_of, answer_of};

use super::{Answer, Fault, LoopSort, Refusal, Status, Stop, What};

// The number of a fault.
impl From<Fault> for u8 {
    ghost from_gives = { λ fault r. r ≡ fault_number fault };

    fn from(fault: Fault) -> u8 {
        match fault {
            Fault::Unwritten => 60,
            Fault::Kind => 61,
            Fault::Box => 62,
            Fault::Depth => 63,
            Fault::Package => 64,
        }
    }
}

// The code by which a run stops. `Stop` is the crate `value`'s, so that no conversion of it can stand here.
pub fn code_of_stop(stop: Stop) -> u16
    ensures { result ≡ code_of stop }
{
    match stop {
        Stop::ByZero => 0x0028,
        Stop::NotFinite => 0x0010,
    }
}

// The number of a refusal.
impl From<Refusal> for u8 {
    ghost from_gives = { λ refusal r. r ≡ refusal_number refusal };

    fn from(refusal: Refusal) -> u8 {
        match refusal {
            Refusal::Shape => 30,
            Refusal::Reading => 31,
        }
    }
}

// Eight times nothing, for what a step hands out.
pub fn no_things() -> [What; 8]
    ensures { result ≡ replicate 8 What.Nothing }
{
    [What::Nothing; 8]
}

// Waiting or refused.
fn is_held(a: Answer) -> bool
    ensures { result ≡ is_held (answer_of a) }
{
    matches!(a, Answer::Waiting | Answer::Refused(_))
}

// A step that takes no item: it is waiting or refused, or the run had ended before it.
pub fn stays(before: Status, a: Answer) -> bool
    ensures { result ≡ rules.stays (status_of before) (answer_of a) }
{
    match before {
        Status::Live => is_held(a),
        Status::Finished | Status::Stopped(_) | Status::Fault(_) => true,
    }
}

// Whether a loop is a measuring loop.
pub fn measures(s: LoopSort) -> bool
    ensures { result ≡ rules.measures s }
{
    matches!(s, LoopSort::Sweep)
}
