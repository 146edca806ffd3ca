// The effects that steps have.
ghost use Rattle.std.specs.Prelude.{◌≡◌};
ghost use Rattle.effect.specs.Code as code;

use super::{Effect, Spot};
use operands::Written;
use state::{Answer, Fault, Status, Stop, What};

pub(crate) fn acting(s: Spot, one: What, two: What, first: Written, second: Written) -> Effect
    ensures { result ≡ code.acting s one two first second }
{
    Effect {
        spot: s,
        status: Status::Live,
        answer: Answer::Running,
        one,
        two,
        leaves: false,
        first,
        second,
    }
}

pub(crate) fn still(s: Spot, status: Status, answer: Answer) -> Effect
    ensures { result ≡ code.still s status answer }
{
    Effect {
        status,
        answer,
        ..acting(s, What::Nothing, What::Nothing, None, None)
    }
}

// All open boxes are left.
pub(crate) fn leaving(s: Spot, status: Status, a: Answer) -> Effect
    ensures { result ≡ code.leaving s status a }
{
    Effect {
        leaves: true,
        ..still(s, status, a)
    }
}

pub(crate) fn running(s: Spot) -> Effect
    ensures { result ≡ code.runs s }
{
    still(s, Status::Live, Answer::Running)
}

pub(crate) fn saying(s: Spot, w: What) -> Effect
    ensures { result ≡ code.saying s w }
{
    acting(s, w, What::Nothing, None, None)
}

pub(crate) fn writing(s: Spot, w: Written) -> Effect
    ensures { result ≡ code.writing s w }
{
    acting(s, What::Nothing, What::Nothing, w, None)
}

pub(crate) fn fault_by(s: Spot, f: Fault) -> Effect
    ensures { result ≡ code.fault_by s f }
{
    still(s, Status::Fault(f), Answer::Fault(f))
}

pub(crate) fn stop_by(s: Spot, q: Stop) -> Effect
    ensures { result ≡ code.stop_by s q }
{
    still(s, Status::Stopped(q), Answer::Stopped(q))
}
