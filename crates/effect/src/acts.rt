// What acts and package marks do.
ghost use Rattle.std.specs.Prelude.{◌≡◌};
ghost use Rattle.effect.specs.Code as code;

use super::{Effect, Spot, effects};
use operands::Written;
use state::{Cell, Offer, Order, Stop, What};
use table::{Act, Pack};
use value::Value;

// A type is its first letter times 256, and its second.
const TYPE_EB: u16 = 25954;

// A result or a reading is kept, or stops the run.
fn keep_result(s: Spot, n: usize, letters: u16, c: Result<Value, Stop>) -> Effect
    ensures { result ≡ code.keep_result s n letters c }
{
    match c {
        Ok(v) => effects::writing(s.go_on(), Some((n, Some((v, letters))))),
        Err(q) => effects::stop_by(s, q),
    }
}

pub(crate) fn run_act(s: Spot, a: Act, x: Cell, y: Cell, o: Offer) -> Effect
    ensures { result ≡ code.run_act s a x y o }
{
    let on = s.go_on();
    match a {
        Act::Store(n, v, letters) => effects::writing(on, Some((n, Some((v, letters))))),
        Act::Copy(_, to) => effects::writing(on, Some((to, x))),
        Act::Calc(by, n, _) => keep_result(
            s,
            n,
            state::cell_type(x),
            value::calculate(by, state::cell_value(x), state::cell_value(y)),
        ),
        Act::Meas(_, n, letters) => keep_result(s, n, letters, state::reading_of(o)),
        Act::TimerGet(n) => keep_result(s, n, TYPE_EB, state::reading_of(o)),
        Act::SendString(t) => effects::saying(on, What::Text(t)),
        Act::Wait(_) => effects::saying(on, What::Order(Order::Wait(state::cell_value(x)))),
        Act::SetE(_) => effects::saying(on, What::Order(Order::SetE(state::cell_value(x)))),
        Act::SetMode(n) => effects::saying(on, What::Order(Order::SetMode(n))),
        Act::Var(_) | Act::TimerStart => effects::running(on),
        Act::CellOn => effects::saying(on, What::Order(Order::CellOn)),
        Act::CellOff => effects::saying(on, What::Order(Order::CellOff)),
        Act::Abort => effects::running(on.with_pending()),
    }
}

pub(crate) fn run_pack(s: Spot, p: Pack, x: Cell) -> Effect
    ensures { result ≡ code.run_pack s p x }
{
    match p {
        Pack::Start => effects::saying(s.with_packed(true).go_on(), What::Start),
        Pack::Add(_) => effects::saying(
            s.go_on(),
            What::Part(state::cell_value(x), state::cell_type(x)),
        ),
        Pack::End => effects::saying(s.with_packed(false).go_on(), What::End),
    }
}
