// What an offer meets, and the reading in it.
ghost use Rattle.std.specs.Prelude.{◌≡◌};
ghost use Rattle.value.specs.Arithmetic.{checked};
ghost use Rattle.state.specs.State as rules;
ghost use Rattle.state.specs.Meaning.{wanted_of, meets_of};

use super::{Meets, Offer, Stop, Wanted};
use value::Value;

// What an offer is to an item that wants this.
pub fn offered(wanted: Wanted, o: Offer) -> Meets
    ensures { meets_of result ≡ rules.meets (wanted_of wanted) o }
{
    match (wanted, o) {
        (Wanted::Nothing, Offer::Nothing) => Meets::Ready,
        (Wanted::Float, Offer::Float(_)) => Meets::Ready,
        (Wanted::Point, Offer::Point(_) | Offer::Done) => Meets::Ready,
        (Wanted::Float | Wanted::Point, Offer::Nothing) => Meets::Short,
        _ => Meets::Amiss,
    }
}

// A float, if it is finite.
#[tactic(auto, unfolding(value::specs::Arithmetic::checked, value::specs::Arithmetic::finite))]
fn finite_float(x: f64) -> Result<Value, Stop>
    ensures { result ≡ checked x }
{
    if value::is_finite(Value::Real(x)) {
        Ok(Value::Real(x))
    } else {
        Err(Stop::NotFinite)
    }
}

// The reading in an offer: its float, if that is finite. An offer without a float counts as not finite.
#[tactic(auto, unfolding(value::specs::Arithmetic::checked, value::specs::Arithmetic::is_finite))]
pub fn reading_of(o: Offer) -> Result<Value, Stop>
    ensures { result ≡ checked (rules.reading o) }
{
    match o {
        Offer::Float(x) => finite_float(x),
        Offer::Nothing | Offer::Point(_) | Offer::Done => Err(Stop::NotFinite),
    }
}
