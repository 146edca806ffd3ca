// One step: what a control, an abort that is due, an item and the end of the text make of a run.
ghost use Rattle.std.specs.Prelude.{◌≡◌};
ghost use Rattle.state.specs.State as rules;
ghost use Rattle.state.specs.Meaning.{wanted_of};
ghost use Rattle.effect.specs.Code as code;

use super::{Effect, Looked, Spot, acts, effects, faults, marks, spots, tries};
use state::{Answer, Control, Fault, Meets, Offer, Refusal, Status, Wanted};
use table::{Act, Head, Item};

// A step's beginning: the spot before it, what the control made of that, and the offer.
#[derive(Clone, Copy)]
struct Turn {
    before: Spot,
    spot: Spot,
    offer: Offer,
}

// What an item wants.
fn wanted_by(x: Item) -> Wanted
    ensures { wanted_of result ≡ rules.wanted_by x }
{
    match x {
        Item::Act(Act::Meas(_, _, _) | Act::TimerGet(_)) => Wanted::Float,
        Item::Open(Head::Sweep(_)) => Wanted::Point,
        _ => Wanted::Nothing,
    }
}

// The first fault of an item, or of the elseif to which it leads.
fn trouble_of(s: Spot, looked: Looked) -> Option<Fault>
    ensures { result ≡ code.trouble_of s looked }
{
    faults::fault_of(s, looked).or(tries::chosen_fault(looked.chosen))
}

fn abort_due(s: Spot, sweeping: bool) -> bool
    ensures { result ≡ code.abort_due s sweeping }
{
    s.pending && !sweeping && !s.packed
}

impl Turn {
    // What a step makes of a run, where the offer is what it wants; else the run waits, or stays as it was before the
    // step.
    fn served(self, wanted: Wanted, e: Effect) -> Effect
        ensures { result ≡ code.served self.before self.spot (rules.meets (wanted_of wanted) self.offer) e }
    {
        match state::offered(wanted, self.offer) {
            Meets::Ready => e,
            Meets::Short => effects::still(self.spot, Status::Live, Answer::Waiting),
            Meets::Amiss => effects::still(
                self.before,
                Status::Live,
                Answer::Refused(Refusal::Reading),
            ),
        }
    }

    // What comes of the item at which the run stands, where it has no fault and the offer is what it wants.
    fn run_item(self, looked: Looked) -> Effect
        ensures { result ≡
            code.run_item self.spot looked.item looked.cells looked.chosen looked.around self.offer }
    {
        let s = self.spot;
        let k = looked.cells;
        match looked.item {
            Item::Act(a) => acts::run_act(s, a, k.a, k.b, self.offer),
            Item::Pack(p) => acts::run_pack(s, p, k.a),
            Item::Open(h) => marks::run_head(s, h, looked, self.offer),
            Item::Branch(_) => marks::leave_if(s, looked.around.close),
            Item::Close(e) => marks::run_close(s, e, looked.around.sweep),
            Item::Break => marks::run_break(s, looked.around),
            Item::Tag => effects::running(s.go_on()),
        }
    }

    // An item that has no fault.
    fn sound_item(self, looked: Looked) -> Effect
        ensures { result ≡ code.sound_item self.before self.spot looked self.offer }
    {
        self.served(wanted_by(looked.item), self.run_item(looked))
    }

    // One item, where the run stands at it.
    fn at_item(self, looked: Looked) -> Effect
        ensures { result ≡ code.at_item self.before self.spot looked self.offer }
    {
        match trouble_of(self.spot, looked) {
            None => self.sound_item(looked),
            Some(f) => effects::fault_by(self.spot, f),
        }
    }

    // A step that wants nothing, and leaves all open boxes.
    fn leave_all(self, status: Status, a: Answer) -> Effect
        ensures { result ≡ code.leave_all self.before self.spot status a self.offer }
    {
        self.served(Wanted::Nothing, effects::leaving(self.spot, status, a))
    }

    fn finish(self) -> Effect
        ensures { result ≡ code.finish self.before self.spot self.offer }
    {
        self.leave_all(Status::Finished, Answer::Finished)
    }

    fn at_end(self) -> Effect
        ensures { result ≡ code.at_end self.before self.spot self.offer }
    {
        if self.spot.depth != 0 {
            return effects::fault_by(self.spot, Fault::Box);
        }
        if self.spot.packed {
            return effects::fault_by(self.spot, Fault::Package);
        }
        self.finish()
    }

    // All boxes closed, at item i.
    fn cleared(self, i: usize) -> Turn
        ensures before { result.before ≡ self.before }
        ensures spot { result.spot ≡ code.clear self.spot i }
        ensures offer { result.offer ≡ self.offer }
    {
        Turn {
            spot: self.spot.clear(i),
            ..self
        }
    }

    // A pending abort takes effect; tag is the place of the first tag of n items, n where there is none.
    fn abort(self, tag: usize, n: usize) -> Effect
        ensures { result ≡ code.abort self.before self.spot tag n self.offer }
    {
        if tag < n && self.spot.at <= tag {
            return self
                .cleared(spots::after(tag))
                .leave_all(Status::Live, Answer::Running);
        }
        self.cleared(self.spot.at).finish()
    }
}

// A step of a run that has not ended.
fn live(before: Spot, looked: Looked, c: Control, offer: Offer) -> Effect
    ensures { result ≡ code.live' before looked c offer }
{
    let sweeping = looked.around.sweeping;
    let spot = before.take_control(c, sweeping);
    let turn = Turn {
        before,
        spot,
        offer,
    };
    if abort_due(spot, sweeping) {
        return turn.abort(looked.tag, looked.count);
    }
    if spot.at < looked.count {
        return turn.at_item(looked);
    }
    turn.at_end()
}

fn is_live(status: Status) -> bool
    ensures { result ≡ code.is_live status }
{
    matches!(status, Status::Live)
}

// What a run is, as an answer.
fn answer_of(status: Status) -> Answer
    ensures { result ≡ code.answer_of status }
{
    match status {
        Status::Live => Answer::Running,
        Status::Finished => Answer::Finished,
        Status::Stopped(q) => Answer::Stopped(q),
        Status::Fault(f) => Answer::Fault(f),
    }
}

// One step from a spot and a status, with what was looked up; shaped says whether table and state are in shape.
pub fn effect_of(
    shaped: bool,
    spot: Spot,
    status: Status,
    looked: Looked,
    control: Control,
    offer: Offer,
) -> Effect
    ensures { result ≡ code.effect_of shaped spot status looked control offer }
{
    if !shaped {
        return effects::still(spot, status, Answer::Refused(Refusal::Shape));
    }
    if is_live(status) {
        return live(spot, looked, control, offer);
    }
    effects::still(spot, status, answer_of(status))
}
