// Demand 3 for a caller: a script's text is loaded, checked and run from fresh, and the answers are never 30 and never
// a fault.
#![tactic(auto)]

ghost use Rattle.std.specs.Prelude.{◌≡◌, length};
ghost use Rattle.course.specs.Course.{steps_of};
ghost use Rattle.safety.specs.Outcome.{checked_outcome, meaning, FixedIn, ExactOutcome};

use course::{Ran, Steps};
use table::Table;
use vetting::Refusal;

fn check_and_run(text: &[u8], table: Table, steps: Steps) -> Result<Ran, (Refusal, usize)>
    ensures { (meaning result ≡ checked_outcome (length text.now) table (steps_of steps)) × FixedIn result }
{
    match rules::check(text, table) {
        Ok(()) => Ok(course::run(text, table, state::fresh(), steps, steps.count)),
        Err((rule, line)) => Err((Refusal::Rules(rule), line)),
    }
}

// Loads, checks and runs up to 64 steps from fresh. No step is taken where the text is refused, by form or by a rule,
// at a line.
pub fn run(text: &[u8], steps: Steps) -> Result<Ran, (Refusal, usize)>
    ensures { ExactOutcome text.now (steps_of steps) result }
{
    match loader::load(text) {
        Ok(table) => check_and_run(text, table, steps),
        Err((why, line)) => Err((Refusal::Form(why), line)),
    }
}
