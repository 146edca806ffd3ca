// What the loader and the rules say of a script together: the verdict before the cell is switched on.
#![tactic(auto)]

ghost use Rattle.std.specs.Prelude.{◌≡◌};
ghost use Rattle.vetting.specs.declared.Refusal.TheVariants as Refusal;
ghost use Rattle.vetting.specs.Vet.{number_of, told, vetted};

// The first that is broken: what is wrong with a script's text, or the rule that its table breaks.
#[derive(Clone, Copy)]
pub enum Refusal {
    Form(argument::Refusal),
    Rules(rules::Refusal),
}

impl From<argument::Refusal> for Refusal {
    ghost from_gives = { λ why r. r ≡ Refusal.Form why };

    fn from(why: argument::Refusal) -> Refusal {
        Refusal::Form(why)
    }
}

impl From<rules::Refusal> for Refusal {
    ghost from_gives = { λ why r. r ≡ Refusal.Rules why };

    fn from(why: rules::Refusal) -> Refusal {
        Refusal::Rules(why)
    }
}

// 01's number of a refusal, 10 to 26, and 30.
impl From<Refusal> for u8 {
    ghost from_gives = { λ why r. r ≡ number_of why };

    fn from(why: Refusal) -> u8 {
        match why {
            Refusal::Form(refusal) => u8::from(refusal),
            Refusal::Rules(refusal) => u8::from(refusal),
        }
    }
}

// The first refusal of form, else of the rules, and its line.
pub fn vet(text: &[u8]) -> Result<(), (Refusal, usize)>
    ensures { told result ≡ vetted text.now }
{
    match loader::load(text) {
        Ok(table) => match rules::check(text, table) {
            Ok(()) => Ok(()),
            Err((why, line)) => Err((Refusal::from(why), line)),
        },
        Err((why, line)) => Err((Refusal::from(why), line)),
    }
}
