// The checker of scripts for C: form, then rules, before the cell is switched on.
ghost use Rattle.std.specs.Prelude.{◌≡◌};
ghost use Rattle.vetting.specs.Vet.{vetted};
ghost use Rattle.capi.specs.Scripts.{verdict_numbers};

use super::GOOD;

#[repr(C)]
#[derive(Clone, Copy)]
pub struct SatvVerdict {
    pub result: u16,
    pub line: usize,
}

// Number and line of the first refusal of form, else of the rules; both 0 where the script is accepted.
#[unsafe(no_mangle)]
pub extern "C" fn satv_script_check(text: &[u8]) -> SatvVerdict
    ensures { result ≡ verdict_numbers (vetted text.now) }
{
    match vetting::vet(text) {
        Ok(()) => SatvVerdict {
            result: GOOD,
            line: 0,
        },
        Err((why, line)) => SatvVerdict {
            result: u8::from(why) as u16,
            line,
        },
    }
}
