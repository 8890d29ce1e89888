// Checks a dump, entries read from a board, against firmware: whether every valid entry fits, as a trap, a trap return or a transfer
// that the code at its source makes; or the first that does not, and why (docs/RULES.md, F).
#![tactic(auto)]

mod entries;
mod fetch;
mod firmware;
mod offsets;

ghost use Rattle.std.specs.Prelude.{◌≡◌};
ghost use Rattle.dump.specs.Checks.{check_of, reason_number, rejection_number, number_of};

use firmware::Firmware;

// Why an entry does not fit, in the order in which the reasons are looked for.
#[derive(Clone, Copy, Debug, PartialEq, Eq)]
pub enum Reason {
    SourceOutside,
    CutOff,
    TypeUnlike,
    TargetWrong,
}

// Why a dump is not accepted: it is refused, with the number why; or its first misfit, by its index and the reason.
#[derive(Clone, Copy, Debug, PartialEq, Eq)]
pub enum Rejection {
    Refused(u64),
    Misfit(usize, Reason),
}

// Checks entries, three words each in logical order, against the code from base on. The switch zc says whether the machine has Zcmp
// and Zcmt. Refused are 6, a length that is no multiple of three, and 11, an odd base or an end past 2^64, in this order.
#[tactic(auto, using(std::proofs::lemmas::Bool::Decides::nat_tests), unfolding(crate::specs::Checks::check_of))]
pub fn check(code: &[u8], base: u64, entries: &[u64], zc: bool) -> Result<(), Rejection>
    ensures { result ≡ check_of code.now base entries.now zc }
{
    let firmware = Firmware { code, base, zc };
    if entries.len() % 3 != 0 {
        Err(Rejection::Refused(6))
    } else if !firmware.is_placed() {
        Err(Rejection::Refused(11))
    } else {
        firmware.check_entries(entries)
    }
}

impl From<Reason> for u64 {
    ghost from_gives = { λ r n. n ≡ reason_number r };

    fn from(reason: Reason) -> u64 {
        match reason {
            Reason::SourceOutside => 1,
            Reason::CutOff => 2,
            Reason::TypeUnlike => 3,
            Reason::TargetWrong => 4,
        }
    }
}

impl From<Rejection> for u64 {
    ghost from_gives = { λ r n. n ≡ rejection_number r };

    fn from(rejection: Rejection) -> u64 {
        match rejection {
            Rejection::Refused(number) => number,
            Rejection::Misfit(_, reason) => u64::from(reason),
        }
    }
}

// The number of an answer: 0 accepted, that of the refusal (6 or 11), or the reason's.
pub fn number(answer: Result<(), Rejection>) -> u64
    ensures { result ≡ number_of answer }
{
    match answer {
        Ok(()) => 0,
        Err(rejection) => u64::from(rejection),
    }
}
