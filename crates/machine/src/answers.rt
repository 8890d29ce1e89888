// The numbers and values of answers, and what an event decides.
ghost use Rattle.std.specs.Prelude.{◌≡◌, min};
ghost use Rattle.machine.specs.Answers.{number_of, value_of, numbers, values, refused, accepted, accepted_put, accepted_clear};

use crate::{Decision, Effect, Entry, Outcome, Refusal, Registers, Verdict};

// The number of a verdict; 0 where it accepts.
pub fn number(v: Verdict) -> u64
    ensures { result ≡ number_of v }
{
    match v {
        Ok(()) => 0,
        Err(e) => e as u64,
    }
}

// The value of an outcome.
pub fn value(o: Outcome) -> u64
    ensures { result ≡ value_of o }
{
    o as u64
}

// How many numbers there are, and how many values of outcomes.
pub const NUMBERS: u64 = 6;

pub const VALUES: u64 = 5;

// The place of a number among the numbers; what is none of them comes after the last.
pub fn number_index(number: u64) -> u64
    ensures { result ≡ min number numbers }
{
    number.min(NUMBERS)
}

// The place of a value among the values of outcomes.
pub fn value_index(value: u64) -> u64
    ensures { result ≡ min value values }
{
    value.min(VALUES)
}

// Refused: nothing changes.
pub fn refuse(r: Registers, e: Refusal) -> Decision
    ensures { result ≡ refused r e }
{
    Decision {
        number: number(Err(e)),
        value: 0,
        registers: r,
        effect: Effect::Keep,
    }
}

// Accepted with a value, the entries kept.
pub fn accept(r: Registers, value: u64) -> Decision
    ensures { result ≡ accepted r value }
{
    Decision {
        number: number(Ok(())),
        value,
        registers: r,
        effect: Effect::Keep,
    }
}

// Accepted with a value, and the entry in focus put.
pub fn accept_put(r: Registers, value: u64, e: Entry) -> Decision
    ensures { result ≡ accepted_put r value e }
{
    Decision {
        number: number(Ok(())),
        value,
        registers: r,
        effect: Effect::Put(e),
    }
}

// Accepted with value 0, and all entries cleared.
pub fn accept_clear(r: Registers) -> Decision
    ensures { result ≡ accepted_clear r }
{
    Decision {
        number: number(Ok(())),
        value: 0,
        registers: r,
        effect: Effect::ClearAll,
    }
}
