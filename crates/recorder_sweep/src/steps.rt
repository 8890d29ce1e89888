// Steps that the random lists take.
use machine::{Event, Outcome, Registers};
use recorder::Answered;

// The outcomes, by their values.
const OUTCOMES: [Outcome; 5] = [
    Outcome::Nothing,
    Outcome::Record,
    Outcome::Pop,
    Outcome::Swap,
    Outcome::Freeze,
];

// An event, the registers before it and after it, and the answer. Only a transfer that was answered has an outcome.
#[derive(Clone, Copy)]
pub(crate) struct Step {
    pub(crate) event: Event,
    pub(crate) before: Registers,
    pub(crate) after: Registers,
    pub(crate) number: u64,
    pub(crate) value: u64,
    pub(crate) outcome: Option<Outcome>,
}

impl Step {
    pub(crate) fn new(event: Event, before: Registers, a: Answered) -> Step {
        Step {
            event,
            before,
            after: a.registers,
            number: a.number,
            value: a.value,
            outcome: outcome_of(event, a),
        }
    }
}

fn outcome_of(e: Event, a: Answered) -> Option<Outcome> {
    match e {
        Event::Retired(_) | Event::Trap(_) | Event::TrapReturn(_) if a.number == 0 => {
            OUTCOMES.get(a.value as usize).copied()
        }
        _ => None,
    }
}
