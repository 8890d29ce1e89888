// One event: in place on lent entries, and by value on a whole state.
ghost use Rattle.std.specs.Prelude.{◌≡◌};
ghost use Rattle.recorder.specs.Steps.{state_of, stepped, step_of, reset_state, Whole};

use crate::{Answered, Entries, State, Stepped, kinds};
use machine::{Event, Registers};

// The state at reset, with the switch zc.
#[tactic(auto, unfolding(crate::specs::Steps::reset_state))]
pub fn reset(zc: bool) -> State
    ensures value { result ≡ reset_state zc }
    ensures whole { Whole result }
{
    State {
        registers: machine::regs::reset(zc),
        entries: Entries::cleared(),
    }
}

// One event in place: the entries are lent, and the registers go in and come back.
pub fn step_in_place(entries: &mut Entries, r: Registers, e: Event) -> Answered
    ensures { step_of (state_of r entries.old) e ≡ stepped result entries.new }
{
    match e {
        Event::Retired(w) => kinds::retire(entries, r, w),
        Event::Trap(x) => kinds::trap(entries, r, x),
        Event::TrapReturn(x) => kinds::trap_return(entries, r, x),
        Event::Access(a) => kinds::access(entries, r, a),
        Event::Sctrclr => kinds::sctrclr(entries, r),
        Event::Host(h) => kinds::host(entries, r, h),
    }
}

// One event by value.
pub fn step(s: State, e: Event) -> Stepped
    ensures value { result ≡ step_of s e }
    ensures whole { Whole result.state }
{
    let mut entries = s.entries;
    let a = step_in_place(&mut entries, s.registers, e);
    let state = State {
        registers: a.registers,
        entries,
    };
    Stepped {
        number: a.number,
        value: a.value,
        state,
    }
}
