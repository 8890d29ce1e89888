// The recorder: a state with its entries, and one step, by value or in place, of any event or of one kind
// (docs/RULES.md, S).
#![tactic(auto)]

mod indexes;
pub mod kinds;
pub mod steps;
mod words;

use machine::Registers;

// How many entries there are.
pub const ENTRIES: usize = 256;

// The words of each physical entry.
#[derive(Clone, Copy)]
pub struct Entries {
    pub ctrsource: [u64; ENTRIES],
    pub ctrtarget: [u64; ENTRIES],
    pub ctrdata: [u64; ENTRIES],
}

// The registers and the entries.
#[derive(Clone, Copy)]
pub struct State {
    pub registers: Registers,
    pub entries: Entries,
}

// An answer, and the state after it.
#[derive(Clone, Copy)]
pub struct Stepped {
    pub number: u64,
    pub value: u64,
    pub state: State,
}

// An answer, and the registers after it.
#[derive(Clone, Copy)]
pub struct Answered {
    pub number: u64,
    pub value: u64,
    pub registers: Registers,
}
