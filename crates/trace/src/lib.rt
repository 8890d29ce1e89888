// Traces: rows of four 64-bit words, one to an event, and whole runs of them (docs/RULES.md, W).
#![tactic(auto)]

ghost use Rattle.std.specs.Prelude.{◌≡◌};
ghost use Rattle.trace.specs.Codes.{word_number};

pub mod codes;
pub mod rows;
pub mod runs;

use machine::Registers;
use recorder::State;

// The first of a row's words that breaks a rule of the format.
#[derive(Clone, Copy, PartialEq, Eq)]
pub enum Malformed {
    Word0,
    Word1,
    Word2,
    Word3,
}

// Its number.
impl From<Malformed> for u64 {
    ghost from_gives = { λ m n. n ≡ word_number m };

    fn from(m: Malformed) -> u64 {
        match m {
            Malformed::Word0 => 0,
            Malformed::Word1 => 1,
            Malformed::Word2 => 2,
            Malformed::Word3 => 3,
        }
    }
}

// What became of a trace: the run's number, how many events were run, and the state after them.
#[derive(Drop)]
pub struct Replayed {
    pub number: u64,
    pub count: usize,
    pub state: State,
}

// The same of a run in place: the registers after it.
#[derive(Clone, Copy)]
pub struct Ran {
    pub number: u64,
    pub count: usize,
    pub registers: Registers,
}
