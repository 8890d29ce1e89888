// Numbers for modes, operations and bits.
ghost use Rattle.std.specs.Prelude.{◌≡◌};
ghost use Rattle.trace.specs.Codes.{flag_of, mode_code, mode_of, operation_code, operation_of};

use machine::{Mode, Operation};

// 1 for true.
pub fn flag(b: bool) -> u64
    ensures { result ≡ flag_of b }
{
    u64::from(b)
}

// The code of a mode.
pub fn mode_code(m: Mode) -> u64
    ensures { result ≡ mode_code m }
{
    match m {
        Mode::U => 0,
        Mode::S => 1,
        Mode::M => 2,
        Mode::VU => 3,
        Mode::VS => 4,
    }
}

// The mode of a code; VS for numbers that are none.
#[tactic(auto, unfolding(crate::specs::Codes::mode_of))]
pub fn mode_of(code: u64) -> Mode
    ensures { result ≡ mode_of code }
{
    match code {
        0 => Mode::U,
        1 => Mode::S,
        2 => Mode::M,
        3 => Mode::VU,
        _ => Mode::VS,
    }
}

// The code of an operation.
pub fn operation_code(o: Operation) -> u64
    ensures { result ≡ operation_code o }
{
    match o {
        Operation::Read => 0,
        Operation::Write => 1,
        Operation::Set => 2,
        Operation::Clear => 3,
    }
}

// The operation of a code; clear for numbers that are none.
#[tactic(auto, unfolding(crate::specs::Codes::operation_of))]
pub fn operation_of(code: u64) -> Operation
    ensures { result ≡ operation_of code }
{
    match code {
        0 => Operation::Read,
        1 => Operation::Write,
        2 => Operation::Set,
        _ => Operation::Clear,
    }
}
