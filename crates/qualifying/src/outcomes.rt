// When a transfer qualifies.
ghost use Rattle.std.specs.Prelude.{◌≡◌};
ghost use Rattle.machine.specs.Modes.{governing_of};
ghost use Rattle.qualifying.specs.Filters.{inhibited_of};
ghost use Rattle.qualifying.specs.Outcomes.{stack_outcome, rasemu_of, on_outcome, live_of, live_outcome, trap_type, trap_by, trap_outcome, return_by, return_outcome};

use crate::filters::{external, freezes, inhibited};
use machine::controls::is_set;
use machine::modes::{governing, is_on};
use machine::{ControlBit, Mode, Outcome, Registers, TrapTo};

// What RASEMU makes of a type.
#[tactic(auto, unfolding(crate::specs::Outcomes::stack_outcome))]
fn stack_outcome(number: u64) -> Outcome
    ensures { result ≡ stack_outcome number }
{
    match number {
        8 | 9 => Outcome::Record,
        12 => Outcome::Swap,
        13 => Outcome::Pop,
        _ => Outcome::Nothing,
    }
}

// Whether the register that governs a transition has RASEMU.
#[tactic(auto, unfolding(crate::specs::Outcomes::rasemu_of))]
pub fn rasemu(r: Registers, source: Mode, target: Mode) -> bool
    ensures { result ≡ rasemu_of r source target }
{
    is_set(r, governing(source, target), ControlBit::RASEMU)
}

#[tactic(auto, unfolding(crate::specs::Outcomes::on_outcome))]
fn on_outcome(rasemu: bool, inhibited: bool, number: u64) -> Outcome
    ensures { result ≡ on_outcome rasemu inhibited number }
{
    if rasemu {
        stack_outcome(number)
    } else if inhibited {
        Outcome::Nothing
    } else {
        Outcome::Record
    }
}

// Whether the current mode is on and nothing is frozen.
#[tactic(auto, unfolding(crate::specs::Outcomes::live_of))]
pub fn is_live(r: Registers) -> bool
    ensures { result ≡ live_of r }
{
    is_on(r, r.mode) && !r.buffer.frozen
}

// What comes of a word of a type, retired where recording is live.
#[tactic(auto, unfolding(crate::specs::Outcomes::live_outcome))]
pub fn live_outcome(r: Registers, number: u64) -> Outcome
    ensures { result ≡ live_outcome r number }
{
    let m = r.mode;
    on_outcome(
        rasemu(r, m, m),
        inhibited(r, governing(m, m), number),
        number,
    )
}

pub fn trap_type(interrupt: bool) -> u64
    ensures { result ≡ trap_type interrupt }
{
    if interrupt { 2 } else { 1 }
}

#[tactic(auto, unfolding(crate::specs::Outcomes::trap_by))]
fn trap_by(
    freezes: bool,
    frozen: bool,
    rasemu: bool,
    source: bool,
    target: bool,
    inhibited: bool,
    external: bool,
) -> Outcome
    ensures { result ≡ trap_by freezes frozen rasemu source target inhibited external }
{
    let qualifies = if target {
        !inhibited
    } else {
        source && external
    };
    if freezes {
        Outcome::Freeze
    } else if frozen || rasemu || !qualifies {
        Outcome::Nothing
    } else {
        Outcome::Record
    }
}

// Whether a trap's type is inhibited.
fn trap_inhibited(r: Registers, t: TrapTo) -> bool
    ensures { result ≡ inhibited_of r (governing_of r.mode t.mode) (trap_type t.interrupt) }
{
    inhibited(r, governing(r.mode, t.mode), trap_type(t.interrupt))
}

// What comes of a trap, if it is possible: that and number 5 are the caller's to look for.
#[tactic(auto, unfolding(crate::specs::Outcomes::trap_outcome))]
pub fn trap_outcome(r: Registers, t: TrapTo) -> Outcome
    ensures { result ≡ trap_outcome r t }
{
    trap_by(
        freezes(r, t),
        r.buffer.frozen,
        rasemu(r, r.mode, t.mode),
        is_on(r, r.mode),
        is_on(r, t.mode),
        trap_inhibited(r, t),
        external(r, r.mode, t.mode),
    )
}

// The type of a trap return.
pub const RETURN_TYPE: u64 = 3;

#[tactic(auto, unfolding(crate::specs::Outcomes::return_by))]
fn return_by(frozen: bool, rasemu: bool, source: bool, inhibited: bool) -> Outcome
    ensures { result ≡ return_by frozen rasemu source inhibited }
{
    if frozen || rasemu || !source || inhibited {
        Outcome::Nothing
    } else {
        Outcome::Record
    }
}

// What comes of a trap return, if it is possible: that and number 5 are the caller's to look for.
#[tactic(auto, unfolding(crate::specs::Outcomes::return_outcome))]
pub fn return_outcome(r: Registers, target: Mode) -> Outcome
    ensures { result ≡ return_outcome r target }
{
    let m = r.mode;
    return_by(
        r.buffer.frozen,
        rasemu(r, m, target),
        is_on(r, m),
        inhibited(r, governing(m, target), RETURN_TYPE),
    )
}
