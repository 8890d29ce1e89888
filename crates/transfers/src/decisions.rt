// What an outcome does, and what a trap and a trap return decide.
ghost use Rattle.std.specs.Prelude.{◌≡◌};
ghost use Rattle.transfers.specs.Transfers.{outcome_focus, done_of, in_mode, crossing, crossed_of, taken_trap, trap_of, taken_return, return_of};

use crate::counts::{restart, stamp, tally};
use crate::records::{advance, entry_for, pop, retreat, side_pc};
use machine::answers::{accept, accept_put, refuse, value};
use machine::depths::{physical, wrapped};
use machine::regs::{with_cycles, with_frozen, with_mode};
use machine::{Decision, Entry, Mode, Outcome, Refusal, Registers, ReturnTo, TrapTo};
use qualifying::changes::{possible_return, possible_trap};
use qualifying::outcomes::{RETURN_TYPE, rasemu, return_outcome, trap_outcome, trap_type};

// The physical entry that an outcome is about.
// With an arm for each variant it runs as one branch with `done`, which saves a retired word ten instructions.
#[tactic(auto, unfolding(crate::specs::Transfers::outcome_focus))]
pub fn focus(r: Registers, o: Outcome) -> u64
    ensures { result ≡ outcome_focus r.buffer o }
{
    match o {
        Outcome::Nothing => wrapped(r.buffer.wrptr, r.buffer.code),
        Outcome::Record => wrapped(r.buffer.wrptr, r.buffer.code),
        Outcome::Pop => physical(r.buffer.code, r.buffer.wrptr, 0),
        Outcome::Swap => physical(r.buffer.code, r.buffer.wrptr, 0),
        Outcome::Freeze => wrapped(r.buffer.wrptr, r.buffer.code),
    }
}

// An outcome done, from registers with the counter as the event finds it, with the entry in focus and the
// record e that it would put.
#[tactic(auto, unfolding(crate::specs::Transfers::done_of))]
pub fn done(r: Registers, old: Entry, e: Entry, rasemu: bool, o: Outcome) -> Decision
    ensures { result ≡ done_of r old e rasemu o }
{
    match o {
        Outcome::Nothing => accept(r, value(Outcome::Nothing)),
        Outcome::Record => accept_put(
            with_cycles(advance(r), restart(rasemu)),
            value(Outcome::Record),
            stamp(e, r.cycles),
        ),
        Outcome::Pop => accept_put(retreat(r), value(Outcome::Pop), pop(old)),
        Outcome::Swap => accept_put(r, value(Outcome::Swap), e),
        Outcome::Freeze => accept(with_frozen(r), value(Outcome::Freeze)),
    }
}

// A decision with the mode changed.
fn in_mode(d: Decision, m: Mode) -> Decision
    ensures { result ≡ in_mode d m }
{
    Decision {
        registers: with_mode(d.registers, m),
        ..d
    }
}

// The record of a trap or return.
#[tactic(auto, unfolding(crate::specs::Transfers::crossing))]
fn crossed(r: Registers, target: Mode, source_pc: u64, target_pc: u64, number: u64) -> Entry
    ensures { result ≡ crossing r target source_pc target_pc number }
{
    entry_for(
        side_pc(r, r.mode, source_pc),
        side_pc(r, target, target_pc),
        false,
        number,
    )
}

// A possible trap or return to a mode, with its cycles: its outcome done with the record e, and the mode changed.
#[tactic(auto, unfolding(crate::specs::Transfers::crossed_of))]
#[inline(always)]
fn cross(r: Registers, old: Entry, target: Mode, cycles: u32, e: Entry, o: Outcome) -> Decision
    ensures { result ≡ crossed_of r old target cycles e o }
{
    let ra = rasemu(r, r.mode, target);
    in_mode(done(tally(r, ra, cycles), old, e, ra, o), target)
}

#[tactic(auto, unfolding(crate::specs::Transfers::taken_trap))]
fn take_trap(r: Registers, old: Entry, t: TrapTo) -> Decision
    ensures { result ≡ taken_trap r old t }
{
    let e = crossed(r, t.mode, t.epc, t.handler, trap_type(t.interrupt));
    cross(r, old, t.mode, t.cycles, e, trap_outcome(r, t))
}

// A trap, possible or not. Number 5 is the caller's to look for.
#[tactic(auto, unfolding(crate::specs::Transfers::trap_of))]
pub fn trap(r: Registers, old: Entry, t: TrapTo) -> Decision
    ensures { result ≡ trap_of r old t }
{
    if possible_trap(r.mode, t.mode) {
        take_trap(r, old, t)
    } else {
        refuse(r, Refusal::ChangeNotPossible)
    }
}

#[tactic(auto, unfolding(crate::specs::Transfers::taken_return))]
fn take_return(r: Registers, old: Entry, t: ReturnTo) -> Decision
    ensures { result ≡ taken_return r old t }
{
    let e = crossed(r, t.mode, t.pc, t.target, RETURN_TYPE);
    cross(r, old, t.mode, t.cycles, e, return_outcome(r, t.mode))
}

// A trap return, possible or not. Number 5 is the caller's to look for.
#[tactic(auto, unfolding(crate::specs::Transfers::return_of))]
pub fn trap_return(r: Registers, old: Entry, t: ReturnTo) -> Decision
    ensures { result ≡ return_of r old t }
{
    if possible_return(r.mode, t.mode) {
        take_return(r, old, t)
    } else {
        refuse(r, Refusal::ChangeNotPossible)
    }
}
