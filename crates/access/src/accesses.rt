// A register access, SCTRCLR and the host's event.
ghost use Rattle.std.specs.Prelude.{◌≡◌};
ghost use Rattle.access.specs.Accesses.{operand_of, write_of, operated_of, granted_of, access_to, access_of, access_focus, sctrclr_of, host_of};

use crate::readings::reading;
use crate::writes::{effect_written, registers_written};
use csr::Csr;
use csr::numbers::{csr_in, register};
use csr::steps::{facts_of, refusal, sctrclr_facts, selection};
use machine::answers::{accept, accept_clear, number, refuse};
use machine::depths::physical;
use machine::regs::{with_enables, with_no_cycles};
use machine::{CsrAccess, Decision, Enables, Entry, Operation, Registers};

// What an operation writes, given the old reading.
#[tactic(auto, unfolding(crate::specs::Accesses::operand_of))]
fn operand(o: Operation, v: u64, x: u64) -> u64
    ensures { result ≡ operand_of o v x }
{
    match o {
        Operation::Read => v,
        Operation::Write => x,
        Operation::Set => bits::join(v, x),
        Operation::Clear => bits::strip(v, x),
    }
}

// A register is written.
#[tactic(auto, unfolding(crate::specs::Accesses::write_of))]
fn write(r: Registers, old: Entry, g: Csr, v: u64, x: u64) -> Decision
    ensures { result ≡ write_of r old g v x }
{
    Decision {
        number: number(Ok(())),
        value: v,
        registers: registers_written(r, g, x),
        effect: effect_written(r, old, g, x),
    }
}

#[tactic(auto, unfolding(crate::specs::Accesses::operated_of))]
fn operated(r: Registers, old: Entry, g: Csr, o: Operation, v: u64, x: u64) -> Decision
    ensures { result ≡ operated_of r old g o v x }
{
    if o == Operation::Read {
        accept(r, v)
    } else {
        write(r, old, g, v, operand(o, v, x))
    }
}

#[tactic(auto, unfolding(crate::specs::Accesses::granted_of))]
fn granted(r: Registers, old: Entry, g: Csr, o: Operation, x: u64) -> Decision
    ensures { result ≡ granted_of r old g o x }
{
    operated(r, old, g, o, reading(r, old, g), x)
}

// Granted, unless the steps refuse.
#[tactic(auto, unfolding(crate::specs::Accesses::access_to))]
fn access_register(r: Registers, old: Entry, g: Csr, o: Operation, x: u64) -> Decision
    ensures { result ≡ access_to r old g o x }
{
    match refusal(r, facts_of(r, g)) {
        Ok(()) => granted(r, old, csr_in(r.mode, g), o, x),
        Err(e) => refuse(r, e),
    }
}

// An access to a CSR number, given the entry in focus. Number 5 is the caller's to look for.
#[tactic(auto, unfolding(crate::specs::Accesses::access_of))]
pub fn access(r: Registers, old: Entry, a: CsrAccess) -> Decision
    ensures { result ≡ access_of r old a }
{
    access_register(r, old, register(a.number), a.operation, a.operand)
}

// The physical entry that an access is about.
#[tactic(auto, unfolding(crate::specs::Accesses::access_focus))]
pub fn focus(r: Registers, number: u64) -> u64
    ensures { result ≡ access_focus r number }
{
    let i = selection(r.selects, csr_in(r.mode, register(number)));
    physical(r.buffer.code, r.buffer.wrptr, bits::low(i, 8))
}

// SCTRCLR: all entries cleared, and the cycle counter with them, unless the steps refuse. Number 5 is the
// caller's to look for.
#[tactic(auto, unfolding(crate::specs::Accesses::sctrclr_of))]
pub fn sctrclr(r: Registers) -> Decision
    ensures { result ≡ sctrclr_of r }
{
    match refusal(r, sctrclr_facts()) {
        Ok(()) => accept_clear(with_no_cycles(r)),
        Err(e) => refuse(r, e),
    }
}

// The host sets the two state-enable bits. Number 5 is the caller's to look for.
#[tactic(auto, unfolding(crate::specs::Accesses::host_of))]
pub fn host(r: Registers, e: Enables) -> Decision
    ensures { result ≡ host_of r e }
{
    accept(with_enables(r, e), 0)
}
