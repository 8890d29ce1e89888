// What a write does to the registers and to the entry in focus.
ghost use Rattle.std.specs.Prelude.{◌≡◌};
ghost use Rattle.access.specs.Writes.{control_written, select_written, depth_written, status_written, registers_written, with_stored, with_word, entry_written, effect_written};

use crate::readings::is_entry;
use csr::steps::select;
use csr::{Csr, View};
use machine::controls::{MACHINE_MASK, MCTRCTL_MASK, SCTRCTL_MASK};
use machine::depths::{capped, wrapped};
use machine::entries::defined;
use machine::regs::{with_buffer, with_controls, with_no_cycles, with_selects};
use machine::{Buffer, ControlWords, Effect, Entry, Registers, Selects};

#[tactic(auto, unfolding(crate::specs::Writes::control_written))]
fn write_control(c: ControlWords, v: View, x: u64) -> ControlWords
    ensures { result ≡ control_written c v x }
{
    match v {
        View::Machine => ControlWords {
            mctrctl: bits::masked(x, MCTRCTL_MASK),
            ..c
        },
        View::Supervisor => ControlWords {
            mctrctl: bits::join(
                bits::masked(x, SCTRCTL_MASK),
                bits::masked(c.mctrctl, MACHINE_MASK),
            ),
            ..c
        },
        View::Guest => ControlWords {
            vsctrctl: bits::masked(x, SCTRCTL_MASK),
            ..c
        },
    }
}

#[tactic(auto, unfolding(crate::specs::Writes::select_written))]
fn write_select(s: Selects, v: View, x: u64) -> Selects
    ensures { result ≡ select_written s v x }
{
    match v {
        View::Machine => s,
        View::Supervisor => Selects { siselect: x, ..s },
        View::Guest => Selects { vsiselect: x, ..s },
    }
}

#[tactic(auto, unfolding(crate::specs::Writes::depth_written))]
fn write_depth(b: Buffer, x: u64) -> Buffer
    ensures { result ≡ depth_written b x }
{
    let code = capped(bits::low(x, 3));
    Buffer {
        code,
        wrptr: wrapped(b.wrptr, code),
        ..b
    }
}

#[tactic(auto, unfolding(crate::specs::Writes::status_written))]
fn write_status(b: Buffer, x: u64) -> Buffer
    ensures { result ≡ status_written b x }
{
    Buffer {
        wrptr: wrapped(bits::low(x, 8), b.code),
        frozen: bits::bit(x, 31),
        ..b
    }
}

// The registers after a write; that of a control register starts the cycle counter again.
#[tactic(auto, unfolding(crate::specs::Writes::registers_written))]
pub fn registers_written(r: Registers, g: Csr, x: u64) -> Registers
    ensures { result ≡ registers_written r g x }
{
    match g {
        Csr::Control(v) => with_no_cycles(with_controls(r, write_control(r.controls, v, x))),
        Csr::Select(v) => with_selects(r, write_select(r.selects, v, x)),
        Csr::Depth => with_buffer(r, write_depth(r.buffer, x)),
        Csr::Status => with_buffer(r, write_status(r.buffer, x)),
        Csr::Ireg(_, _) | Csr::Unlisted => r,
    }
}

#[tactic(auto, unfolding(crate::specs::Writes::with_stored))]
fn with_stored(e: Entry, k: u64, x: u64) -> Entry
    ensures { result ≡ with_stored e k x }
{
    match k {
        0 => Entry { ctrsource: x, ..e },
        1 => Entry { ctrtarget: x, ..e },
        _ => Entry { ctrdata: x, ..e },
    }
}

// Word k written: its defined bits.
#[tactic(auto, unfolding(crate::specs::Writes::with_word))]
fn with_word(e: Entry, k: u64, x: u64) -> Entry
    ensures { result ≡ with_word e k x }
{
    with_stored(e, k, defined(k, x))
}

// An entry has words 0, 1 and 2 alone.
#[tactic(auto, unfolding(crate::specs::Writes::entry_written))]
fn entry_written(b: Buffer, selection: u64, old: Entry, k: u64, x: u64) -> Effect
    ensures { result ≡ entry_written b selection old k x }
{
    if is_entry(b, selection) && k < 3 {
        Effect::Put(with_word(old, k, x))
    } else {
        Effect::Keep
    }
}

// The effect of a write on the entries.
#[tactic(auto, unfolding(crate::specs::Writes::effect_written))]
pub fn effect_written(r: Registers, old: Entry, g: Csr, x: u64) -> Effect
    ensures { result ≡ effect_written r old g x }
{
    match g {
        Csr::Ireg(v, k) => entry_written(r.buffer, select(r.selects, v), old, k, x),
        _ => Effect::Keep,
    }
}
