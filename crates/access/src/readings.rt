// What the registers read as.
ghost use Rattle.std.specs.Prelude.{◌≡◌};
ghost use Rattle.access.specs.Readings.{frozen_bit, status_of, stored_of, word_of, is_entry, entry_reading, control_reading, reading_of};

use csr::steps::select;
use csr::{Csr, View};
use machine::controls::SCTRCTL_MASK;
use machine::depths::in_depth;
use machine::entries::defined;
use machine::{Buffer, ControlWords, Entry, Registers};

// FROZEN at its place in sctrstatus.
fn frozen_bit(frozen: bool) -> u64
    ensures { result ≡ frozen_bit frozen }
{
    if frozen { 0x8000_0000 } else { 0 }
}

// sctrstatus as it reads.
#[tactic(auto, unfolding(crate::specs::Readings::status_of))]
pub fn status(b: Buffer) -> u64
    ensures { result ≡ status_of b }
{
    bits::low(b.wrptr, 8) + frozen_bit(b.frozen)
}

// Word k of an entry as it is stored.
#[tactic(auto, unfolding(crate::specs::Readings::stored_of))]
fn stored(e: Entry, k: u64) -> u64
    ensures { result ≡ stored_of e k }
{
    match k {
        0 => e.ctrsource,
        1 => e.ctrtarget,
        _ => e.ctrdata,
    }
}

// Word k of an entry as it reads.
#[tactic(auto, unfolding(crate::specs::Readings::word_of))]
fn word(e: Entry, k: u64) -> u64
    ensures { result ≡ word_of e k }
{
    defined(k, stored(e, k))
}

// Whether a selection of the window is an entry at the current depth.
#[tactic(auto, unfolding(crate::specs::Readings::is_entry))]
pub fn is_entry(b: Buffer, selection: u64) -> bool
    ensures { result ≡ is_entry b selection }
{
    in_depth(bits::low(selection, 8), b.code)
}

#[tactic(auto, unfolding(crate::specs::Readings::entry_reading))]
fn entry_word(b: Buffer, selection: u64, old: Entry, k: u64) -> u64
    ensures { result ≡ entry_reading b selection old k }
{
    if is_entry(b, selection) {
        word(old, k)
    } else {
        0
    }
}

#[tactic(auto, unfolding(crate::specs::Readings::control_reading))]
fn control_reading(c: ControlWords, v: View) -> u64
    ensures { result ≡ control_reading c v }
{
    match v {
        View::Machine => c.mctrctl,
        View::Supervisor => bits::masked(c.mctrctl, SCTRCTL_MASK),
        View::Guest => c.vsctrctl,
    }
}

// What a register reads as.
#[tactic(auto, unfolding(crate::specs::Readings::reading_of))]
pub fn reading(r: Registers, old: Entry, g: Csr) -> u64
    ensures { result ≡ reading_of r old g }
{
    match g {
        Csr::Control(v) => control_reading(r.controls, v),
        Csr::Select(v) => select(r.selects, v),
        Csr::Ireg(v, k) => entry_word(r.buffer, select(r.selects, v), old, k),
        Csr::Depth => r.buffer.code,
        Csr::Status => status(r.buffer),
        Csr::Unlisted => 0,
    }
}
