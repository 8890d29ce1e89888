// What the control registers say of traps and of transfer types.
ghost use Rattle.std.specs.Prelude.{◌≡◌, ◌+◌, ◌<◌, true};
ghost use Rattle.machine.specs.Controls.{is_set};
ghost use Rattle.machine.specs.Modes.{control_of};
ghost use Rattle.qualifying.specs.Filters.{freezes_of, external_to_s, external_to_m, external_of, is_type, inhibit_bit, inhibited_of, VSTE, STE, MTE};

use machine::controls::{control_word, is_set};
use machine::modes::control;
use machine::{ControlBit, ControlRegister, Mode, Registers, TrapTo};

// Whether the control register of a mode has a bit set.
fn has(r: Registers, m: Mode, b: ControlBit) -> bool
    ensures { result ≡ is_set r (control_of m) b }
{
    is_set(r, control(m), b)
}

// Whether a trap sets FROZEN.
#[tactic(auto, unfolding(crate::specs::Filters::freezes_of))]
pub fn freezes(r: Registers, t: TrapTo) -> bool
    ensures { result ≡ freezes_of r t }
{
    if t.interrupt {
        t.cause == 13 && has(r, t.mode, ControlBit::LCOFIFRZ)
    } else {
        t.cause == 3 && has(r, t.mode, ControlBit::BPFRZ)
    }
}

// The external trap bits of VS, of S and of M.
fn vste(r: Registers) -> bool
    ensures { result ≡ VSTE r }
{
    is_set(r, ControlRegister::Vsctrctl, ControlBit::STE)
}

fn ste(r: Registers) -> bool
    ensures { result ≡ STE r }
{
    is_set(r, ControlRegister::Mctrctl, ControlBit::STE)
}

fn mte(r: Registers) -> bool
    ensures { result ≡ MTE r }
{
    is_set(r, ControlRegister::Mctrctl, ControlBit::MTE)
}

// The external trap bits of S and of VS, if it lies between.
#[tactic(auto, unfolding(crate::specs::Filters::external_to_s))]
fn external_to_s(r: Registers, source: Mode) -> bool
    ensures { result ≡ external_to_s r source }
{
    if source == Mode::VU {
        vste(r) && ste(r)
    } else {
        ste(r)
    }
}

// The external trap bits of M and of every mode between.
#[tactic(auto, unfolding(crate::specs::Filters::external_to_m))]
fn external_to_m(r: Registers, source: Mode) -> bool
    ensures { result ≡ external_to_m r source }
{
    match source {
        Mode::S | Mode::M => mte(r),
        _ => external_to_s(r, source) && mte(r),
    }
}

// Whether the external trap bits of the target and of every mode between are set.
#[tactic(auto, unfolding(crate::specs::Filters::external_of))]
pub fn external(r: Registers, source: Mode, target: Mode) -> bool
    ensures { result ≡ external_of r source target }
{
    match target {
        Mode::VS => vste(r),
        Mode::S => external_to_s(r, source),
        Mode::M => external_to_m(r, source),
        Mode::U | Mode::VU => false,
    }
}

// Whether a type may be recorded.
fn is_type(number: u64) -> bool
    ensures { result ≡ is_type number }
{
    bits::is_from_to(1, 5, number) || bits::is_from_to(8, 15, number)
}

// The bit that is about a type lies 32 above its number.
fn inhibit_place(number: u64) -> u32
    requires { number < 16 }
    ensures { result ≡ 32 + number }
{
    32 + number as u32
}

#[tactic(auto, using(crate::proofs::Laws::type_lt, crate::proofs::Laws::at_inhibit_place))]
fn has_inhibit_bit(r: Registers, c: ControlRegister, number: u64) -> bool
    requires { is_type number ≡ true }
    ensures { result ≡ is_set r c (inhibit_bit number) }
{
    bits::bit(control_word(r, c), inhibit_place(number))
}

// Whether a control register inhibits a transfer type.
#[tactic(auto, unfolding(crate::specs::Filters::inhibited_of))]
pub fn inhibited(r: Registers, c: ControlRegister, number: u64) -> bool
    ensures { result ≡ inhibited_of r c number }
{
    if number == 4 {
        !has_inhibit_bit(r, c, number)
    } else {
        !is_type(number) || has_inhibit_bit(r, c, number)
    }
}
