// The bits of the control registers.
ghost use Rattle.std.specs.Prelude.{◌≡◌, eqb};
ghost use Rattle.bits.specs.Words.{keep};
ghost use Rattle.machine.specs.Controls.{place_of, control_word, is_set};

use crate::{ControlBit, ControlRegister, Registers};

pub const MCTRCTL_MASK: u64 = 0x0000_FF3E_0000_1B87;

pub const SCTRCTL_MASK: u64 = 0x0000_FF3E_0000_1983;

// M and MTE, which a write through sctrctl keeps.
pub const MACHINE_MASK: u64 = 0x204;

fn place(b: ControlBit) -> u32
    ensures { result ≡ place_of b }
{
    b as u32
}

// The word that a control register holds.
pub fn control_word(r: Registers, c: ControlRegister) -> u64
    ensures { result ≡ control_word r c }
{
    match c {
        ControlRegister::Mctrctl => r.controls.mctrctl,
        ControlRegister::Vsctrctl => r.controls.vsctrctl,
    }
}

// Whether a control register has a bit set.
#[tactic(auto, unfolding(crate::specs::Controls::is_set))]
pub fn is_set(r: Registers, c: ControlRegister, b: ControlBit) -> bool
    ensures { result ≡ is_set r c b }
{
    bits::bit(control_word(r, c), place(b))
}

// Whether a control word has no bit outside a mask.
pub fn within(x: u64, mask: u64) -> bool
    ensures { result ≡ eqb (keep mask x) x }
{
    bits::masked(x, mask) == x
}
