// Which modes are on, and which control register speaks for a mode or a transition.
ghost use Rattle.std.specs.Prelude.{◌≡◌};
ghost use Rattle.machine.specs.Modes.{is_virtual, control_of, switch_of, on_of, governing_of};

use crate::controls::is_set;
use crate::{ControlBit, ControlRegister, Mode, Registers};

// Whether V=1 in a mode.
pub fn is_virtual(m: Mode) -> bool
    ensures { result ≡ is_virtual m }
{
    matches!(m, Mode::VU | Mode::VS)
}

// The control register of a mode.
#[tactic(auto, unfolding(crate::specs::Modes::control_of))]
pub fn control(m: Mode) -> ControlRegister
    ensures { result ≡ control_of m }
{
    if is_virtual(m) {
        ControlRegister::Vsctrctl
    } else {
        ControlRegister::Mctrctl
    }
}

fn switch_bit(m: Mode) -> ControlBit
    ensures { result ≡ switch_of m }
{
    match m {
        Mode::U | Mode::VU => ControlBit::U,
        Mode::S | Mode::VS => ControlBit::S,
        Mode::M => ControlBit::M,
    }
}

// Whether a mode is on for recording.
#[tactic(auto, unfolding(crate::specs::Modes::on_of))]
pub fn is_on(r: Registers, m: Mode) -> bool
    ensures { result ≡ on_of r m }
{
    is_set(r, control(m), switch_bit(m))
}

// The control register that governs a transition: vsctrctl between V=0 and V=1.
#[tactic(auto, unfolding(crate::specs::Modes::governing_of))]
pub fn governing(source: Mode, target: Mode) -> ControlRegister
    ensures { result ≡ governing_of source target }
{
    if is_virtual(target) {
        ControlRegister::Vsctrctl
    } else {
        control(source)
    }
}
