// What a CSR number reaches, and what that register means in a mode.
ghost use Rattle.std.specs.Prelude.{◌≡◌};
ghost use Rattle.csr.specs.Numbers.{register_of, view_in, csr_in};

use crate::{Csr, View};
use machine::Mode;
use machine::modes::is_virtual;

// The register of a CSR number.
#[tactic(auto, using(std::proofs::lemmas::Bool::Decides::nat_tests), unfolding(crate::specs::Numbers::register_of, crate::specs::Numbers::supervisor_register, crate::specs::Numbers::guest_register))]
pub fn register(number: u64) -> Csr
    ensures { result ≡ register_of number }
{
    match number {
        0x14E => Csr::Control(View::Supervisor),
        0x14F => Csr::Status,
        0x150 => Csr::Select(View::Supervisor),
        0x151..=0x153 => Csr::Ireg(View::Supervisor, number - 0x151),
        0x155..=0x157 => Csr::Ireg(View::Supervisor, number - 0x152),
        0x15F => Csr::Depth,
        0x24E => Csr::Control(View::Guest),
        0x250 => Csr::Select(View::Guest),
        0x251..=0x253 => Csr::Ireg(View::Guest, number - 0x251),
        0x255..=0x257 => Csr::Ireg(View::Guest, number - 0x252),
        0x34E => Csr::Control(View::Machine),
        _ => Csr::Unlisted,
    }
}

// Whose register is meant in a mode.
#[tactic(auto, unfolding(crate::specs::Numbers::view_in))]
pub fn view_in(m: Mode, v: View) -> View
    ensures { result ≡ view_in m v }
{
    match v {
        View::Supervisor if is_virtual(m) => View::Guest,
        _ => v,
    }
}

// What a register means in a mode.
#[tactic(auto, unfolding(crate::specs::Numbers::csr_in))]
pub fn csr_in(m: Mode, g: Csr) -> Csr
    ensures { result ≡ csr_in m g }
{
    match g {
        Csr::Control(v) => Csr::Control(view_in(m, v)),
        Csr::Select(v) => Csr::Select(view_in(m, v)),
        Csr::Ireg(v, k) => Csr::Ireg(view_in(m, v), k),
        Csr::Depth | Csr::Status | Csr::Unlisted => g,
    }
}
