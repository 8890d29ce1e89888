// The registers at reset, and with one group or field changed.
ghost use Rattle.std.specs.Prelude.{◌≡◌};
ghost use Rattle.machine.specs.Regs.{reset_registers, with_mode, with_controls, with_buffer, with_selects, with_wrptr, with_frozen, with_enables, with_cycles, no_cycles};

use crate::{Buffer, Constants, ControlWords, Cycles, Enables, Mode, Registers, Selects};

// A counter of 0, and CCV 0 for the next record.
pub fn no_cycles() -> Cycles
    ensures { result ≡ no_cycles }
{
    Cycles::default()
}

// The registers at reset, with the switch zc.
pub fn reset(zc: bool) -> Registers
    ensures { result ≡ reset_registers zc }
{
    Registers {
        mode: Mode::M,
        controls: ControlWords::default(),
        buffer: Buffer::default(),
        selects: Selects::default(),
        cycles: Cycles::default(),
        enables: Enables::default(),
        constants: Constants { zc },
    }
}

pub fn with_mode(mut r: Registers, m: Mode) -> Registers
    ensures { result ≡ with_mode r m }
{
    r.mode = m;
    r
}

pub fn with_controls(mut r: Registers, c: ControlWords) -> Registers
    ensures { result ≡ with_controls r c }
{
    r.controls = c;
    r
}

pub fn with_buffer(mut r: Registers, b: Buffer) -> Registers
    ensures { result ≡ with_buffer r b }
{
    r.buffer = b;
    r
}

pub fn with_selects(mut r: Registers, s: Selects) -> Registers
    ensures { result ≡ with_selects r s }
{
    r.selects = s;
    r
}

pub fn with_wrptr(mut r: Registers, x: u64) -> Registers
    ensures { result ≡ with_wrptr r x }
{
    r.buffer.wrptr = x;
    r
}

pub fn with_frozen(mut r: Registers) -> Registers
    ensures { result ≡ with_frozen r }
{
    r.buffer.frozen = true;
    r
}

// The host sets the two state-enable bits.
pub fn with_enables(mut r: Registers, e: Enables) -> Registers
    ensures { result ≡ with_enables r e }
{
    r.enables = e;
    r
}

pub fn with_cycles(mut r: Registers, c: Cycles) -> Registers
    ensures { result ≡ with_cycles r c }
{
    r.cycles = c;
    r
}

pub fn with_no_cycles(mut r: Registers) -> Registers
    ensures { result ≡ with_cycles r no_cycles }
{
    r.cycles = no_cycles();
    r
}
