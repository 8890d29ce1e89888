// Number 5: whether registers are free of it.
ghost use Rattle.std.specs.Prelude.{◌≡◌};
ghost use Rattle.machine.specs.Good.{good_buffer, good_controls, good_cycles, good_of};

use crate::controls::{MCTRCTL_MASK, SCTRCTL_MASK, within};
use crate::depths::{TOP_CODE, in_depth};
use crate::{Buffer, ControlWords, Cycles, Registers};

#[tactic(auto, unfolding(crate::specs::Good::good_buffer))]
fn is_good_buffer(b: Buffer) -> bool
    ensures { result ≡ good_buffer b }
{
    b.code <= TOP_CODE && in_depth(b.wrptr, b.code)
}

#[tactic(auto, unfolding(crate::specs::Good::good_controls))]
fn is_good_controls(c: ControlWords) -> bool
    ensures { result ≡ good_controls c }
{
    within(c.mctrctl, MCTRCTL_MASK) && within(c.vsctrctl, SCTRCTL_MASK)
}

// The cycle counter is below this.
pub const COUNTER_LIMIT: u64 = 0x800_0000;

fn is_good_cycles(c: Cycles) -> bool
    ensures { result ≡ good_cycles c }
{
    c.counter < COUNTER_LIMIT
}

// Whether the registers are free of number 5.
#[tactic(auto, unfolding(crate::specs::Good::good_of))]
pub fn is_good(r: Registers) -> bool
    ensures { result ≡ good_of r }
{
    is_good_buffer(r.buffer) && is_good_controls(r.controls) && is_good_cycles(r.cycles)
}
