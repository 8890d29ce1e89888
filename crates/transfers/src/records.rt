// What a record, a pop and a swap make of an entry and of WRPTR.
ghost use Rattle.std.specs.Prelude.{◌≡◌};
ghost use Rattle.transfers.specs.Records.{entry_for, side_pc, popped, advanced, retreated};

use machine::depths::{physical, wrapped};
use machine::modes::is_on;
use machine::regs::with_wrptr;
use machine::{Entry, Mode, Registers};

// The entry of a record.
#[tactic(auto, unfolding(crate::specs::Records::entry_for))]
pub fn entry_for(pc: u64, target: u64, misp: bool, number: u64) -> Entry
    ensures { result ≡ entry_for pc target misp number }
{
    Entry {
        ctrsource: bits::set_bit0(pc),
        ctrtarget: bits::with_bit0(target, misp),
        ctrdata: number,
    }
}

// The pc of one side of a trap or return.
#[tactic(auto, unfolding(crate::specs::Records::side_pc))]
pub fn side_pc(r: Registers, m: Mode, pc: u64) -> u64
    ensures { result ≡ side_pc r m pc }
{
    if is_on(r, m) { pc } else { 0 }
}

// An entry without V.
#[tactic(auto, unfolding(crate::specs::Records::popped))]
pub fn pop(e: Entry) -> Entry
    ensures { result ≡ popped e }
{
    Entry {
        ctrsource: bits::clear_bit0(e.ctrsource),
        ..e
    }
}

// WRPTR one up.
#[tactic(auto, using(machine::proofs::DepthLaws::wrapped_lt), unfolding(crate::specs::Records::advanced))]
pub fn advance(r: Registers) -> Registers
    ensures { result ≡ advanced r }
{
    with_wrptr(
        r,
        wrapped(wrapped(r.buffer.wrptr, r.buffer.code) + 1, r.buffer.code),
    )
}

// WRPTR one down.
#[tactic(auto, unfolding(crate::specs::Records::retreated))]
pub fn retreat(r: Registers) -> Registers
    ensures { result ≡ retreated r }
{
    with_wrptr(r, physical(r.buffer.code, r.buffer.wrptr, 0))
}
