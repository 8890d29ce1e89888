// CSRs by their numbers, and accesses to them.
use machine::{CsrAccess, Event, Operation};

pub(crate) const SCTRCTL: u64 = 0x14E;

pub(crate) const SCTRSTATUS: u64 = 0x14F;

pub(crate) const SISELECT: u64 = 0x150;

pub(crate) const SIREG: u64 = 0x151;

pub(crate) const SIREG2: u64 = 0x152;

pub(crate) const SIREG3: u64 = 0x153;

pub(crate) const SCTRDEPTH: u64 = 0x15F;

pub(crate) const VSCTRCTL: u64 = 0x24E;

pub(crate) const VSISELECT: u64 = 0x250;

pub(crate) const VSIREG2: u64 = 0x252;

pub(crate) const MCTRCTL: u64 = 0x34E;

pub(crate) fn access(operation: Operation, number: u64, operand: u64) -> Event {
    Event::Access(CsrAccess {
        operation,
        number,
        operand,
    })
}
