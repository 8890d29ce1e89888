// What MISP met: the transfers that were recorded, popped or swapped, and the accesses to ctrtarget.
use crate::csrs::{SIREG2, VSIREG2};
use crate::lines::put_named_row;
use crate::steps::Step;
use machine::depths::physical;
use machine::modes::is_on;
use machine::{Buffer, CsrAccess, Event, Mode, Outcome, RetiredWord};
use recorder::{ENTRIES, Entries};
use test_support::count_at;
use text::Page;
use trace::codes::operation_code;

const CASES: usize = 8;

// By the operation and two bits.
const ACCESSES: usize = 16;

// Records of words, pops and swaps, each by the flag, bit 0 of the target and MISP of the entry before;
// records of traps and returns, by whether the target mode is on in place of the flag; and accesses to
// ctrtarget that were granted, by the operation, MISP as it was read and bit 0 of the operand.
#[derive(Default, Drop)]
pub(crate) struct Mispredictions {
    records: [u64; CASES],
    pops: [u64; CASES],
    swaps: [u64; CASES],
    crossings: [u64; CASES],
    accesses: [u64; ACCESSES],
}

// The entries that a transfer may change, before it does: ctrtarget at WRPTR, and of logical entry 0.
#[derive(Clone, Copy)]
pub(crate) struct Before {
    at_wrptr: u64,
    newest: u64,
}

impl Before {
    pub(crate) fn read(entries: &Entries, b: Buffer) -> Before {
        let newest = physical(b.code, b.wrptr, 0);
        Before {
            at_wrptr: entries.ctrtarget[b.wrptr as usize % ENTRIES],
            newest: entries.ctrtarget[newest as usize % ENTRIES],
        }
    }
}

fn case(is_set: bool, target: u64, old: u64) -> u64 {
    u64::from(is_set) | target % 2 << 1 | old % 2 << 2
}

impl Mispredictions {
    fn add_word(&mut self, s: &Step, w: RetiredWord, old: Before) {
        let at_wrptr = case(w.mispredicted, w.target, old.at_wrptr);
        let newest = case(w.mispredicted, w.target, old.newest);
        match s.outcome {
            Some(Outcome::Record) => count_at(&mut self.records, at_wrptr),
            Some(Outcome::Pop) => count_at(&mut self.pops, newest),
            Some(Outcome::Swap) => count_at(&mut self.swaps, newest),
            _ => {}
        }
    }

    // A trap or return.
    fn add_crossing(&mut self, s: &Step, to: Mode, target: u64, old: Before) {
        if s.outcome == Some(Outcome::Record) {
            count_at(
                &mut self.crossings,
                case(is_on(s.before, to), target, old.at_wrptr),
            );
        }
    }

    // These two reach ctrtarget.
    fn add_access(&mut self, a: CsrAccess, reading: u64) {
        if matches!(a.number, SIREG2 | VSIREG2) {
            count_at(
                &mut self.accesses,
                operation_code(a.operation) << 2 | reading % 2 << 1 | a.operand % 2,
            );
        }
    }

    // A step that was answered, from registers that are good.
    pub(crate) fn add_step(&mut self, s: &Step, old: Before) {
        match s.event {
            Event::Retired(w) => self.add_word(s, w, old),
            Event::Trap(t) => self.add_crossing(s, t.mode, t.handler, old),
            Event::TrapReturn(t) => self.add_crossing(s, t.mode, t.target, old),
            Event::Access(a) => self.add_access(a, s.value),
            Event::Sctrclr | Event::Host(_) => {}
        }
    }

    pub(crate) fn put(&self, page: &mut Page) {
        page.put(b"  MISP, by the flag, bit 0 of the target and MISP before\n");
        put_named_row(page, b"    records", &self.records);
        put_named_row(page, b"    pops", &self.pops);
        put_named_row(page, b"    swaps", &self.swaps);
        put_named_row(
            page,
            b"    traps and returns, by the target mode in place of the flag",
            &self.crossings,
        );
        put_named_row(
            page,
            b"  accesses to ctrtarget, by operation, MISP and bit 0 of the operand",
            &self.accesses,
        );
    }
}
