// What the cycle counter met: records by their CCE, what counted and what did not, and what started it
// again.
use crate::events::{cycles_of, is_off};
use crate::lines::put_named_row;
use crate::steps::Step;
use machine::good::COUNTER_LIMIT;
use machine::{Cycles, Event, Outcome};
use sweep_support::lines::put_count;
use test_support::{count, count_at};
use text::Page;

const EXPONENTS: usize = 16;

// Ordinary records by their CCE, and those with CCV 0 and with CCV 1; records and swaps under RASEMU;
// traps from a mode that is off into one that is on, recorded with a count.
#[derive(Default, Drop)]
struct Records {
    cce: [u64; EXPONENTS],
    invalid: u64,
    valid: u64,
    emulated: u64,
    from_off: u64,
}

// Retired words, traps and returns that left the counter at its top, those that RASEMU made zero it,
// freezing traps whose own cycles counted; and cycles that did not count: of modes that are off, and of
// others while FROZEN was set.
#[derive(Default, Drop)]
struct Counted {
    top: u64,
    zeroed: u64,
    freezing: u64,
    off: u64,
    frozen: u64,
}

// What started a counter again that had a count or a CCV: writes of control registers, those among them
// that changed none, and SCTRCLR.
#[derive(Default, Drop)]
struct Restarts {
    written: u64,
    unchanged: u64,
    cleared: u64,
}

#[derive(Default, Drop)]
pub(crate) struct Counts {
    records: Records,
    counted: Counted,
    restarts: Restarts,
}

// No count, and CCV 0 to come.
fn is_empty(c: Cycles) -> bool {
    c.counter == 0 && !c.ccv
}

fn was_emptied(s: &Step) -> bool {
    !is_empty(s.before.cycles) && is_empty(s.after.cycles)
}

impl Records {
    // After an ordinary record the next one has CCV 1, and after one under RASEMU 0.
    fn add_step(&mut self, s: &Step, ctrdata: u64) {
        let old = s.before.cycles;
        match s.outcome {
            Some(Outcome::Record) if s.after.cycles.ccv => {
                count_at(&mut self.cce, ctrdata / 0x1000_0000 % 16);
                count(&mut self.invalid, !old.ccv);
                count(&mut self.valid, old.ccv);
                count(&mut self.from_off, is_off(s.before) && old.counter > 0);
            }
            Some(Outcome::Record | Outcome::Swap) => count(&mut self.emulated, true),
            _ => {}
        }
    }

    fn put(&self, page: &mut Page) {
        put_named_row(page, b"  records by CCE", &self.cce);
        put_count(page, b"  records with CCV 0 ", self.invalid);
        put_count(page, b"  records with CCV 1 ", self.valid);
        put_count(page, b"  records and swaps under RASEMU ", self.emulated);
        put_count(
            page,
            b"  records from off to on with a count ",
            self.from_off,
        );
    }
}

impl Counted {
    fn add_step(&mut self, s: &Step) {
        let counter = s.after.cycles.counter;
        let recorded = s.outcome == Some(Outcome::Record);
        let froze = s.outcome == Some(Outcome::Freeze);
        let off = is_off(s.before);
        let passed = cycles_of(s.event) > 0;
        count(&mut self.top, counter == COUNTER_LIMIT - 1);
        count(&mut self.zeroed, !recorded && was_emptied(s));
        count(
            &mut self.freezing,
            froze && counter > s.before.cycles.counter,
        );
        count(&mut self.off, passed && off);
        count(&mut self.frozen, passed && s.before.buffer.frozen && !off);
    }

    fn put(&self, page: &mut Page) {
        put_count(page, b"  counters at their top ", self.top);
        put_count(page, b"  counters zeroed by RASEMU ", self.zeroed);
        put_count(page, b"  freezing traps counted ", self.freezing);
        put_count(page, b"  cycles of modes that are off ", self.off);
        put_count(page, b"  cycles while frozen ", self.frozen);
    }
}

impl Restarts {
    fn add_step(&mut self, s: &Step) {
        let same = s.before.controls == s.after.controls;
        match s.event {
            Event::Access(_) if was_emptied(s) => {
                count(&mut self.written, true);
                count(&mut self.unchanged, same);
            }
            Event::Sctrclr => count(&mut self.cleared, was_emptied(s)),
            _ => {}
        }
    }

    fn put(&self, page: &mut Page) {
        put_count(page, b"  restarts by a control write ", self.written);
        put_count(
            page,
            b"  restarts by one that changes nothing ",
            self.unchanged,
        );
        put_count(page, b"  restarts by SCTRCLR ", self.cleared);
    }
}

impl Counts {
    // A step from good registers that was answered, with the ctrdata that is after it at WRPTR of the
    // registers before it.
    pub(crate) fn add_step(&mut self, s: &Step, ctrdata: u64) {
        match s.outcome {
            Some(_) => {
                self.records.add_step(s, ctrdata);
                self.counted.add_step(s);
            }
            None => self.restarts.add_step(s),
        }
    }

    pub(crate) fn put(&self, page: &mut Page) {
        self.records.put(page);
        self.counted.put(page);
        self.restarts.put(page);
    }
}
