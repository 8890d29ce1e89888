// How often each depth was met and each change of it, what only the largest depth has, and how many
// entries came back into use.
use crate::steps::Step;
use machine::Outcome;
use machine::depths::depth;
use recorder::Entries;
use sweep_support::lines::{put_count, put_row};
use test_support::{count, count_at};
use text::Page;

const DEPTHS: usize = 5;

// Changes by the depth code before an event and the one after it; events that met WRPTR from 128 up;
// records and pops where WRPTR goes around at depth 256; valid entries that came back into use.
#[derive(Default, Drop)]
pub(crate) struct Depths {
    changes: [[u64; DEPTHS]; DEPTHS],
    upper: u64,
    wraps_up: u64,
    wraps_down: u64,
    back: u64,
}

// How many entries from one index up to another are valid.
fn valid_between(entries: &Entries, first: u64, end: u64) -> u64 {
    entries
        .ctrsource
        .iter()
        .take(end as usize)
        .skip(first as usize)
        .filter(|s| **s % 2 == 1)
        .count() as u64
}

// How many valid entries a change brings back, in a list that had been at the depth of `deepest`.
fn brought_back(entries: &Entries, before: u64, after: u64, deepest: u64) -> u64 {
    if before < after && after <= deepest {
        valid_between(entries, depth(before), depth(after))
    } else {
        0
    }
}

impl Depths {
    // A step from good registers, with the entries after it.
    pub(crate) fn add_step(&mut self, s: &Step, entries: &Entries, deepest: u64) {
        let before = s.before.buffer;
        let after = s.after.buffer;
        let recorded = s.outcome == Some(Outcome::Record);
        let popped = s.outcome == Some(Outcome::Pop);
        if let Some(row) = self.changes.get_mut(before.code as usize) {
            count_at(row, after.code);
        }
        count(&mut self.upper, before.wrptr >= 128);
        count(&mut self.wraps_up, recorded && before.wrptr == 255);
        count(
            &mut self.wraps_down,
            popped && before.wrptr == 0 && before.code == 4,
        );
        let back = brought_back(entries, before.code, after.code, deepest);
        self.back = self.back.wrapping_add(back);
    }

    pub(crate) fn put(&self, page: &mut Page) {
        page.put(b"  depths, by the one before an event and the one after it\n");
        for (code, row) in self.changes.iter().enumerate() {
            page.put(b"    ");
            page.put_decimal(depth(code as u64));
            put_row(page, row);
        }
        put_count(page, b"  WRPTR from 128 up ", self.upper);
        put_count(page, b"  records at WRPTR 255 ", self.wraps_up);
        put_count(page, b"  pops at WRPTR 0 and depth 256 ", self.wraps_down);
        put_count(page, b"  entries in use again ", self.back);
    }
}
