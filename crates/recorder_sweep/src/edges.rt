// How often each edge between V=0 and V=1 was met where it matters which control register gives its
// RASEMU and TRETINH.
use crate::lines::put_named_row;
use crate::steps::Step;
use machine::modes::is_on;
use machine::{Mode, Registers};
use test_support::count_at;
use text::Page;

const EDGES: usize = 8;

// By two bits and two switches.
const CELLS: usize = 16;

// Where each edge comes from and goes to, and its name, in the order in which they are printed.
const NAMES: [(Mode, Mode, &[u8]); EDGES] = [
    (Mode::S, Mode::VS, b"    S to VS"),
    (Mode::S, Mode::VU, b"    S to VU"),
    (Mode::M, Mode::VS, b"    M to VS"),
    (Mode::M, Mode::VU, b"    M to VU"),
    (Mode::VS, Mode::S, b"    VS to S"),
    (Mode::VS, Mode::M, b"    VS to M"),
    (Mode::VU, Mode::S, b"    VU to S"),
    (Mode::VU, Mode::M, b"    VU to M"),
];

pub(crate) const RASEMU_AND_TRETINH: u64 = 0x8_0000_0080;

#[derive(Default, Drop)]
pub(crate) struct Edges {
    counts: [[u64; CELLS]; EDGES],
}

// The place of an edge, if a transition is one.
fn edge(source: Mode, target: Mode) -> Option<usize> {
    NAMES
        .iter()
        .position(|(from, to, _)| *from == source && *to == target)
}

// The cell of an edge, by RASEMU and TRETINH of vsctrctl and by whether each mode is on; none if one of
// the two bits is alike in both registers, or if FROZEN is set.
fn cell(before: Registers, after: Mode) -> Option<u64> {
    let v = before.controls.vsctrctl;
    let differing = (before.controls.mctrctl ^ v) & RASEMU_AND_TRETINH;
    if differing != RASEMU_AND_TRETINH || before.buffer.frozen {
        return None;
    }
    Some(
        (v >> 7 & 1) << 3
            | (v >> 35 & 1) << 2
            | u64::from(is_on(before, before.mode)) << 1
            | u64::from(is_on(before, after)),
    )
}

impl Edges {
    pub(crate) fn add_step(&mut self, s: &Step) {
        let after = s.after.mode;
        if let Some(k) = cell(s.before, after)
            && let Some(i) = edge(s.before.mode, after)
            && let Some(counts) = self.counts.get_mut(i)
        {
            count_at(counts, k);
        }
    }

    // A line for each edge.
    pub(crate) fn put(&self, page: &mut Page) {
        page.put(
            b"  edges where RASEMU and TRETINH differ, by those of vsctrctl and by the switches\n",
        );
        for ((_, _, name), counts) in NAMES.iter().zip(self.counts.iter()) {
            put_named_row(page, name, counts);
        }
    }
}
