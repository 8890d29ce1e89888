// Decodes rows of all kinds, with each rule broken in each word, and prints how many are an event of
// each kind, in how many each word is the first to break a rule, and a digest of all that was decoded.
// The gate compares it with what the model prints.
#![tactic(auto)]

use machine::Event;
use std::io;
use sweep_support::lines::{put_count, put_counts, put_word};
use test_support::{count, count_at, digest, digest_words};
use text::Page;
use trace::Malformed;
use trace::codes::{mode_code, operation_code};
use trace::rows::decode;

// What was seen: rows, events by kind, malformed rows by word, and the digest.
#[derive(Default, Drop)]
struct Tally {
    rows: u64,
    kinds: [u64; 6],
    broken: [u64; 4],
    digest: u64,
}

// Word 1: the largest CSR number, the largest instruction word and those after them, and a cause with
// its top bit set.
const FIRST: [u64; 8] = [
    0,
    1,
    0xFFF,
    0x1000,
    0xFFFF_FFFF,
    0x1_0000_0000,
    0x8000_0000_0000_000D,
    0xFFFF_FFFF_FFFF_FFFF,
];

// Words 2 and 3.
const OTHER: [u64; 3] = [0, 1, 0xFFFF_FFFF_FFFF_FFFF];

// The digest h with the data of an event taken in.
fn digest_data(h: u64, e: Event) -> u64 {
    match e {
        Event::Retired(w) => digest_words(
            h,
            &[
                u64::from(w.word),
                w.pc,
                w.target,
                u64::from(w.taken),
                u64::from(w.mispredicted),
                u64::from(w.cycles),
            ],
        ),
        Event::Trap(t) => digest_words(
            h,
            &[
                mode_code(t.mode),
                u64::from(t.interrupt),
                t.cause,
                t.epc,
                t.handler,
                u64::from(t.cycles),
            ],
        ),
        Event::TrapReturn(t) => digest_words(
            h,
            &[mode_code(t.mode), t.pc, t.target, u64::from(t.cycles)],
        ),
        Event::Access(a) => digest_words(h, &[operation_code(a.operation), a.number, a.operand]),
        Event::Sctrclr => h,
        Event::Host(x) => digest_words(h, &[u64::from(x.mstateen0), u64::from(x.hstateen0)]),
    }
}

fn kind_of(e: Event) -> u64 {
    match e {
        Event::Retired(_) => 0,
        Event::Trap(_) => 1,
        Event::TrapReturn(_) => 2,
        Event::Access(_) => 3,
        Event::Sctrclr => 4,
        Event::Host(_) => 5,
    }
}

impl Tally {
    fn add_event(&mut self, e: Event) {
        let kind = kind_of(e);
        count_at(&mut self.kinds, kind);
        self.digest = digest_data(digest(self.digest, kind), e);
    }

    fn add_broken(&mut self, m: Malformed) {
        let word = u64::from(m);
        count_at(&mut self.broken, word);
        self.digest = digest_words(self.digest, &[6, word]);
    }

    fn add_row(&mut self, head: u64, a: u64, b: u64, c: u64) {
        count(&mut self.rows, true);
        match decode(head, a, b, c) {
            Ok(e) => self.add_event(e),
            Err(m) => self.add_broken(m),
        }
    }

    // All rows that begin with a word.
    fn add_head(&mut self, head: u64) {
        for a in FIRST {
            for b in OTHER {
                for c in OTHER {
                    self.add_row(head, a, b, c);
                }
            }
        }
    }
}

// Every kind under all settings of the bits that are named in the lower half and one more, with the upper
// half all zeros and all ones; and every single bit above, under the kinds there are and the next.
fn all_rows() -> Tally {
    let mut t = Tally::default();
    for upper in [0, 0xFFFF_FFFF_0000_0000] {
        for lower in 0u64..0x2000 {
            t.add_head(upper | lower);
        }
    }
    for place in 13u64..64 {
        for kind in 0u64..7 {
            t.add_head(1 << place | kind);
        }
    }
    t
}

fn main(rt: HostRuntime) {
    let t = all_rows();
    let mut out = [0u8; 1024];
    let mut page = Page::new(&mut out);
    page.put(b"rows\n");
    put_count(&mut page, b"  rows ", t.rows);
    put_counts(&mut page, b"  kind ", &t.kinds);
    put_counts(&mut page, b"  broken in word ", &t.broken);
    put_word(&mut page, b"  digest 0x", t.digest);
    console::write(&mut io::writer(&rt), page.text());
}
