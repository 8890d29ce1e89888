// Classifies whole groups of words, with the switch off and on, and prints, for each group, how many
// words have each type and each length and a digest of words, types and lengths. The gate compares it
// with what the model prints.
#![tactic(auto)]

use classifier::exports::{ctr_classify, ctr_classify_all, ctr_length};
use std::io;
use test_support::{Random, count, digest};
use text::Page;

// What was seen of a group.
#[derive(Default, Drop)]
struct Tally {
    words: u64,
    counts: [u64; 16],
    long: u64,
    digest: u64,
}

// How many words a run has; it is sorted by a table.
const RUN: usize = 16384;

// The bits of a word that its group leaves free.
const PATTERNS: [u32; 6] = [
    0x0000_0000,
    0xFFFF_FFFF,
    0x5A5A_5A5A,
    0xA5A5_A5A5,
    0x1234_5678,
    0x8765_4321,
];

fn pattern(k: u32) -> u32 {
    PATTERNS[k as usize % PATTERNS.len()]
}

// Every rd, rs1 and funct3 of JALR.
fn jalr_word(i: u32) -> u32 {
    let rd = i % 32;
    let rs1 = i / 32 % 32;
    let funct3 = i / 1024 % 8;
    (pattern(i / 8192) & 0xFFF0_0000) | (rs1 << 15) | (funct3 << 12) | (rd << 7) | 0x67
}

// Every rd of JAL.
fn jal_word(i: u32) -> u32 {
    let rd = i % 32;
    (pattern(i / 32) & 0xFFFF_F000) | (rd << 7) | 0x6F
}

// Every funct3 of the branch opcode.
fn branch_word(i: u32) -> u32 {
    let low = i % 32;
    let funct3 = i / 32 % 8;
    (pattern(i / 256) & 0xFFFF_8000) | (funct3 << 12) | (low << 7) | 0x63
}

impl Tally {
    // One word more, which has a type, a branch as taken.
    fn add(&mut self, word: u32, kind: u8) {
        let length = ctr_length(word);
        let k = usize::from(kind % 16);
        count(&mut self.words, true);
        count(&mut self.counts[k], true);
        count(&mut self.long, length == 4);
        let h = digest(self.digest, u64::from(word));
        self.digest = digest(digest(h, u64::from(kind)), u64::from(length));
    }

    fn add_run(&mut self, words: &[u32], types: &[u8]) {
        for (word, kind) in words.iter().zip(types) {
            self.add(*word, *kind);
        }
    }
}

// Words one after the other, from the first.
fn fill(words: &mut [u32], first: u32) {
    for (word, value) in words.iter_mut().zip(first..) {
        *word = value;
    }
}

// All low halves, sorted in four runs.
fn sweep_runs(zc: bool) -> Tally {
    let mut words = [0; RUN];
    let mut types = [0; RUN];
    let mut t = Tally::default();
    for run in 0..4 {
        fill(&mut words, 16384 * run);
        ctr_classify_all(&words, zc, &mut types);
        t.add_run(&words, &types);
    }
    t
}

// A group, by what its word i is; random is the i-th pseudo-random number.
fn sweep<F: Fn(u32, u64) -> u32>(words: u32, zc: bool, word_of: F) -> Tally
    requires { F.IsAlwaysCallable word_of }
{
    let mut t = Tally::default();
    let mut random = Random::new();
    for i in 0..words {
        let word = word_of(i, random.draw());
        t.add(word, ctr_classify(word, true, zc));
    }
    t
}

// A line's end: a blank and a count.
fn put_count(page: &mut Page, count: u64) {
    page.put_byte(b' ');
    page.put_decimal(count);
    page.put_byte(b'\n');
}

fn report(rt: &impl Print, name: &[u8], zc: bool, t: Tally) {
    let mut buffer = [0u8; 1024];
    let mut page = Page::new(&mut buffer);
    page.put(name);
    page.put(if zc {
        b", switch on\n"
    } else {
        b", switch off\n"
    });
    page.put(b"  words");
    put_count(&mut page, t.words);
    for (k, count) in t.counts.iter().enumerate() {
        // no word has one of the other types
        if k == 0 || k == 5 || k >= 8 {
            page.put(b"  type ");
            page.put_decimal(k as u64);
            put_count(&mut page, *count);
        }
    }
    page.put(b"  length 2");
    put_count(&mut page, t.words.wrapping_sub(t.long));
    page.put(b"  length 4");
    put_count(&mut page, t.long);
    page.put(b"  digest 0x");
    page.put_hex(t.digest, 16);
    page.put_byte(b'\n');
    console::write(&mut io::writer(rt), page.text());
}

fn report_all(rt: &impl Print, zc: bool) {
    report(
        rt,
        b"low halves under 0x0000",
        zc,
        sweep(65536, zc, |i, _| i),
    );
    report(
        rt,
        b"low halves under 0xffff",
        zc,
        sweep(65536, zc, |i, _| 0xFFFF_0000 | i),
    );
    report(
        rt,
        b"low halves under 0x0002",
        zc,
        sweep(65536, zc, |i, _| 0x0002_0000 | i),
    );
    report(
        rt,
        b"low halves under 0xa5a8",
        zc,
        sweep(65536, zc, |i, _| 0xA5A8_0000 | i),
    );
    report(rt, b"low halves in runs", zc, sweep_runs(zc));
    report(rt, b"jalr", zc, sweep(49152, zc, |i, _| jalr_word(i)));
    report(rt, b"jal", zc, sweep(192, zc, |i, _| jal_word(i)));
    report(rt, b"branch", zc, sweep(1536, zc, |i, _| branch_word(i)));
    report(
        rt,
        b"random",
        zc,
        sweep(100000, zc, |_, random| (random % 0x1_0000_0000) as u32),
    );
}

fn main(rt: HostRuntime) {
    report_all(&rt, false);
    report_all(&rt, true);
}
