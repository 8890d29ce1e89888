// Accesses every listed CSR number and its neighbours, with every operation, in every mode and in
// many states, bad ones among them, and prints how often each number was answered and digests of
// answers, registers and entries. The gate compares it with what the model prints.
#![tactic(auto)]

use access::accesses::{access, host, sctrclr};
use machine::answers::{number_index, refuse};
use machine::controls::{MCTRCTL_MASK, SCTRCTL_MASK};
use machine::depths::{TOP_CODE, depth, physical, wrapped};
use machine::good::is_good;
use machine::regs::{reset, with_enables, with_selects};
use machine::{
    Buffer, ControlWords, CsrAccess, Cycles, Decision, Effect, Enables, Entry, Mode, Operation,
    Refusal, Registers, Selects,
};
use std::io;
use sweep_support::digests::{digest_answer, digest_entry, digest_registers};
use sweep_support::lines::{put_counts, put_word};
use test_support::{Random, count_at, digest};
use text::Page;
use trace::codes::operation_of;

// What was seen, the words to draw and the last entry in focus.
#[derive(Drop)]
struct Run {
    random: Random,
    last: Entry,
    counts: [u64; 6],
    answers: u64,
    registers: u64,
    entries: u64,
}

const MODES: [(Mode, &[u8]); 5] = [
    (Mode::U, b"mode U\n"),
    (Mode::S, b"mode S\n"),
    (Mode::M, b"mode M\n"),
    (Mode::VU, b"mode VU\n"),
    (Mode::VS, b"mode VS\n"),
];

// How many operations there are.
const OPERATIONS: u64 = 4;

// Every listed number and its neighbours, the ends of the ranges, and one that is listed but for a
// high bit.
const NUMBERS: [u64; 37] = [
    0,
    0x14D,
    0x14E,
    0x14F,
    0x150,
    0x151,
    0x152,
    0x153,
    0x154,
    0x155,
    0x156,
    0x157,
    0x158,
    0x15E,
    0x15F,
    0x160,
    0x1FF,
    0x200,
    0x24D,
    0x24E,
    0x24F,
    0x250,
    0x251,
    0x252,
    0x253,
    0x254,
    0x255,
    0x256,
    0x257,
    0x258,
    0x2FF,
    0x300,
    0x34D,
    0x34E,
    0x34F,
    0xFFF,
    0x1_0000_014E,
];

// Both ends of the window, of the entries in use at each depth, and a high bit.
const SELECTIONS: [u64; 13] = [
    0x1FF,
    0x200,
    0x20F,
    0x210,
    0x21F,
    0x220,
    0x23F,
    0x240,
    0x27F,
    0x280,
    0x2FF,
    0x300,
    0x8000_0000_0000_0200,
];

// How many states there are of each mode.
const STATES: u64 = 40;

const EMPTY: Entry = Entry {
    ctrsource: 0,
    ctrtarget: 0,
    ctrdata: 0,
};

// The entry in focus after an effect.
fn after(old: Entry, effect: Effect) -> Entry {
    match effect {
        Effect::Keep => old,
        Effect::Put(e) => e,
        Effect::ClearAll => EMPTY,
    }
}

// Often no bits, all bits or few bits.
fn operand_of(x: u64) -> u64 {
    match x >> 62 {
        0 => 0,
        1 => 0xFFFF_FFFF_FFFF_FFFF,
        2 => x % 1024,
        _ => x,
    }
}

fn vsctrctl_of(s: u64, x: u64) -> u64 {
    match s % 16 {
        6 => 4,
        14 => x,
        _ => x & SCTRCTL_MASK,
    }
}

fn code_of(s: u64) -> u64 {
    if s % 10 == 9 {
        0xFFFF_FFFF_FFFF_FFFF
    } else {
        s % 6
    }
}

fn wrptr_of(s: u64, code: u64, x: u64) -> u64 {
    match s % 32 {
        5 | 21 => depth(code),
        13 => x,
        29 => 0xFFFF_FFFF_FFFF_FFFF,
        _ => wrapped(x, code),
    }
}

fn mctrctl_of(s: u64, x: u64) -> u64 {
    if s % 8 == 7 { x } else { x & MCTRCTL_MASK }
}

fn cycles_of(s: u64, x: u64) -> Cycles {
    Cycles {
        counter: if s % 16 == 10 {
            0x800_0000
        } else {
            x % 0x800_0000
        },
        ccv: x >> 63 == 1,
    }
}

impl Run {
    fn new() -> Run {
        Run {
            random: Random::new(),
            last: EMPTY,
            counts: [0; 6],
            answers: 0,
            registers: 0,
            entries: 0,
        }
    }

    // What is decided of an event; number 5 is looked for first.
    fn add_decision<F: FnOnce(Registers) -> Decision>(&mut self, r: Registers, decide: F)
        requires { F.IsAlwaysCallable decide }
    {
        let d = if is_good(r) {
            decide(r)
        } else {
            refuse(r, Refusal::BadState)
        };
        count_at(&mut self.counts, number_index(d.number));
        self.answers = digest_answer(self.answers, d.number, d.value);
        self.registers = digest_registers(self.registers, d.registers);
        self.entries = digest_entry(self.entries, after(self.last, d.effect));
    }

    // One access, with an operand and an entry of its own.
    fn access(&mut self, r: Registers, number: u64, operation: Operation) {
        let operand = operand_of(self.random.draw());
        let e = Entry {
            ctrsource: self.random.draw(),
            ctrtarget: self.random.draw(),
            ctrdata: self.random.draw(),
        };
        let a = CsrAccess {
            operation,
            number,
            operand,
        };
        self.last = e;
        self.add_decision(r, |r| access(r, e, a));
    }

    // All operations on all numbers; then SCTRCLR and the host's event, with the last entry.
    fn events(&mut self, r: Registers) {
        for number in NUMBERS {
            for code in 0..OPERATIONS {
                self.access(r, number, operation_of(code));
            }
        }
        let enables = Enables {
            mstateen0: bits::bit(self.random.last, 0),
            hstateen0: bits::bit(self.random.last, 1),
        };
        self.add_decision(r, sctrclr);
        self.add_decision(r, |r| host(r, enables));
    }

    // All selections.
    fn windowed(&mut self, r: Registers, s: u64) {
        for (j, siselect) in SELECTIONS.into_iter().enumerate() {
            let k = (2 * j as u64 + s % 13) % 13;
            let selects = Selects {
                siselect,
                vsiselect: SELECTIONS[k as usize],
            };
            self.events(with_selects(r, selects));
        }
    }

    // All settings of the state enables.
    fn enabled(&mut self, r: Registers, s: u64) {
        for hstateen0 in [false, true] {
            for mstateen0 in [false, true] {
                let enables = Enables {
                    mstateen0,
                    hstateen0,
                };
                self.windowed(with_enables(r, enables), s);
            }
        }
    }

    // State s of a mode.
    fn swept_state(&mut self, mode: Mode, s: u64) {
        let a = self.random.draw();
        let b = self.random.draw();
        let c = self.random.draw();
        let d = self.random.draw();
        let code = code_of(s);
        let r = Registers {
            mode,
            controls: ControlWords {
                mctrctl: mctrctl_of(s, a),
                vsctrctl: vsctrctl_of(s, b),
            },
            buffer: Buffer {
                code,
                wrptr: wrptr_of(s, code, c),
                frozen: s % 2 == 1,
            },
            cycles: cycles_of(s, d),
            ..reset(false)
        };
        self.enabled(r, s);
    }
}

fn report_mode(rt: &impl Print, name: &[u8], mode: Mode) {
    let mut run = Run::new();
    for s in 0..STATES {
        run.swept_state(mode, s);
    }
    let mut out = [0u8; 1024];
    let mut page = Page::new(&mut out);
    page.put(name);
    put_counts(&mut page, b"  number ", &run.counts);
    put_word(&mut page, b"  answers 0x", run.answers);
    put_word(&mut page, b"  registers 0x", run.registers);
    put_word(&mut page, b"  entries 0x", run.entries);
    console::write(&mut io::writer(rt), page.text());
}

// The places of all logical entries under all WRPTRs.
fn all_places(code: u64) -> u64 {
    let mut h = 0;
    for wrptr in 0..depth(code) {
        for i in 0..depth(code) {
            h = digest(h, physical(code, wrptr, i));
        }
    }
    h
}

fn report_depth(rt: &impl Print, code: u64) {
    let mut out = [0u8; 64];
    let mut page = Page::new(&mut out);
    page.put(b"  depth ");
    page.put_decimal(depth(code));
    put_word(&mut page, b" 0x", all_places(code));
    console::write(&mut io::writer(rt), page.text());
}

fn main(rt: HostRuntime) {
    for (mode, name) in MODES {
        report_mode(&rt, name, mode);
    }
    console::write(&mut io::writer(&rt), b"logical entries\n");
    for code in 0..=TOP_CODE {
        report_depth(&rt, code);
    }
}
