// Random start states.
use crate::edges::RASEMU_AND_TRETINH;
use machine::controls::{MCTRCTL_MASK, SCTRCTL_MASK};
use machine::depths::{depth, wrapped};
use machine::good::COUNTER_LIMIT;
use machine::{Buffer, Constants, ControlWords, Cycles, Enables, Registers, Selects};
use recorder::{ENTRIES, Entries};
use test_support::Random;
use trace::codes::mode_of;

// The control bits that a state may have: with inhibits or without, with RASEMU or without.
fn allowed(choice: u64) -> u64 {
    match choice % 4 {
        0 => 0xFFFF_FFFF_FFFF_FF7F,
        1 => 0x1B07,
        2 => 0xFFFF_FFFF_FFFF_FFFF,
        _ => 0x1B87,
    }
}

fn good_controls(a: u64, b: u64, c: u64) -> ControlWords {
    let bits = allowed(a / 3200);
    ControlWords {
        mctrctl: b & MCTRCTL_MASK & bits,
        vsctrctl: c & SCTRCTL_MASK & bits,
    }
}

fn good_buffer(a: u64, d: u64) -> Buffer {
    let code = a / 5 % 5;
    Buffer {
        code,
        wrptr: wrapped(d, code),
        frozen: a / 25 % 8 == 0,
    }
}

fn selects_of(f: u64) -> Selects {
    Selects {
        siselect: 0x200 + f % 0x100,
        vsiselect: 0x200 + f / 0x100 % 0x100,
    }
}

fn enables_of(a: u64) -> Enables {
    Enables {
        mstateen0: a / 200 % 4 != 0,
        hstateen0: a / 800 % 4 != 0,
    }
}

// A counter that is 0, at its top, or of any length.
fn counter_of(g: u64) -> u64 {
    match g % 4 {
        0 => 0,
        1 => COUNTER_LIMIT - 1,
        _ => g / 8 % COUNTER_LIMIT >> (g / 0x8_0000_0000 % 27),
    }
}

fn good_cycles(g: u64) -> Cycles {
    Cycles {
        counter: counter_of(g),
        ccv: g / 4 % 2 == 1,
    }
}

// A number from the least on: that one, the largest, one near or one anywhere.
fn from_up(least: u64, d: u64) -> u64 {
    match d % 4 {
        0 => least,
        1 => 0xFFFF_FFFF_FFFF_FFFF,
        2 => least.wrapping_add(d / 4 % 1000),
        _ => least.wrapping_add(d / 8),
    }
}

// Five of sixteen are spoiled, in one of the five ways that number 5 is about.
fn spoil(r: &mut Registers, choice: u64, d: u64) {
    match choice % 16 {
        0 => r.buffer.code = from_up(5, d),
        1 => r.buffer.wrptr = from_up(depth(r.buffer.code), d),
        2 => r.controls.mctrctl |= 0x8,
        3 => r.controls.vsctrctl |= 0x4,
        4 => r.cycles.counter = from_up(COUNTER_LIMIT, d),
        _ => {}
    }
}

pub(crate) fn draw_registers(random: &mut Random) -> Registers {
    let a = random.draw();
    let b = random.draw();
    let c = random.draw();
    let d = random.draw();
    let f = random.draw();
    let g = random.draw();
    let mut r = Registers {
        mode: mode_of(a % 5),
        controls: good_controls(a, b, c),
        buffer: good_buffer(a, d),
        selects: selects_of(f),
        enables: enables_of(a),
        cycles: good_cycles(g),
        constants: Constants {
            zc: a / 204_800 % 2 == 1,
        },
    };
    spoil(&mut r, a / 12800, d);
    r
}

// RASEMU and TRETINH different in the two control words, each way in turn.
fn set_difference(c: &mut ControlWords, list: u64) {
    let both = RASEMU_AND_TRETINH;
    let chosen = (list % 2) << 7 | (list / 2 % 2) << 35;
    c.mctrctl = c.mctrctl & !both | chosen;
    c.vsctrctl = c.vsctrctl & !both | (both ^ chosen);
}

// In the control words that a list of the random run starts from: the first lists set each single bit of
// the two in turn, stray or not; the next have RASEMU and TRETINH different in the two.
pub(crate) fn set_list_bits(c: &mut ControlWords, list: u64) {
    match list {
        0..=63 => c.mctrctl |= 1 << list,
        64..=127 => c.vsctrctl |= 1 << (list - 64),
        128..=383 => set_difference(c, list),
        _ => {}
    }
}

// Entries with undefined bits too.
pub(crate) fn draw_entries(random: &mut Random) -> Entries {
    let mut entries = Entries {
        ctrsource: [0; ENTRIES],
        ctrtarget: [0; ENTRIES],
        ctrdata: [0; ENTRIES],
    };
    for i in 0..ENTRIES {
        entries.ctrsource[i] = random.draw();
        entries.ctrtarget[i] = random.draw();
        entries.ctrdata[i] = random.draw();
    }
    entries
}
