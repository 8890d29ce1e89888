// Random events.
use crate::csrs::{SCTRDEPTH, SCTRSTATUS, access};
use crate::random::pick;
use machine::{Enables, Event, Mode, Operation, RetiredWord, ReturnTo, TrapTo};
use test_support::Random;
use trace::codes::{mode_of, operation_of};

// Each type by each kind of word that has it, with x1, x5 and a register that is not link as rd and
// as base; then words that are none; then table jumps and pop-returns at their bounds, one with a
// reserved rlist, and CM.PUSH.
const WORDS: [u32; 40] = [
    0x0000_8067,
    0x0002_8067,
    0x0003_0067,
    0x0000_80E7,
    0x0002_80E7,
    0x0003_00E7,
    0x0000_82E7,
    0x0002_82E7,
    0x0003_02E7,
    0x0000_8367,
    0x0002_8367,
    0x0003_8367,
    0x0000_006F,
    0x0000_00EF,
    0x0000_02EF,
    0x0000_036F,
    0x0000_8082,
    0x0000_8282,
    0x0000_8302,
    0x0000_9082,
    0x0000_9282,
    0x0000_9302,
    0x0000_A001,
    0x0000_C001,
    0x0000_E001,
    0x0000_0063,
    0x0000_7063,
    0x0000_9002,
    0x0000_8002,
    0x0000_90E7,
    0x3020_0073,
    0x1040_0073,
    0x0000_A002,
    0x0000_A07E,
    0x0000_A082,
    0x0000_A3FE,
    0x0000_BE42,
    0x0000_BCFE,
    0x0000_BE3E,
    0x0000_B842,
];

// Every listed CSR number; some that are not, beside them, at the ends of the ranges and far away;
// and the ones that matter most again.
const NUMBERS: [u64; 40] = [
    0x14E,
    0x14F,
    0x15F,
    0x24E,
    0x34E,
    0x150,
    0x151,
    0x152,
    0x153,
    0x155,
    0x156,
    0x157,
    0x250,
    0x251,
    0x252,
    0x253,
    0x255,
    0x256,
    0x257,
    0x154,
    0x254,
    0x158,
    0x14D,
    0x25F,
    0x350,
    0,
    0x1FF,
    0x200,
    0x2FF,
    0x300,
    0xFFF,
    0x1_0000_014E,
    0x34E,
    0x14E,
    0x24E,
    0x14F,
    0x151,
    0x150,
    0x251,
    0x250,
];

// Both ends of the window, and of the entries at depths 16, 128 and 256; then in the window but for a
// high bit.
const EDGES: [u64; 10] = [
    0x1FF,
    0x200,
    0x20F,
    0x210,
    0x27F,
    0x280,
    0x2FF,
    0x300,
    0x100_0000_0205,
    0x8000_0000_0000_0205,
];

// The causes that freeze, those beside them, those that are equal to them in their low bits, and the
// largest.
const CAUSES: [u64; 15] = [
    3,
    13,
    3,
    13,
    0,
    2,
    4,
    12,
    14,
    0x1_0000_0003,
    0x1_0000_000D,
    0x8000_0000_0000_0003,
    0x8000_0000_0000_000D,
    0x13,
    0xFFFF_FFFF_FFFF_FFFF,
];

// Any address, and often 0, 1 or the last one.
pub(crate) fn address(x: u64) -> u64 {
    match x % 16 {
        0 => 0,
        1 => 1,
        2 => 0xFFFF_FFFF_FFFF_FFFF,
        _ => x,
    }
}

// One of eight is any word.
fn word_of(w: u64) -> u32 {
    if w % 8 == 0 {
        (w / 8 % 0x1_0000_0000) as u32
    } else {
        pick(&WORDS, w / 8)
    }
}

// Cycles: none, one, at the ends of what is coded exactly and of what the counter holds, all that a row
// can have, few, or any number of any length.
pub(crate) fn cycles(n: u64) -> u32 {
    match n % 16 {
        0 => 0,
        1 => 1,
        2 => 4095,
        3 => 4096,
        4 => 0x400_0000,
        5 => 0x7FF_FFFF,
        6 => 0xFFFF_FFFF,
        7..=9 => (n / 16 % 64) as u32,
        _ => (n / 16 % 0x1_0000_0000) as u32 >> (n / 0x1_0000_0000_0000 % 32),
    }
}

// Taken and mispredicted are the two low bits of the flags.
fn retired(w: u64, pc: u64, target: u64, flags: u64, n: u64) -> Event {
    Event::Retired(RetiredWord {
        word: word_of(w),
        pc,
        target,
        taken: flags % 2 == 1,
        mispredicted: flags / 2 % 2 == 1,
        cycles: cycles(n),
    })
}

// A retired word by itself.
pub(crate) fn draw_word(random: &mut Random) -> Event {
    let w = random.draw();
    let pc = address(random.draw());
    let target = address(random.draw());
    let n = random.draw();
    retired(w, pc, target, w / 320, n)
}

// One of four goes to any mode, the others to one that a trap can go to.
fn trap_target(mode: Mode, c: u64) -> Mode {
    if c % 4 == 0 {
        return mode_of(c / 4 % 5);
    }
    match mode {
        Mode::U | Mode::S => pick(&[Mode::S, Mode::M, Mode::S], c / 4),
        Mode::M => Mode::M,
        Mode::VU | Mode::VS => pick(&[Mode::VS, Mode::S, Mode::M], c / 4),
    }
}

// One of four goes to any mode, the others to one that a return can go to, where there is one.
fn return_target(mode: Mode, c: u64) -> Mode {
    if c % 4 == 0 {
        return mode_of(c / 4 % 5);
    }
    match mode {
        Mode::S => pick(&[Mode::U, Mode::S, Mode::VU, Mode::VS], c / 4),
        Mode::VS => pick(&[Mode::VS, Mode::VU], c / 4),
        Mode::U | Mode::M | Mode::VU => mode_of(c / 4 % 5),
    }
}

// One of 16 is any cause.
fn cause_of(choice: u64, z: u64) -> u64 {
    match CAUSES.get((choice % 16) as usize) {
        Some(cause) => *cause,
        None => z,
    }
}

fn trap(mode: Mode, c: u64, z: u64, epc: u64, handler: u64, n: u64) -> Event {
    Event::Trap(TrapTo {
        mode: trap_target(mode, c),
        interrupt: c / 16 % 2 == 1,
        cause: cause_of(c / 32, z),
        epc,
        handler,
        cycles: cycles(n),
    })
}

fn trap_return(mode: Mode, c: u64, pc: u64, target: u64, n: u64) -> Event {
    Event::TrapReturn(ReturnTo {
        mode: return_target(mode, c),
        pc,
        target,
        cycles: cycles(n),
    })
}

// Any word, or one that suits a control register, sctrstatus, a selection or a depth code.
fn operand(choice: u64, z: u64) -> u64 {
    match choice % 8 {
        0 => z,
        1 => (z & 0x1B07) | 7,
        2 => z & 0xFFFF_FFFF_7FFF_FFFF,
        3 => 0x87,
        4 => 0x200 + z % 0x100,
        5 => pick(&EDGES, z),
        6 => z % 8,
        _ => z & 0xFF_0000_001F,
    }
}

fn host(c: u64) -> Event {
    Event::Host(Enables {
        mstateen0: c % 4 != 0,
        hstateen0: c / 4 % 4 != 0,
    })
}

// An event for a machine in a mode. Among them are writes of any depth code to sctrdepth, and writes to
// sctrstatus that clear FROZEN, so that what was frozen goes on, with WRPTR anywhere.
pub(crate) fn draw_event(random: &mut Random, mode: Mode) -> Event {
    let k = random.draw();
    let w = random.draw();
    let x = address(random.draw());
    let y = address(random.draw());
    let z = random.draw();
    let n = random.draw();
    let c = k / 64;
    match k % 64 {
        0..=29 => retired(w, x, y, c, n),
        30..=37 => trap(mode, c, z, x, y, n),
        38..=45 => trap_return(mode, c, x, y, n),
        46..=57 => access(operation_of(c % 4), pick(&NUMBERS, w), operand(c / 4, z)),
        58 => access(Operation::Write, SCTRDEPTH, z % 8),
        59..=61 => access(Operation::Write, SCTRSTATUS, z % 256),
        62 => Event::Sctrclr,
        _ => host(c),
    }
}
