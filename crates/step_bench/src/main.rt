// Runs calls through the recorder at its largest depth, step by step, so that the three forms of a step
// can be timed: a round for each byte of standard input, v for by value, p for in place, k for in place
// by its kind. Prints of each round a digest of its answers and of the state after it.
#![tactic(auto)]

use machine::{CsrAccess, Event, Operation, RetiredWord};
use recorder::State;
use recorder::kinds::retire;
use recorder::steps::{reset, step, step_in_place};
use std::io;
use sweep_support::digests::digest_answer;
use sweep_support::lines::put_word;
use sweep_support::states::{digest_state, digest_value};
use text::Page;

// How many calls a round has, and how many rounds there are at most.
const CALLS: u64 = 100_000;

const ROUNDS: usize = 64;

const SCTRDEPTH: u64 = 0x15F;

const MCTRCTL: u64 = 0x34E;

fn written(s: State, number: u64, operand: u64) -> State {
    let t = step(
        s,
        Event::Access(CsrAccess {
            operation: Operation::Write,
            number,
            operand,
        }),
    );
    t.state
}

// Depth 256, and M is on.
fn start() -> State {
    written(written(reset(false), SCTRDEPTH, 4), MCTRCTL, 4)
}

fn call(i: u64) -> RetiredWord {
    RetiredWord {
        word: 0x0000_00EF,
        pc: i << 2,
        target: i << 3,
        taken: false,
        mispredicted: false,
        cycles: 0,
    }
}

fn run_by_value() -> u64 {
    let mut s = start();
    let mut answers = 0;
    for i in 0..CALLS {
        let t = step(s, Event::Retired(call(i)));
        answers = digest_answer(answers, t.number, t.value);
        s = t.state;
    }
    digest_value(answers, s)
}

// A loop for each of these two: a step that is handed in has the registers copied once more, which would be timed.
fn run_in_place() -> u64 {
    let s = start();
    let mut entries = s.entries;
    let mut r = s.registers;
    let mut answers = 0;
    for i in 0..CALLS {
        let a = step_in_place(&mut entries, r, Event::Retired(call(i)));
        answers = digest_answer(answers, a.number, a.value);
        r = a.registers;
    }
    digest_state(answers, r, &entries)
}

fn run_by_kind() -> u64 {
    let s = start();
    let mut entries = s.entries;
    let mut r = s.registers;
    let mut answers = 0;
    for i in 0..CALLS {
        let a = retire(&mut entries, r, call(i));
        answers = digest_answer(answers, a.number, a.value);
        r = a.registers;
    }
    digest_state(answers, r, &entries)
}

fn report(rt: &impl Print, name: &[u8], digest: u64) {
    let mut buffer = [0u8; 64];
    let mut page = Page::new(&mut buffer);
    put_word(&mut page, name, digest);
    console::write(&mut io::writer(rt), page.text());
}

fn run_round(rt: &impl Print, letter: u8) {
    match letter {
        b'v' => report(rt, b"by value 0x", run_by_value()),
        b'p' => report(rt, b"in place 0x", run_in_place()),
        b'k' => report(rt, b"by kind 0x", run_by_kind()),
        _ => {}
    }
}

fn main(rt: HostRuntime) {
    let mut rounds = [0u8; ROUNDS];
    console::fill(&mut rt.reader(), &mut rounds);
    for letter in rounds {
        run_round(&rt, letter);
    }
}
