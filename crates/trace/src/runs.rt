// A whole trace: its rows are run one after the other in place, and each answer takes two words.
ghost use Rattle.std.specs.Prelude.{◌≡◌, false, ◌+◌, ◌*◌, ◌%◌, ◌^◌, ◌≤◌, ◌<◌, length};
ghost use Rattle.machine.specs.Good.{good_of};
ghost use Rattle.recorder.specs.Steps.{state_of, Whole};
ghost use Rattle.trace.specs.Rows.{retired_row, trap_row, return_row, access_row, sctrclr_row, host_row, row_of};
ghost use Rattle.trace.specs.Runs.{row_at, answered, is_retired_head, row_run_of, row_ran, ran_of, replay_of, replayed, ran_to};

use crate::rows::{HOST_LIMIT, RETIRED_LIMIT, SCTRCLR_LIMIT, Words};
use crate::{Ran, Replayed};
use machine::good::is_good;
use machine::{Buffer, Constants, ControlWords, Cycles, Enables, Registers, Selects};
use recorder::{Answered, Entries, State, kinds};

// The rows of each kind. They are not decoded to an event first: that would be packed and unpacked for each row.
fn run_retired(entries: &mut Entries, r: Registers, good: bool, x: Words) -> Option<Answered>
    requires { good ≡ good_of r }
    ensures { row_run_of (state_of r entries.old) (retired_row x.zero x.one x.two x.three) ≡ row_ran r result entries.new }
{
    if x.is_retired_row() {
        Some(kinds::retire_with(entries, r, x.retired(), good))
    } else {
        None
    }
}

fn run_trap(entries: &mut Entries, r: Registers, x: Words) -> Option<Answered>
    ensures { row_run_of (state_of r entries.old) (trap_row x.zero x.one x.two x.three) ≡ row_ran r result entries.new }
{
    if x.is_trap_row() {
        Some(kinds::trap(entries, r, x.trap()))
    } else {
        None
    }
}

fn run_return(entries: &mut Entries, r: Registers, x: Words) -> Option<Answered>
    ensures { row_run_of (state_of r entries.old) (return_row x.zero x.one x.two x.three) ≡ row_ran r result entries.new }
{
    if x.is_return_row() {
        Some(kinds::trap_return(entries, r, x.trap_return()))
    } else {
        None
    }
}

fn run_access(entries: &mut Entries, r: Registers, x: Words) -> Option<Answered>
    ensures { row_run_of (state_of r entries.old) (access_row x.zero x.one x.two x.three) ≡ row_ran r result entries.new }
{
    if x.is_access_row() {
        Some(kinds::access(entries, r, x.access()))
    } else {
        None
    }
}

fn run_sctrclr(entries: &mut Entries, r: Registers, x: Words) -> Option<Answered>
    ensures { row_run_of (state_of r entries.old) (sctrclr_row x.zero x.one x.two x.three) ≡ row_ran r result entries.new }
{
    if x.is_plain_row(SCTRCLR_LIMIT) {
        Some(kinds::sctrclr(entries, r))
    } else {
        None
    }
}

fn run_host(entries: &mut Entries, r: Registers, x: Words) -> Option<Answered>
    ensures { row_run_of (state_of r entries.old) (host_row x.zero x.one x.two x.three) ≡ row_ran r result entries.new }
{
    if x.is_plain_row(HOST_LIMIT) {
        Some(kinds::host(entries, r, x.enables()))
    } else {
        None
    }
}

// A row by its kind, of which word 0 is not that of a retired word.
#[tactic(auto, unfolding(crate::specs::Rows::row_by, crate::specs::Rows::row_of))]
fn run_other(entries: &mut Entries, r: Registers, x: Words) -> Option<Answered>
    requires { is_retired_head x.zero ≡ false }
    ensures { row_run_of (state_of r entries.old) (row_of x.zero x.one x.two x.three) ≡ row_ran r result entries.new }
{
    match x.kind() {
        1 => run_trap(entries, r, x),
        2 => run_return(entries, r, x),
        3 => run_access(entries, r, x),
        4 => run_sctrclr(entries, r, x),
        5 => run_host(entries, r, x),
        _ => None,
    }
}

#[tactic(auto, unfolding(crate::specs::Runs::is_retired_head))]
fn is_retired_head(x: Words) -> bool
    ensures { result ≡ is_retired_head x.zero }
{
    x.kind() == 0 && x.head_below(RETIRED_LIMIT)
}

// Most rows are retired words: they are looked for first, and what number 5 is about is not looked at again for
// each of them.
fn run_words(entries: &mut Entries, r: Registers, good: bool, x: Words) -> Option<Answered>
    requires { good ≡ good_of r }
    ensures { row_run_of (state_of r entries.old) (row_of x.zero x.one x.two x.three) ≡ row_ran r result entries.new }
{
    if is_retired_head(x) {
        run_retired(entries, r, good, x)
    } else {
        run_other(entries, r, x)
    }
}

// Row i of a trace.
#[tactic(auto, unfolding(crate::specs::Runs::row_at))]
fn run_row(
    entries: &mut Entries,
    r: Registers,
    good: bool,
    rows: &[u64],
    i: usize,
) -> Option<Answered>
    requires place { 4 * i + 3 < length rows.now }
    requires found { good ≡ good_of r }
    ensures { row_run_of (state_of r entries.old) (row_at rows.now i) ≡ row_ran r result entries.new }
{
    let x = Words {
        zero: rows[4 * i],
        one: rows[4 * i + 1],
        two: rows[4 * i + 2],
        three: rows[4 * i + 3],
    };
    run_words(entries, r, good, x)
}

// The answer to event i.
fn answer(answers: &mut [u64], i: usize, number: u64, value: u64)
    requires { 2 * i + 1 < length answers.old }
    ensures { answers.new ≡ answered answers.old i number value }
{
    answers[2 * i] = number;
    answers[2 * i + 1] = value;
}

// The same registers, field by field: then no bytes between the fields go from row to row.
fn apart(r: Registers) -> Registers
    ensures { result ≡ r }
{
    let mode = r.mode;
    let controls = ControlWords {
        mctrctl: r.controls.mctrctl,
        vsctrctl: r.controls.vsctrctl,
    };
    let buffer = Buffer {
        code: r.buffer.code,
        wrptr: r.buffer.wrptr,
        frozen: r.buffer.frozen,
    };
    let selects = Selects {
        siselect: r.selects.siselect,
        vsiselect: r.selects.vsiselect,
    };
    let enables = Enables {
        mstateen0: r.enables.mstateen0,
        hstateen0: r.enables.hstateen0,
    };
    let cycles = Cycles {
        counter: r.cycles.counter,
        ccv: r.cycles.ccv,
    };
    let constants = Constants { zc: r.constants.zc };
    Registers {
        mode,
        controls,
        buffer,
        selects,
        enables,
        cycles,
        constants,
    }
}

// All n rows, up to one that is malformed, with room for their answers.
fn run_rows(
    entries: &mut Entries,
    r: Registers,
    good: bool,
    rows: &[u64],
    answers: &mut [u64],
    n: usize,
) -> Ran
    requires rows { 4 * n ≤ length rows.now }
    requires room { 2 * n ≤ length answers.old }
    requires found { good ≡ good_of r }
    ensures { ran_of (state_of r entries.old) rows.now answers.old n ≡ ran_to result entries.new answers.new }
{
    let mut registers = apart(r);
    for i in 0..n {
        let Some(row) = run_row(entries, registers, good, rows, i) else {
            return Ran {
                number: 9,
                count: i,
                registers,
            };
        };
        answer(answers, i, row.number, row.value);
        registers = apart(row.registers);
    }
    Ran {
        number: 0,
        count: n,
        registers,
    }
}

// Replays a trace in place: the entries are lent, and the registers go in and come back. The number is 6 for
// a length that is no multiple of four, else 7 for too few answer words, else 9 if a row is malformed, else
// 0; answer words past the count of events stay as lent.
pub fn replay_in_place(
    entries: &mut Entries,
    r: Registers,
    rows: &[u64],
    answers: &mut [u64],
) -> Ran
    ensures { replay_of (state_of r entries.old) rows.now answers.old ≡ ran_to result entries.new answers.new }
{
    let n = rows.len() / 4;
    if rows.len() % 4 != 0 {
        Ran {
            number: 6,
            count: 0,
            registers: r,
        }
    } else if answers.len() / 2 < n {
        Ran {
            number: 7,
            count: 0,
            registers: r,
        }
    } else {
        run_rows(entries, r, is_good(r), rows, answers, n)
    }
}

// Replays a trace from a state.
pub fn replay(s: State, rows: &[u64], answers: &mut [u64]) -> Replayed
    ensures answers_value { replay_of s rows.now answers.old ≡ replayed result answers.new }
    ensures whole { Whole result.state }
{
    let mut entries = s.entries;
    let q = replay_in_place(&mut entries, s.registers, rows, answers);
    let state = State {
        registers: q.registers,
        entries,
    };
    Replayed {
        number: q.number,
        count: q.count,
        state,
    }
}
