// What a trace left behind: counts, registers, the history and the entries, a line each.
ghost use Rattle.std.specs.Prelude.{◌<◌};
ghost use Rattle.recorder.specs.Entries.{entries};

use crate::answers::{Counts, NUMBERS, VALUES};
use crate::output::Output;
use console::Complain;
use history::{put_line, put_path};
use machine::depths::{depth, physical};
use machine::{Buffer, Entry, Registers};
use recorder::{ENTRIES, State};
use text::Page;
use trace::codes::mode_code;
use transfers::counts::decoded;

const NUMBER_NAMES: [&[u8]; NUMBERS] = [
    b"answered",
    b"illegal instruction",
    b"virtual instruction",
    b"no such register",
    b"mode change not possible",
    b"bad state",
    b"another number",
];

const VALUE_NAMES: [&[u8]; VALUES] = [
    b"nothing",
    b"recorded",
    b"return popped",
    b"swapped in place",
    b"frozen by this trap",
    b"another value",
];

const REGISTERS: usize = 11;

// The counts of what occurred.
fn put_occurred<R: Print + Complain>(out: &mut Output<'_, R>, names: &[&[u8]], counts: &[u64]) {
    for (name, count) in names.iter().zip(counts) {
        if *count > 0 {
            out.page.put(name);
            out.page.put(b": ");
            out.page.put_decimal(*count);
            out.end_line();
        }
    }
}

// How many events there were, and how many of each answer that occurred.
pub(crate) fn put_counts<R: Print + Complain>(
    out: &mut Output<'_, R>,
    counts: &Counts,
    events: u64,
) {
    out.page.put(b"events ");
    out.page.put_decimal(events);
    out.end_line();
    put_occurred(out, &NUMBER_NAMES, &counts.numbers);
    put_occurred(out, &VALUE_NAMES, &counts.values);
}

// The registers but the mode, and the switch, in the order of their lines.
fn register_words(r: Registers) -> [(&'static [u8], u64); REGISTERS] {
    let b = r.buffer;
    [
        (b"mctrctl ", r.controls.mctrctl),
        (b"vsctrctl ", r.controls.vsctrctl),
        (b"sctrdepth ", b.code),
        (b"sctrstatus ", access::readings::status(b)),
        (b"siselect ", r.selects.siselect),
        (b"vsiselect ", r.selects.vsiselect),
        (b"mstateen0.CTR ", u64::from(r.enables.mstateen0)),
        (b"hstateen0.CTR ", u64::from(r.enables.hstateen0)),
        (b"cycles ", r.cycles.counter),
        (b"ccv ", u64::from(r.cycles.ccv)),
        (b"zc ", u64::from(r.constants.zc)),
    ]
}

pub(crate) fn put_registers<R: Print + Complain>(out: &mut Output<'_, R>, r: Registers) {
    put_line(
        &mut out.page,
        b"mode U\nmode S\nmode M\nmode VU\nmode VS",
        mode_code(r.mode),
    );
    out.end_line();
    for (name, word) in register_words(r) {
        out.page.put(name);
        out.page.put_short_hex(word);
        out.end_line();
    }
}

// An index, and a space after it.
fn put_index(page: &mut Page, i: u64) {
    page.put_decimal(i);
    page.put_byte(b' ');
}

// A line of the history: logical index, addresses, type, the count where CCV, bit 15 of ctrdata, says that
// it is valid, and that the transfer was mispredicted, where MISP, bit 0 of ctrtarget, says so.
fn put_transfer(page: &mut Page, i: u64, e: Entry) {
    put_index(page, i);
    put_path(page, e.ctrsource, e.ctrtarget, e.ctrdata);
    if bits::bit(e.ctrdata, 15) {
        page.put(b" cycles ");
        page.put_decimal(decoded(e.ctrdata));
    }
    if bits::bit(e.ctrtarget, 0) {
        page.put(b" mispredicted");
    }
}

// The index of logical entry i.
#[tactic(auto, using(recorder::proofs::Laws::physical_lt))]
fn index_of(b: Buffer, i: u64) -> usize
    ensures { result < entries }
{
    physical(b.code, b.wrptr, i) as usize
}

// Physical entry i.
fn physical_entry(s: &State, i: usize) -> Entry
    requires { i < entries }
{
    s.entries.entry(i).unwrap()
}

// Logical entry i.
fn logical_entry(s: &State, i: u64) -> Entry {
    physical_entry(s, index_of(s.registers.buffer, i))
}

// The valid entries, newest first.
pub(crate) fn put_history<R: Print + Complain>(out: &mut Output<'_, R>, s: &State) {
    for i in 0..depth(s.registers.buffer.code) {
        let e = logical_entry(s, i);
        if bits::bit(e.ctrsource, 0) {
            put_transfer(&mut out.page, i, e);
            out.end_line();
        }
    }
}

// All entries up to the depth as a dump, newest first: eight bytes a word, the lowest first.
pub(crate) fn put_dump(page: &mut Page, s: &State) {
    for i in 0..depth(s.registers.buffer.code) {
        let e = logical_entry(s, i);
        for word in [e.ctrsource, e.ctrtarget, e.ctrdata] {
            page.put(&word.to_le_bytes());
        }
    }
}

// All physical entries: index and words.
pub(crate) fn put_entries<R: Print + Complain>(out: &mut Output<'_, R>, s: &State) {
    for i in 0..ENTRIES {
        let e = physical_entry(s, i);
        put_index(&mut out.page, i as u64);
        out.page.put_short_hex(e.ctrsource);
        out.page.put_byte(b' ');
        out.page.put_short_hex(e.ctrtarget);
        out.page.put_byte(b' ');
        out.page.put_short_hex(e.ctrdata);
        out.end_line();
    }
}
