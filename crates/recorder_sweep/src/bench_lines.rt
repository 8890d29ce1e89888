// The published cases: runs from reset, and the answer to the last event of each.
use crate::csrs::{
    MCTRCTL, SCTRCTL, SCTRDEPTH, SCTRSTATUS, SIREG, SIREG2, SIREG3, SISELECT, VSCTRCTL, VSISELECT,
    access,
};
use machine::{Enables, Event, Mode, Operation, RetiredWord, ReturnTo, TrapTo};
use recorder::State;
use recorder::steps::{reset, step};
use std::io;
use sweep_support::lines::put_word;
use text::Page;

// The state after an event.
fn after(s: State, e: Event) -> State {
    step(s, e).state
}

fn read(number: u64) -> Event {
    access(Operation::Read, number, 0)
}

fn write(s: State, number: u64, operand: u64) -> State {
    after(s, access(Operation::Write, number, operand))
}

fn host(s: State, mstateen0: bool, hstateen0: bool) -> State {
    after(
        s,
        Event::Host(Enables {
            mstateen0,
            hstateen0,
        }),
    )
}

fn return_to(mode: Mode) -> Event {
    Event::TrapReturn(ReturnTo {
        mode,
        pc: 0x4000,
        target: 0x5000,
        cycles: 0,
    })
}

fn sret(s: State, mode: Mode) -> State {
    after(s, return_to(mode))
}

fn trap_to(mode: Mode) -> Event {
    Event::Trap(TrapTo {
        mode,
        interrupt: false,
        cause: 8,
        epc: 0x6000,
        handler: 0x7000,
        cycles: 0,
    })
}

fn retired(word: u32, pc: u64, target: u64) -> Event {
    Event::Retired(RetiredWord {
        word,
        pc,
        target,
        taken: false,
        mispredicted: false,
        cycles: 0,
    })
}

fn jal() -> Event {
    retired(0x0000_00EF, 0x1000, 0x2000)
}

fn function_return() -> Event {
    retired(0x0000_8067, 0x3000, 0x1004)
}

// The answer to an event.
fn line(rt: &impl Print, name: &[u8], s: State, e: Event) {
    let t = step(s, e);
    let mut out = [0u8; 128];
    let mut page = Page::new(&mut out);
    page.put(b"  ");
    page.put(name);
    page.put(b": number ");
    page.put_decimal(t.number);
    put_word(&mut page, b" value 0x", t.value);
    console::write(&mut io::writer(rt), page.text());
}

fn enables(rt: &impl Print) {
    let closed = sret(host(reset(false), false, true), Mode::VS);
    line(
        rt,
        b"VS reads sctrdepth with mstateen0.CTR 0",
        closed,
        read(SCTRDEPTH),
    );
    let open = sret(host(reset(false), true, true), Mode::VS);
    line(
        rt,
        b"VS reads sctrdepth with mstateen0.CTR 1",
        open,
        read(SCTRDEPTH),
    );
}

// A word written to sireg under a selection, at the depth of a code.
fn selected(code: u64, selection: u64) -> State {
    let s = write(reset(false), SCTRDEPTH, code);
    write(write(s, SISELECT, selection), SIREG, 0xABCD)
}

fn selections(rt: &impl Print) {
    line(
        rt,
        b"selection 0x27f at depth 128",
        selected(3, 0x27F),
        read(SIREG),
    );
    line(
        rt,
        b"selection 0x280 at depth 128",
        selected(3, 0x280),
        read(SIREG),
    );
    line(
        rt,
        b"selection 0x300 at depth 128",
        selected(3, 0x300),
        read(SIREG),
    );
    line(
        rt,
        b"selection 0x2ff at depth 256",
        selected(4, 0x2FF),
        read(SIREG),
    );
    line(
        rt,
        b"selection 0x300 at depth 256",
        selected(4, 0x300),
        read(SIREG),
    );
}

fn controls(rt: &impl Print) {
    let all_ones = write(reset(false), MCTRCTL, 0xFFFF_FFFF_FFFF_FFFF);
    line(rt, b"mctrctl after all ones", all_ones, read(MCTRCTL));
    let in_s = sret(host(all_ones, true, false), Mode::S);
    line(rt, b"sctrctl read by S", in_s, read(SCTRCTL));
    let in_m = after(write(in_s, SCTRCTL, 0), trap_to(Mode::M));
    line(
        rt,
        b"mctrctl after S wrote 0 to sctrctl",
        in_m,
        read(MCTRCTL),
    );
}

fn status(rt: &impl Print) {
    let s = write(reset(false), SCTRSTATUS, 0x8000_001F);
    line(
        rt,
        b"sctrstatus after 0x8000001f at depth 16",
        s,
        read(SCTRSTATUS),
    );
}

fn record(rt: &impl Print) {
    let before = write(write(reset(false), MCTRCTL, 4), SCTRSTATUS, 15);
    line(rt, b"a record at WRPTR 15", before, jal());
    let recorded = after(before, jal());
    line(rt, b"sctrstatus after it", recorded, read(SCTRSTATUS));
    line(
        rt,
        b"logical entry 0 after it",
        write(recorded, SISELECT, 0x200),
        read(SIREG),
    );
}

fn depths(rt: &impl Print) {
    line(
        rt,
        b"sctrdepth after 7",
        write(reset(false), SCTRDEPTH, 7),
        read(SCTRDEPTH),
    );
    line(
        rt,
        b"sctrdepth after 8",
        write(reset(false), SCTRDEPTH, 8),
        read(SCTRDEPTH),
    );
}

fn traps(rt: &impl Print) {
    let without = sret(write(reset(false), MCTRCTL, 0x201), Mode::U);
    line(rt, b"U to M with MTE", without, trap_to(Mode::M));
    let with = sret(write(reset(false), MCTRCTL, 0x301), Mode::U);
    line(rt, b"U to M with MTE and STE", with, trap_to(Mode::M));
    let recorded = write(after(with, trap_to(Mode::M)), SISELECT, 0x200);
    line(rt, b"its ctrsource", recorded, read(SIREG));
    line(rt, b"its ctrtarget", recorded, read(SIREG2));
    line(rt, b"its ctrdata", recorded, read(SIREG3));
}

fn trap_from_off(rt: &impl Print) {
    let in_s = sret(write(reset(false), MCTRCTL, 4), Mode::S);
    let in_m = after(in_s, trap_to(Mode::M));
    line(
        rt,
        b"S off to M on",
        write(in_m, SISELECT, 0x200),
        read(SIREG),
    );
}

fn emulated_return(rt: &impl Print) {
    let selected = write(write(reset(false), MCTRCTL, 4), SISELECT, 0x200);
    let before = write(write(selected, SIREG, 0x1235), MCTRCTL, 0x84);
    line(
        rt,
        b"a return under RASEMU at WRPTR 0",
        before,
        function_return(),
    );
    let popped = after(before, function_return());
    line(
        rt,
        b"entry 15 after it",
        write(popped, SISELECT, 0x20F),
        read(SIREG),
    );
    line(
        rt,
        b"sctrstatus after it under RASEMU",
        popped,
        read(SCTRSTATUS),
    );
}

// Where another implementation departs from the ratified text (docs/PEERS.md).
fn guest_traps(rt: &impl Print) {
    let inhibited = write(write(reset(false), VSCTRCTL, 1), MCTRCTL, 0x2_0000_0002);
    line(
        rt,
        b"VU to S with EXCINH in mctrctl alone",
        sret(inhibited, Mode::VU),
        trap_to(Mode::S),
    );
    let external = write(
        write(host(reset(false), true, false), VSCTRCTL, 2),
        MCTRCTL,
        0x100,
    );
    let in_vs = sret(external, Mode::VS);
    line(
        rt,
        b"VS to S with STE and without VSTE",
        in_vs,
        trap_to(Mode::S),
    );
    let recorded = write(after(in_vs, trap_to(Mode::S)), SISELECT, 0x200);
    line(rt, b"ctrtarget of that trap", recorded, read(SIREG2));
}

// A return into a guest goes by vsctrctl.
fn guest_entries(rt: &impl Print) {
    let inhibited = write(write(reset(false), VSCTRCTL, 2), MCTRCTL, 0x8_0000_0002);
    line(
        rt,
        b"S to VS with TRETINH in mctrctl alone",
        sret(inhibited, Mode::S),
        return_to(Mode::VS),
    );
    let emulated = write(write(reset(false), VSCTRCTL, 0x82), MCTRCTL, 2);
    line(
        rt,
        b"S to VS with RASEMU in vsctrctl alone",
        sret(emulated, Mode::S),
        return_to(Mode::VS),
    );
}

fn closed_windows(rt: &impl Print) {
    let in_s = sret(write(reset(false), SISELECT, 0x200), Mode::S);
    line(
        rt,
        b"S reads sireg in the window with mstateen0.CTR 0",
        in_s,
        read(SIREG),
    );
    let guest = write(host(reset(false), true, false), VSISELECT, 0x200);
    line(
        rt,
        b"VS reads sireg in the window with hstateen0.CTR 0",
        sret(guest, Mode::VS),
        read(SIREG),
    );
    line(
        rt,
        b"VU reads siselect",
        sret(reset(false), Mode::VU),
        read(SISELECT),
    );
}

pub(crate) fn report(rt: &impl Print) {
    console::write(&mut io::writer(rt), b"bench lines\n");
    enables(rt);
    selections(rt);
    controls(rt);
    status(rt);
    record(rt);
    depths(rt);
    traps(rt);
    trap_from_off(rt);
    emulated_return(rt);
    guest_traps(rt);
    guest_entries(rt);
    closed_windows(rt);
}
