// What the random lists ask of an event.
use machine::modes::is_on;
use machine::{Event, Mode, Registers, RetiredWord, ReturnTo, TrapTo};

// The cycles of a retired word, a trap or a trap return; other events have none.
pub(crate) fn cycles_of(e: Event) -> u32 {
    match e {
        Event::Retired(w) => w.cycles,
        Event::Trap(t) => t.cycles,
        Event::TrapReturn(t) => t.cycles,
        _ => 0,
    }
}

// The flag of a retired word.
pub(crate) fn is_mispredicted(e: Event) -> bool {
    match e {
        Event::Retired(w) => w.mispredicted,
        _ => false,
    }
}

// The addresses of a trap or trap return.
#[derive(Clone, Copy)]
pub(crate) struct Addresses {
    pub(crate) source: u64,
    pub(crate) target: u64,
}

pub(crate) fn addresses_of(e: Event) -> Option<Addresses> {
    match e {
        Event::Trap(t) => Some(Addresses {
            source: t.epc,
            target: t.handler,
        }),
        Event::TrapReturn(t) => Some(Addresses {
            source: t.pc,
            target: t.target,
        }),
        _ => None,
    }
}

// Whether a machine is in a mode that is off.
pub(crate) fn is_off(r: Registers) -> bool {
    !is_on(r, r.mode)
}

// What run B may have in place of A's, where a side of an event is off.
#[derive(Clone, Copy)]
pub(crate) struct Others {
    pub(crate) source: u64,
    pub(crate) target: u64,
    pub(crate) cycles: u32,
    pub(crate) mispredicted: bool,
}

fn chosen<T: Copy>(is_other: bool, own: T, other: T) -> T {
    if is_other { other } else { own }
}

// The event that run B gets for A's: with other addresses where that side is off in both runs, and with
// other cycles, or another flag of a word that is struck, where the source side is.
pub(crate) fn with_others(e: Event, a: Registers, b: Registers, others: Others) -> Event {
    let source_off = is_off(a) && is_off(b);
    let target_off = |to: Mode| !is_on(a, to) && !is_on(b, to);
    match e {
        Event::Retired(w) => Event::Retired(RetiredWord {
            mispredicted: chosen(source_off, w.mispredicted, others.mispredicted),
            ..w
        }),
        Event::Trap(t) => Event::Trap(TrapTo {
            epc: chosen(source_off, t.epc, others.source),
            handler: chosen(target_off(t.mode), t.handler, others.target),
            cycles: chosen(source_off, t.cycles, others.cycles),
            ..t
        }),
        Event::TrapReturn(t) => Event::TrapReturn(ReturnTo {
            pc: chosen(source_off, t.pc, others.source),
            target: chosen(target_off(t.mode), t.target, others.target),
            cycles: chosen(source_off, t.cycles, others.cycles),
            ..t
        }),
        _ => e,
    }
}
