// What the switch met: words with a code of C.FSDSP, by what they are with it on.
use crate::lines::put_named_row;
use crate::steps::Step;
use machine::{Event, Outcome};
use test_support::count_at;
use text::Page;

// What a code of C.FSDSP is with the switch on.
#[derive(Clone, Copy)]
enum Kind {
    Jt,
    Jalt,
    Popret,
    Popretz,
    Other,
}

const KINDS: usize = 5;

// Words of each kind: with the switch off, and with it on where nothing comes of them; records; pops.
#[derive(Default, Drop)]
pub(crate) struct Switched {
    off: [u64; KINDS],
    nothing: [u64; KINDS],
    records: [u64; KINDS],
    pops: [u64; KINDS],
}

// The kind of a word; none if it has no code of C.FSDSP.
fn kind_of(word: u32) -> Option<Kind> {
    let low = word % 65536;
    if low % 4 != 2 || low / 8192 != 5 {
        return None;
    }
    let pops = low / 16 % 16 >= 4;
    Some(match low / 256 {
        0xA0..=0xA3 if low / 4 % 256 < 32 => Kind::Jt,
        0xA0..=0xA3 => Kind::Jalt,
        0xBE if pops => Kind::Popret,
        0xBC if pops => Kind::Popretz,
        _ => Kind::Other,
    })
}

impl Switched {
    // A step that was answered, from good registers.
    pub(crate) fn add_step(&mut self, s: &Step) {
        let Event::Retired(w) = s.event else { return };
        let Some(kind) = kind_of(w.word) else { return };
        let place = kind as u64;
        match (s.before.constants.zc, s.outcome) {
            (false, Some(Outcome::Nothing)) => count_at(&mut self.off, place),
            (true, Some(Outcome::Nothing)) => count_at(&mut self.nothing, place),
            (true, Some(Outcome::Record)) => count_at(&mut self.records, place),
            (true, Some(Outcome::Pop)) => count_at(&mut self.pops, place),
            _ => {}
        }
    }

    pub(crate) fn put(&self, page: &mut Page) {
        // Others record nothing, and of the rest the two returns pop.
        let returns = Kind::Popret as usize;
        let others = Kind::Other as usize;
        page.put(b"  codes of C.FSDSP: CM.JT, CM.JALT, CM.POPRET, CM.POPRETZ, others\n");
        put_named_row(page, b"    switch off", &self.off);
        put_named_row(page, b"    switch on, nothing", &self.nothing);
        put_named_row(page, b"    switch on, records", &self.records[..others]);
        put_named_row(page, b"    switch on, pops", &self.pops[returns..others]);
    }
}
