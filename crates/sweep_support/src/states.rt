// The digest h with a whole state taken in: the registers, then every entry. Those of two states that
// differ in one word only are never equal.
ghost use Rattle.std.specs.Prelude.{◌≡◌};
ghost use Rattle.recorder.specs.Steps.{entries_in};
ghost use Rattle.sweep_support.specs.Digests.{with_state};

use crate::digests::{digest_entry, digest_registers};
use machine::{Entry, Registers};
use recorder::{ENTRIES, Entries, State};

// A state whose entries are lent.
#[tactic(auto, unfolding(crate::specs::Digests::with_state, crate::specs::Digests::with_entries))]
pub fn digest_state(h: u64, r: Registers, entries: &Entries) -> u64
    ensures { result ≡ with_state h r entries.now }
{
    let mut d = digest_registers(h, r);
    for i in 0..ENTRIES {
        let e = Entry {
            ctrsource: entries.ctrsource[i],
            ctrtarget: entries.ctrtarget[i],
            ctrdata: entries.ctrdata[i],
        };
        d = digest_entry(d, e);
    }
    d
}

// A state by value.
pub fn digest_value(h: u64, s: State) -> u64
    ensures { result ≡ with_state h s.registers (entries_in s) }
{
    digest_state(h, s.registers, &s.entries)
}
