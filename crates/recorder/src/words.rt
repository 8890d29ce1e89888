// The entries: what one of them holds, and what becomes of them by an effect.
ghost use Rattle.std.specs.Prelude.{◌≡◌, ◌<◌, ◌↔◌, IfSome, IsSome};
ghost use Rattle.recorder.specs.Entries.{entries, cleared, entry_at, applied_of};

use crate::{ENTRIES, Entries};
use machine::{Effect, Entry};

impl Entries {
    // All words zero.
    pub(crate) fn cleared() -> Entries
        ensures { result ≡ cleared }
    {
        Entries {
            ctrsource: [0; ENTRIES],
            ctrtarget: [0; ENTRIES],
            ctrdata: [0; ENTRIES],
        }
    }

    // Physical entry i; none past the last.
    pub fn entry(&self, i: usize) -> Option<Entry>
        ensures there { IsSome result ↔ (i < entries) }
        ensures value { IfSome result (λ e. e ≡ entry_at self.now i) }
    {
        (i < ENTRIES).then(|| self.at(i))
    }

    // Physical entry i, of those that there are.
    pub(crate) fn at(&self, i: usize) -> Entry
        requires { i < entries }
        ensures { result ≡ entry_at self.now i }
    {
        Entry {
            ctrsource: self.ctrsource[i],
            ctrtarget: self.ctrtarget[i],
            ctrdata: self.ctrdata[i],
        }
    }

    // An effect on physical entry i.
    #[tactic(auto, unfolding(crate::specs::Entries::applied_of))]
    pub(crate) fn apply(&mut self, effect: Effect, i: usize)
        requires { i < entries }
        ensures { self.new ≡ applied_of self.old effect i }
    {
        match effect {
            Effect::Keep => {}
            Effect::Put(e) => {
                self.ctrsource[i] = e.ctrsource;
                self.ctrtarget[i] = e.ctrtarget;
                self.ctrdata[i] = e.ctrdata;
            }
            Effect::ClearAll => *self = Entries::cleared(),
        }
    }
}
