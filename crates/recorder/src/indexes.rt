// Which entry an event is about, as an index of the entries.
ghost use Rattle.std.specs.Prelude.{◌≡◌, ◌<◌};
ghost use Rattle.access.specs.Accesses.{access_focus};
ghost use Rattle.transfers.specs.Transfers.{outcome_focus};
ghost use Rattle.recorder.specs.Entries.{entries};
ghost use Rattle.recorder.specs.Events.{at_wrptr};

use machine::depths::wrapped;
use machine::{Outcome, Registers};

// The entry at WRPTR.
#[tactic(auto, using(crate::proofs::Laws::at_wrptr_lt))]
pub(crate) fn wrptr_index(r: Registers) -> usize
    ensures within { result < entries }
    ensures focused { result ≡ at_wrptr r.buffer }
{
    wrapped(r.buffer.wrptr, r.buffer.code) as usize
}

// The entry that an outcome is about.
#[tactic(auto, using(crate::proofs::Laws::outcome_lt))]
pub(crate) fn outcome_index(r: Registers, o: Outcome) -> usize
    ensures within { result < entries }
    ensures focused { result ≡ outcome_focus r.buffer o }
{
    transfers::decisions::focus(r, o) as usize
}

// The entry that an access by CSR number is about.
#[tactic(auto, using(crate::proofs::Laws::access_lt))]
pub(crate) fn access_index(r: Registers, number: u64) -> usize
    ensures within { result < entries }
    ensures focused { result ≡ access_focus r number }
{
    access::accesses::focus(r, number) as usize
}
